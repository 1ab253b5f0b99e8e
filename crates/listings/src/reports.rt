// The line of each CLCW: what a receiver reports in it.

ghost use Rattle.std.specs.Prelude.{◌≡◌, ◌+◌, ◌≤◌, ◌++◌, codes, decimal, length, take, IfOk, is_ok};
ghost use Rattle.clcw.specs.Decoding.{clcw_at};
ghost use Rattle.listings.specs.Layouts.{word_in};
ghost use Rattle.listings.specs.Text.{Appends};
ghost use Rattle.listings.specs.ReportLines.{field_line, receiver_text, report_line, report_lines, status_text};

use crate::control_words::{ControlWords, WordFault, word_in};
use crate::lines::{push_invalid, push_name, push_refused};
use crate::listing::Listing;
use crate::parts::{put_field, put_flag, put_short_field, put_short_flag, put_word};
use crate::record_number::RecordNumber;
use crate::text::Text;
use bitflags::Flags;
use clcw::{Clcw, ClcwFlags, decode};
use octets::Splitter;
use std::alloc::AllocError;
use std::marker::Model;

/// Lists what each CLCW reports. Nothing is kept between two CLCWs.
#[derive(Drop)]
pub struct ReportListing;

impl Model for ReportListing {
    ghost Value = { Unit {0} };

    ghost view = { λ l. tt };
}

#[inline(always)]
fn put_status(room: &mut [u8], at: usize, word: &Clcw) -> usize
    requires { at + 32 ≤ length room.old }
    ensures put { take result room.new ≡ take at room.old ++ status_text word.now }
    ensures next { result ≤ at + 32 }
{
    let next = put_field::<8>(room, at, b" status=", word.status);
    let next = put_flag::<4>(
        room,
        next,
        b" rf=",
        word.flags.contains(ClcwFlags::NO_RF_AVAILABLE),
    );
    let next = put_flag::<4>(
        room,
        next,
        b" lock=",
        word.flags.contains(ClcwFlags::NO_BIT_LOCK),
    );
    put_word::<1>(room, next, b"\n")
}

#[inline(always)]
fn put_receiver(room: &mut [u8], at: usize, word: &Clcw) -> usize
    requires { at + 64 ≤ length room.old }
    ensures put { take result room.new ≡ take at room.old ++ receiver_text word.now }
    ensures next { result ≤ at + 64 }
{
    let next = put_field::<4>(room, at, b" vr=", word.value);
    let next = put_short_flag(room, next, b" l=0", word.flags.contains(ClcwFlags::LOCKOUT));
    let next = put_short_flag(room, next, b" w=0", word.flags.contains(ClcwFlags::WAIT));
    let next = put_short_flag(
        room,
        next,
        b" t=0",
        word.flags.contains(ClcwFlags::RETRANSMIT),
    );
    let next = put_short_field(room, next, b" b=0", word.farm_b);
    put_status(room, next, word)
}

#[inline(always)]
fn put_report(room: &mut [u8], at: usize, word: &Clcw) -> usize
    requires { at + 96 ≤ length room.old }
    ensures put { take result room.new ≡ take at room.old ++ report_line word.now }
    ensures next { result ≤ at + 96 }
{
    let next = put_field::<8>(room, at, b"report vcid=", word.vcid);
    put_receiver(room, next, word)
}

#[inline(always)]
fn put_numbered(room: &mut [u8], at: usize, index: &RecordNumber, word: &Clcw) -> usize
    requires { at + 128 ≤ length room.old }
    ensures put { take result room.new ≡ take at room.old
        ++ (decimal index.now ++ (codes " " ++ report_line word.now)) }
    ensures next { result ≤ at + 128 }
{
    let next = index.put(room, at);
    let next = put_word::<1>(room, next, b" ");
    put_report(room, next, word)
}

fn put_invalid(room: &mut [u8], at: usize, number: u8) -> usize
    requires { at + 32 ≤ length room.old }
    ensures put { take result room.new ≡ take at room.old
        ++ (codes "report invalid " ++ (decimal number ++ codes " ")) }
    ensures next { result ≤ at + 32 }
{
    let next = put_field::<8>(room, at, b"report invalid ", number);
    put_word::<1>(room, next, b" ")
}

/// Appends the line of the CLCW in a telemetry frame, or why its field is not a valid CLCW.
#[inline(always)]
pub fn push_report(text: &mut Text, field: [u8; 4]) -> Result<(), AllocError>
    ensures { Appends result text.old text.new (field_line (clcw_at field)) }
{
    text.make_room(96)?;
    match decode(field) {
        Ok(word) => {
            text.len = put_report(text.octets.as_mut_slice(), text.len, &word);
            Ok(())
        }
        Err(fault) => {
            text.len = put_invalid(text.octets.as_mut_slice(), text.len, fault.number());
            push_name(text, fault.name())
        }
    }
}

impl Listing<Splitter<ControlWords>> for ReportListing {
    ghost lines = { report_lines };

    fn take(
        &mut self,
        text: &mut Text,
        index: &RecordNumber,
        octets: &[u8],
    ) -> Result<bool, AllocError> {
        match word_in(octets) {
            Ok(word) => {
                text.make_room(128)?;
                text.len = put_numbered(text.octets.as_mut_slice(), text.len, index, &word);
                Ok(true)
            }
            Err(fault) => push_refused(text, index, fault.number(), fault.name()),
        }
    }

    fn refuse(text: &mut Text, index: &RecordNumber, fault: WordFault) -> Result<(), AllocError> {
        push_invalid(text, index, fault.number(), fault.name())
    }
}
