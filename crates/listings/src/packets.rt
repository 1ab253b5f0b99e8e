// The line of each space packet: its fields, and how many packets of its application process are missing
// before it.

ghost use Rattle.std.specs.Prelude.{◌≡◌, ◌+◌, ◌≤◌, ◌++◌, codes, decimal, length, take, IfOk, is_ok, get_or, ℕ, List, Option};
ghost use Rattle.space_packet.specs.Counters.{gap_after};
ghost use Rattle.space_packet.specs.Layout.{packet_view, secondary_bit};
ghost use Rattle.space_packet.specs.Decoding.{packet_at};
ghost use Rattle.listings.specs.Text.{Appends};
ghost use Rattle.listings.specs.PacketLines.{kind_word, none_seen, process_text, sequence_text, gap_text, packet_line, after_packet, packet_lines};

use crate::lines::{push_invalid, push_octets, push_refused};
use crate::listing::Listing;
use crate::parts::{put_field, put_long_field, put_word};
use crate::record_number::RecordNumber;
use crate::text::Text;
use octets::Splitter;
use space_packet::{GapCheck, Packet, PacketFault, PacketKind, Packets, decode};
use std::alloc::AllocError;
use std::marker::Model;

/// Lists the fields of each packet, and how many packets of its application process are missing
/// before it.
#[derive(Drop)]
pub struct PacketListing {
    gaps: GapCheck,
}

impl Model for PacketListing {
    ghost Value = { List (Option ℕ) };

    ghost view = { λ l. l.gaps };
}

impl PacketListing {
    /// Creates a listing that has seen no packet, for the lines of `tctool packets`.
    #[tactic(auto, unfolding(crate::specs::PacketLines::none_seen))]
    pub fn new() -> Self
        ensures { result ≡ none_seen }
    {
        PacketListing {
            gaps: GapCheck::new(),
        }
    }
}

#[tactic(auto, unfolding(crate::specs::PacketLines::kind_word))]
#[inline(always)]
fn word_of_kind(kind: PacketKind) -> [u8; 2]
    ensures { result ≡ kind_word kind }
{
    match kind {
        PacketKind::Telemetry => *b"TM",
        PacketKind::Telecommand => *b"TC",
    }
}

#[inline(always)]
fn number_of_flag(flag: bool) -> u8
    ensures { result ≡ secondary_bit flag }
{
    u8::from(flag)
}

#[inline(always)]
fn put_process(room: &mut [u8], at: usize, kind: &[u8; 2], secondary: u8, apid: u16) -> usize
    requires { at + 48 ≤ length room.old }
    ensures put { take result room.new ≡ take at room.old ++ process_text kind.now secondary apid }
    ensures next { result ≤ at + 48 }
{
    let next = put_word::<2>(room, at, kind);
    let next = put_field::<8>(room, next, b" secondary=", secondary);
    put_long_field::<4>(room, next, b" apid=", apid)
}

#[inline(always)]
fn put_sequence(room: &mut [u8], at: usize, packet: &Packet) -> usize
    requires { at + 32 ≤ length room.old }
    ensures put { take result room.new ≡ take at room.old ++ sequence_text (packet_view packet.now) }
    ensures next { result ≤ at + 32 }
{
    let next = put_field::<4>(room, at, b" flags=", packet.flags);
    put_long_field::<4>(room, next, b" count=", packet.count)
}

#[inline(always)]
fn put_gap(room: &mut [u8], at: usize, gap: Option<u16>) -> usize
    requires { at + 32 ≤ length room.old }
    ensures put { take result room.new ≡ take at room.old ++ gap_text gap }
    ensures next { result ≤ at + 32 }
{
    match gap {
        None => put_word::<8>(room, at, b" gap=- data="),
        Some(gap) => {
            let next = put_long_field::<4>(room, at, b" gap=", gap);
            put_word::<4>(room, next, b" data=")
        }
    }
}

#[inline(always)]
fn put_packet(
    room: &mut [u8],
    at: usize,
    index: &RecordNumber,
    packet: &Packet,
    gap: Option<u16>,
) -> usize
    requires { at + 144 ≤ length room.old }
    ensures put { take result room.new ≡ take at room.old ++ (decimal index.now ++ (codes " "
        ++ (process_text (kind_word packet.now.kind) (secondary_bit packet.now.secondary) packet.now.apid
        ++ (sequence_text (packet_view packet.now) ++ gap_text gap)))) }
    ensures next { result ≤ at + 144 }
{
    let next = index.put(room, at);
    let next = put_word::<1>(room, next, b" ");
    let kind = word_of_kind(packet.kind);
    let secondary = number_of_flag(packet.secondary);
    let next = put_process(room, next, &kind, secondary, packet.apid);
    let next = put_sequence(room, next, packet);
    put_gap(room, next, gap)
}

impl Listing<Splitter<Packets>> for PacketListing {
    ghost lines = { packet_lines };

    fn take(
        &mut self,
        text: &mut Text,
        index: &RecordNumber,
        octets: &[u8],
    ) -> Result<bool, AllocError> {
        match decode(octets) {
            Ok((packet, _)) => {
                let gap = self.gaps.see(packet.apid, packet.count);
                text.make_room(144)?;
                text.len = put_packet(text.octets.as_mut_slice(), text.len, index, &packet, gap);
                push_octets(text, packet.payload)?;
                Ok(true)
            }
            Err(fault) => push_refused(text, index, fault.number(), fault.name()),
        }
    }

    fn refuse(text: &mut Text, index: &RecordNumber, fault: PacketFault) -> Result<(), AllocError> {
        push_invalid(text, index, fault.number(), fault.name())
    }
}
