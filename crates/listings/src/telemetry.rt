// The line of each TM frame: its fields, how many frames are missing before it, and the packets that it
// finishes.

ghost use Rattle.std.specs.Prelude.{◌≡◌, ◌+◌, ◌≤◌, ◌++◌, IfOk, codes, length, take};
ghost use Rattle.listings.specs.Text.{Appends};
ghost use Rattle.listings.specs.Text.{line_end};
ghost use Rattle.tm_link.specs.Extractor.{octets_of};
ghost use Rattle.tm_link.specs.Layout.{frame_view};
ghost use Rattle.listings.specs.TelemetryLines.{TelemetryState, telemetry_opened, counts_text, pointer_text, lost_text, frame_line, report_text, finished_line, finished_lines, telemetry_lines};

use crate::frame_cutter::{FrameCutter, FrameLength};
use crate::lines::{push_invalid, push_octets, push_refused};
use crate::listing::Listing;
use crate::parts::{put_digits, put_field, put_long_field, put_word};
use crate::record_number::RecordNumber;
use crate::reports::push_report;
use crate::text::Text;
use std::alloc::{AllocError, Global};
use std::marker::{Model, PhantomData};
use tm_link::{Extractor, Gap, Pointer, TmFault, TmFrame, decode};

/// Lists the fields of each frame, on request what its CLCW reports, and the packets that it finishes. One
/// extractor takes all frames.
#[derive(Drop)]
pub struct TelemetryListing<K: FrameLength> {
    frame_length: u16,
    reports: bool,
    extractor: Extractor,
    packets: Vec<Vec<u8>>,
    channel: PhantomData<K>,
}

impl<K: FrameLength> Model for TelemetryListing<K> {
    ghost Value = { TelemetryState };

    ghost view = { λ l. record { reports = l.reports; extractor = l.extractor } };

    ghost invariant = { λ l. l.frame_length ≡ K.payload + 12 };
}

impl<K: FrameLength> TelemetryListing<K> {
    /// Creates a listing that has seen no frame. CLCWs have a line if `reports` is true. Its extractor
    /// reserves the octets of the longest packet.
    /// Faults: AllocError. Memory: yes.
    pub fn new(alloc: Global, frame_length: u16, reports: bool) -> Result<Self, AllocError>
        requires { frame_length ≡ K.payload + 12 }
        ensures { IfOk result (λ l. l ≡ telemetry_opened reports) }
    {
        let Ok(extractor) = Extractor::new(alloc) else {
            return Err(AllocError);
        };
        Ok(TelemetryListing {
            frame_length,
            reports,
            extractor,
            packets: Vec::new(alloc),
            channel: PhantomData,
        })
    }
}

impl<K: FrameLength> Listing<FrameCutter<K>> for TelemetryListing<K> {
    ghost lines = { telemetry_lines (K.payload + 12) };

    fn take(
        &mut self,
        text: &mut Text,
        index: &RecordNumber,
        octets: &[u8],
    ) -> Result<bool, AllocError> {
        match decode(octets, usize::from(self.frame_length)) {
            Ok(frame) => {
                self.packets.clear();
                let Ok(gap) = self.extractor.frame(&frame, &mut self.packets) else {
                    return Err(AllocError);
                };
                text.make_room(128)?;
                text.len = put_frame(text.octets.as_mut_slice(), text.len, index, &frame, gap);
                push_report_if(text, self.reports, &frame)?;
                push_finished(text, self.packets.as_slice())?;
                Ok(true)
            }
            Err(fault) => push_refused(text, index, fault.number(), fault.name()),
        }
    }

    fn refuse(text: &mut Text, index: &RecordNumber, fault: TmFault) -> Result<(), AllocError> {
        push_invalid(text, index, fault.number(), fault.name())
    }
}

#[inline(always)]
fn put_counts(room: &mut [u8], at: usize, index: &RecordNumber, frame: &TmFrame) -> usize
    requires { at + 64 ≤ length room.old }
    ensures put { take result room.new ≡ take at room.old
        ++ counts_text index.now (frame_view frame.now) }
    ensures next { result ≤ at + 64 }
{
    let next = index.put(room, at);
    let next = put_long_field::<4>(room, next, b" scid=", frame.scid);
    let next = put_field::<4>(room, next, b" vcid=", frame.vcid);
    let next = put_field::<4>(room, next, b" mc=", frame.mc_count);
    put_field::<4>(room, next, b" vc=", frame.vc_count)
}

#[inline(always)]
fn put_pointer(room: &mut [u8], at: usize, pointer: Pointer) -> usize
    requires { at + 32 ≤ length room.old }
    ensures put { take result room.new ≡ take at room.old
        ++ (codes " pointer=" ++ (pointer_text pointer ++ codes " ocf=")) }
    ensures next { result ≤ at + 32 }
{
    match pointer {
        Pointer::At(place) => {
            let next = put_long_field::<8>(room, at, b" pointer=", place);
            put_word::<4>(room, next, b" ocf=")
        }
        Pointer::NoStart => put_word::<16>(room, at, b" pointer=none ocf="),
        Pointer::OnlyIdle => put_word::<16>(room, at, b" pointer=idle ocf="),
    }
}

#[inline(always)]
fn put_gap(room: &mut [u8], at: usize, gap: Gap) -> usize
    requires { at + 16 ≤ length room.old }
    ensures put { take result room.new ≡ take at room.old
        ++ (codes " gap=" ++ (lost_text gap ++ line_end)) }
    ensures next { result ≤ at + 16 }
{
    match gap {
        Gap::First => put_word::<4>(room, at, b" gap=-\n"),
        Gap::Lost(count) => {
            let next = put_field::<4>(room, at, b" gap=", count);
            put_word::<1>(room, next, b"\n")
        }
    }
}

#[inline(always)]
fn put_frame(room: &mut [u8], at: usize, index: &RecordNumber, frame: &TmFrame, gap: Gap) -> usize
    requires { at + 128 ≤ length room.old }
    ensures put { take result room.new ≡ take at room.old
        ++ frame_line index.now (frame_view frame.now) gap }
    ensures next { result ≤ at + 128 }
{
    let next = put_counts(room, at, index, frame);
    let next = put_pointer(room, next, frame.pointer);
    let next = put_digits(room, next, &frame.ocf);
    put_gap(room, next, gap)
}

/// Appends the line of a frame's CLCW, if `reports` is true.
fn push_report_if(text: &mut Text, reports: bool, frame: &TmFrame) -> Result<(), AllocError>
    ensures { Appends result text.old text.new (report_text reports (frame_view frame.now)) }
{
    if !reports {
        return Ok(());
    }
    push_report(text, frame.ocf)
}

/// Appends the line of each packet that is finished.
#[inline(always)]
fn push_finished(text: &mut Text, packets: &[Vec<u8>]) -> Result<(), AllocError>
    ensures { Appends result text.old text.new (finished_lines (octets_of packets.now)) }
{
    for packet in packets {
        push_packet(text, packet.as_slice())?;
    }
    Ok(())
}

#[inline(always)]
fn push_packet(text: &mut Text, packet: &[u8]) -> Result<(), AllocError>
    ensures { Appends result text.old text.new (finished_line packet.now) }
{
    text.make_room(7)?;
    text.len = put_word::<4>(text.octets.as_mut_slice(), text.len, b"packet ");
    push_octets(text, packet)
}
