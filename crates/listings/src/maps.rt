// The packets from TC frames, MAP by MAP, and what is dropped.

ghost use Rattle.std.specs.Prelude.{◌≡◌, ◌+◌, ◌≤◌, ◌++◌, ℕ, Bool, List, OnOk, IfOk, is_ok, codes, decimal, length, take};
ghost use Rattle.tc_frame.specs.Layout.{body_view, frame_view, segment_view};
ghost use Rattle.tc_frame.specs.Decoding.{frame_at};
ghost use Rattle.tc_frame.specs.declared.frame.Check.{Check as Checking};
ghost use Rattle.tc_frame.specs.Splitter.{check_if};
ghost use Rattle.cop1.specs.Farm.{IsWidth, new_farm};
ghost use Rattle.map_service.specs.Assembly.{assembled};
ghost use Rattle.map_service.specs.Exactness.{step_at, after_step};
ghost use Rattle.tm_link.specs.Extractor.{octets_of};
ghost use Rattle.listings.specs.Text.{Appends};
ghost use Rattle.listings.specs.MapLines.{MapState, map_limits, map_opened, is_bypass, dropped_line, on_map_line, cause_text, map_packets_text, outcome_text, bypass_text, body_text, after_body, record_text, after_record, map_lines};
ghost use Rattle.listings.specs.OneMap.{passed};
ghost use Rattle.listings.specs.ListedPackets.{accepted_in, listed_on};

use crate::farm::give;
use crate::first_number::Begins;
use crate::lines::{push_invalid, push_name, push_octets, push_refused};
use crate::listing::Listing;
use crate::parts::{put_field, put_word};
use crate::record_number::RecordNumber;
use crate::text::Text;
use cop1::{Farm, Verdict};
use map_service::{Assembler, Dropped, Limits, TakenInline};
use octets::Splitter;
use space_packet::is_packet;
use std::alloc::{AllocError, Global};
use std::marker::Model;
use tc_frame::{
    Body, Check, Command, FrameLayout, Segment, SegmentFlags, TcFault, check_if, decode,
};

/// Lists the packets from frames. A receiver takes each frame. One assembler, with all MAPs open,
/// takes each segment that arrived in a Type-AD frame and was accepted.
#[derive(Drop)]
pub struct MapListing {
    farm: Farm,
    assembler: Assembler,
}

impl Model for MapListing {
    ghost Value = { MapState };

    ghost view = { λ l. record { receiver = l.farm; assembler = l.assembler } };
}

impl MapListing {
    /// Creates a listing that has seen no frame, for the lines of `tctool map`. Its receiver has this
    /// window width and expects the number `vr` first.
    pub fn new(alloc: Global, width: u8, vr: u8, blocking: bool) -> Self
        requires { IsWidth width }
        ensures { result ≡ map_opened width vr blocking }
    {
        let limits = Limits {
            part: 1016,
            max_packet: 65542,
            maps: u64::MAX,
            blocking,
        };
        MapListing {
            farm: Farm::new(width, vr).unwrap(),
            assembler: Assembler::new(alloc, limits),
        }
    }

    /// Gives a segment to the assembler, and appends what the assembler drops and delivers.
    #[inline(always)]
    fn push_segment(
        &mut self,
        text: &mut Text,
        index: &RecordNumber,
        segment: Segment,
    ) -> Result<(), AllocError>
        ensures text { Appends result text.old text.new (outcome_text index.now segment.entry.header.map
            (step_at self.old.assembler (segment_view segment.entry))) }
        ensures state { OnOk result (self.new
            ≡ record self.old {
              assembler = after_step self.old.assembler (segment_view segment.entry);
            }) }
    {
        if let Some(packet) = self.assembler.lone_packet(&segment) {
            return push_packet(text, segment.header.map, packet);
        }
        let Ok(taken) = self.assembler.take_inline(&segment) else {
            return Err(AllocError);
        };
        push_cause(text, index, taken.dropped)?;
        push_packets(text, segment.header.map, taken.packets.as_slice())
    }

    /// Gives a frame only to the receiver, whose buffer is free.
    pub(crate) fn pass(&mut self, body: &Body)
        ensures { self.new ≡ passed self.old (body_view body.now) }
    {
        give(&mut self.farm, body);
    }

    /// Makes the receiver expect this number.
    pub(crate) fn begin(&mut self, vr: u8)
        ensures { self.new ≡ record self.old { receiver = record self.old.receiver { vr = vr } } }
    {
        self.farm.begin(vr);
    }

    /// Gives a frame to the receiver, whose buffer is free, and appends its lines.
    #[inline(always)]
    pub(crate) fn push_body(
        &mut self,
        text: &mut Text,
        index: &RecordNumber,
        body: Body,
    ) -> Result<(), AllocError>
        ensures text { Appends result text.old text.new
            (body_text self.old index.now (body_view body.entry)) }
        ensures state { OnOk result (self.new ≡ after_body self.old (body_view body.entry)) }
    {
        match body {
            Body::Ad { n, segment } => match self.farm.ad(n, true) {
                Verdict::Accepted => self.push_segment(text, index, segment),
                Verdict::Ahead
                | Verdict::NoBuffer
                | Verdict::Behind
                | Verdict::Outside
                | Verdict::Discarded => Ok(()),
            },
            Body::Bd { segment } => {
                self.farm.bd();
                push_bypass(text, index, segment)
            }
            Body::Bc(Command::Unlock) => {
                self.farm.unlock();
                Ok(())
            }
            Body::Bc(Command::SetVr(vr)) => {
                self.farm.set_vr(vr);
                Ok(())
            }
        }
    }

    /// Takes a record, appends its lines, and returns whether the record is a frame.
    #[inline(always)]
    fn push_frame(
        &mut self,
        text: &mut Text,
        check: Check,
        index: &RecordNumber,
        octets: &[u8],
    ) -> Result<bool, AllocError>
        ensures text { Appends result text.old text.new
            (record_text self.old index.now (frame_at check octets.now)) }
        ensures state { OnOk result (self.new ≡ after_record check self.old octets.now) }
        ensures good { IfOk result (λ good. good ≡ is_ok (frame_at check octets.now)) }
    {
        match decode(octets, check) {
            Ok(frame) => {
                self.push_body(text, index, frame.body)?;
                Ok(true)
            }
            Err(fault) => push_refused(text, index, fault.number(), fault.name()),
        }
    }
}

/// Appends the line of what is dropped.
fn push_dropped(text: &mut Text, index: &RecordNumber, cause: &str) -> Result<(), AllocError>
    ensures { Appends result text.old text.new (dropped_line index.now cause.now) }
{
    text.make_room(32)?;
    text.len = put_dropped(text.octets.as_mut_slice(), text.len, index);
    push_name(text, cause)
}

fn put_dropped(room: &mut [u8], at: usize, index: &RecordNumber) -> usize
    requires { at + 32 ≤ length room.old }
    ensures put { take result room.new ≡ take at room.old ++ (decimal index.now ++ codes " dropped ") }
    ensures next { result ≤ at + 32 }
{
    let next = index.put(room, at);
    put_word::<8>(room, next, b" dropped ")
}

/// Appends a word, a MAP, and octets that came on it.
#[inline(always)]
fn push_on_map(text: &mut Text, word: &[u8; 7], map: u8, octets: &[u8]) -> Result<(), AllocError>
    ensures { Appends result text.old text.new (on_map_line word.now map octets.now) }
{
    text.make_room(16)?;
    text.len = put_on_map(text.octets.as_mut_slice(), text.len, word, map);
    push_octets(text, octets)
}

#[inline(always)]
fn put_on_map(room: &mut [u8], at: usize, word: &[u8; 7], map: u8) -> usize
    requires { at + 16 ≤ length room.old }
    ensures put { take result room.new ≡ take at room.old
        ++ (word.now ++ (decimal map ++ codes " ")) }
    ensures next { result ≤ at + 16 }
{
    let next = put_field::<4>(room, at, word, map);
    put_word::<1>(room, next, b" ")
}

#[inline(always)]
fn push_cause(
    text: &mut Text,
    index: &RecordNumber,
    dropped: Option<Dropped>,
) -> Result<(), AllocError>
    ensures { Appends result text.old text.new (cause_text index.now dropped) }
{
    match dropped {
        Some(cause) => push_dropped(text, index, cause.name()),
        None => Ok(()),
    }
}

/// Appends the line of a packet that is delivered.
#[inline(always)]
fn push_packet(text: &mut Text, map: u8, packet: &[u8]) -> Result<(), AllocError>
    ensures { Appends result text.old text.new (on_map_line (codes "packet ") map packet.now) }
{
    push_on_map(text, b"packet ", map, packet)
}

/// Appends the line of each packet that is delivered.
#[inline(always)]
fn push_packets(text: &mut Text, map: u8, packets: &[Vec<u8>]) -> Result<(), AllocError>
    ensures { Appends result text.old text.new (map_packets_text map (octets_of packets.now)) }
{
    for packet in packets {
        push_packet(text, map, packet.as_slice())?;
    }
    Ok(())
}

// Returns whether the segment of a Type-BD frame is exactly one whole packet.
fn is_bypass(segment: Segment) -> bool
    ensures { result ≡ is_bypass (segment_view segment.entry) }
{
    match segment.header.flags {
        SegmentFlags::Alone => is_packet(segment.payload),
        SegmentFlags::First | SegmentFlags::Continuing | SegmentFlags::Last => false,
    }
}

fn push_bypass(text: &mut Text, index: &RecordNumber, segment: Segment) -> Result<(), AllocError>
    ensures { Appends result text.old text.new (bypass_text index.now (segment_view segment.entry)) }
{
    if is_bypass(segment) {
        push_on_map(text, b"bypass ", segment.header.map, segment.payload)
    } else {
        push_dropped(text, index, "Bypass")
    }
}

/// The packets listed on a MAP are those that the accepted segments of all records give on it, in their
/// order, whatever the records are.
pub fn law_of_listed_packets()
    ensures { (check : Checking) (width vr : ℕ) (blocking : Bool) (m : ℕ) (records : List (List ℕ))
        → listed_on check m (map_opened width vr blocking) records
        ≡ assembled (map_limits blocking) m (accepted_in check (new_farm width vr) records) }
{}

impl<const CHECKED: bool> Listing<Splitter<FrameLayout<CHECKED>>> for MapListing {
    ghost lines = { map_lines (check_if CHECKED) };

    fn take(
        &mut self,
        text: &mut Text,
        index: &RecordNumber,
        octets: &[u8],
    ) -> Result<bool, AllocError> {
        self.push_frame(text, check_if(CHECKED), index, octets)
    }

    fn refuse(text: &mut Text, index: &RecordNumber, fault: TcFault) -> Result<(), AllocError> {
        push_invalid(text, index, fault.number(), fault.name())
    }
}
