// Segments that begin a part, continue it, end it or are dropped, taken one by one.

ghost use Rattle.std.specs.Prelude.{◌≡◌, ◌++◌, List, false, true, Some, None, IsSome, get_or, set, option_map};
ghost use Rattle.std.specs.Prelude.{IfOk, IfErr, OnOk, OnErr};
ghost use Rattle.tc_frame.specs.Layout.{segment_view};
ghost use Rattle.map_service.specs.Assembly.{is_open};
ghost use Rattle.map_service.specs.AssemblerFields.{IsPartList, parts_of};
ghost use Rattle.map_service.specs.AssemblerTable.{take_step, hands_out, IsSureAtOnce};
ghost use Rattle.map_service.specs.Decision.{outcome_with, Fits};
ghost use Rattle.map_service.specs.Views.{packet_list};

use super::{Assembler, Change, begun, joined, lay, list_for, part_on, put_on};
use crate::decision::{Action, Decision, decide};
use crate::dropped::Dropped;
use crate::fault::MapFault;
use crate::limits::Limits;
use crate::packets::fault_of_one;
use std::alloc::Global;
use tc_frame::Segment;

/// What an assembler returns for a segment whose own octets contain no packet to deliver.
#[derive(Drop)]
pub struct TakenPart {
    /// What was dropped, if anything: the later of two.
    pub dropped: Option<Dropped>,
    /// The octets of the packet whose part the segment ended.
    pub packet: Option<Vec<u8>>,
}

impl Assembler {
    ghost use Rattle.tc_frame.specs.Layout.{SegmentView};
    ghost use Rattle.map_service.specs.Exactness.{step_at, after_step, HasPartsOf, IsTakenExactly};

    /// Takes a segment for which `hands_out` is false, as `take` does. It completes at most one packet, whose
    /// part it ends. On a fault the assembler is unchanged.
    /// Faults: 3 Memory. Memory: yes; none where the segment is dropped at once, or continues a part.
    /// Cost: n and the open part.
    #[inline(always)]
    pub fn take_part(&mut self, segment: &Segment) -> Result<TakenPart, MapFault>
        requires { hands_out self.old.limits (segment_view segment.now) ≡ false }
        ensures dropped { IfOk result
            (λ t. t.dropped ≡ (step_at self.old (segment_view segment.now)).dropped) }
        ensures packet { IfOk result
            (λ t. packet_list t.packet ≡ (step_at self.old (segment_view segment.now)).packets) }
        ensures state { OnOk result (self.new ≡ after_step self.old (segment_view segment.now)) }
        ensures memory { OnErr result (self.new ≡ self.old) }
        ensures fault { IfErr result (λ e. e ≡ MapFault.Memory) }
        ensures none { IsSureAtOnce (step_at self.old (segment_view segment.now)) result }

        // Exact assembly, whichever segments came before.
        ensures exact { IfOk result (λ t. (segments : List SegmentView)
            → HasPartsOf self.old segments
            → IsTakenExactly
            self.new segments (segment_view segment.now) (packet_list t.packet)) }
    {
        let (dropped, packet) = taken(self.alloc, &self.limits, &mut self.parts, segment)?;
        Ok(TakenPart { dropped, packet })
    }
}

// What is dropped, and the packet that is whole now.
#[inline(always)]
fn taken(
    alloc: Global,
    limits: &Limits,
    parts: &mut Vec<Option<Vec<u8>>>,
    segment: &Segment,
) -> Result<(Option<Dropped>, Option<Vec<u8>>), MapFault>
    requires kept { IsPartList limits.now parts.old.items }
    requires part { hands_out limits.now (segment_view segment.now) ≡ false }
    ensures kept { IsPartList limits.now parts.new.items }
    ensures dropped { IfOk result (λ t. t.0 ≡ (take_step limits.now
        (get_or (parts_of parts.old.items) segment.now.header.map None) (segment_view segment.now)).dropped) }
    ensures packet { IfOk result (λ t. packet_list t.1 ≡ (take_step limits.now
        (get_or (parts_of parts.old.items) segment.now.header.map None) (segment_view segment.now)).packets) }
    ensures parts { OnOk result (parts_of parts.new.items ≡ set (parts_of parts.old.items) segment.now.header.map
        (take_step limits.now
        (get_or (parts_of parts.old.items) segment.now.header.map None) (segment_view segment.now)).part) }
    ensures same { OnErr result (parts_of parts.new.items ≡ parts_of parts.old.items) }
    ensures fault { IfErr result (λ e. e ≡ MapFault.Memory) }
    ensures none { IsSureAtOnce (take_step limits.now
        (get_or (parts_of parts.old.items) segment.now.header.map None) (segment_view segment.now)) result }
{
    let map = segment.header.map;
    if !limits.is_open(map) {
        return Ok((Some(Dropped::ClosedMap), None));
    }
    let octets = segment.payload;
    let Decision { action, dropped } = decide(
        limits,
        segment.header.flags,
        part_on(parts, map),
        octets,
    );
    match action {
        Action::Close => close(limits, parts, map, octets),
        Action::HandOut => unreachable!(),
        Action::Begin => begin(alloc, limits, parts, map, octets)?,
        Action::Add => add(limits, parts, map, octets),
        Action::End => return end(alloc, limits, parts, map, octets),
    }
    Ok((dropped, None))
}

// No part is open on the MAP afterwards.
#[inline(always)]
fn close(limits: &Limits, parts: &mut Vec<Option<Vec<u8>>>, map: u8, octets: &[u8])
    requires open { is_open limits.now map ≡ true }
    requires kept { IsPartList limits.now parts.old.items }
    ensures kept { IsPartList limits.now parts.new.items }
    ensures parts { parts_of parts.new.items ≡ set (parts_of parts.old.items) map None }
{
    put_on(limits, parts, map, Change::Closed, octets);
}

// These octets become the open part on the MAP.
#[inline(always)]
fn begin(
    alloc: Global,
    limits: &Limits,
    parts: &mut Vec<Option<Vec<u8>>>,
    map: u8,
    octets: &[u8],
) -> Result<(), MapFault>
    requires open { is_open limits.now map ≡ true }
    requires kept { IsPartList limits.now parts.old.items }
    ensures kept { IsPartList limits.now parts.new.items }
    ensures parts { OnOk result (parts_of parts.new.items ≡ set (parts_of parts.old.items) map (Some octets.now)) }
    ensures same { OnErr result (parts_of parts.new.items ≡ parts_of parts.old.items) }
    ensures fault { IfErr result (λ e. e ≡ MapFault.Memory) }
{
    let Ok(list) = list_for(alloc, limits, !parts.is_empty()) else {
        return Err(MapFault::Memory);
    };
    let Ok(part) = begun(alloc, limits, &mut None, octets) else {
        return Err(MapFault::Memory);
    };
    lay(limits, parts, list);
    put_on(limits, parts, map, Change::Opened(part), octets);
    Ok(())
}

// These octets are added to the open part on the MAP.
#[inline(always)]
fn add(limits: &Limits, parts: &mut Vec<Option<Vec<u8>>>, map: u8, octets: &[u8])
    requires open { is_open limits.now map ≡ true }
    requires kept { IsPartList limits.now parts.old.items }
    requires fits { Fits limits.now.max_packet Action.Add (get_or (parts_of parts.old.items) map None) octets.now }
    ensures kept { IsPartList limits.now parts.new.items }
    ensures parts { parts_of parts.new.items ≡ set (parts_of parts.old.items) map
        (option_map (λ begun. begun ++ octets.now) (get_or (parts_of parts.old.items) map None)) }
{
    put_on(limits, parts, map, Change::Grown, octets);
}

// These octets end the open part on the MAP. The answer is what is dropped, or the packet that the part and
// the octets form.
#[inline(always)]
fn end(
    alloc: Global,
    limits: &Limits,
    parts: &mut Vec<Option<Vec<u8>>>,
    map: u8,
    octets: &[u8],
) -> Result<(Option<Dropped>, Option<Vec<u8>>), MapFault>
    requires open { is_open limits.now map ≡ true }
    requires kept { IsPartList limits.now parts.old.items }
    requires begun { IsSome (get_or (parts_of parts.old.items) map None) }
    ensures kept { IsPartList limits.now parts.new.items }
    ensures dropped { IfOk result (λ t. t.0 ≡ (outcome_with limits.now
        Action.End None (get_or (parts_of parts.old.items) map None) octets.now).dropped) }
    ensures packet { IfOk result (λ t. packet_list t.1 ≡ (outcome_with limits.now
        Action.End None (get_or (parts_of parts.old.items) map None) octets.now).packets) }
    ensures parts { OnOk result (parts_of parts.new.items ≡ set (parts_of parts.old.items) map (outcome_with limits.now
        Action.End None (get_or (parts_of parts.old.items) map None) octets.now).part) }
    ensures same { OnErr result (parts_of parts.new.items ≡ parts_of parts.old.items) }
    ensures fault { IfErr result (λ e. e ≡ MapFault.Memory) }
{
    let Some(begun) = part_on(parts, map) else {
        unreachable!()
    };
    let Ok(packet) = joined(alloc, begun, octets) else {
        return Err(MapFault::Memory);
    };
    close(limits, parts, map, octets);
    match fault_of_one(limits, &packet) {
        None => Ok((None, Some(packet))),
        dropped => Ok((dropped, None)),
    }
}
