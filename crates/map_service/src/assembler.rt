// Joins segments into packets.

ghost use Rattle.std.specs.Prelude.{◌≡◌, ◌≤◌, ◌++◌, [], ◌∷◌, List, length, true, false, Some, None, IsSome, option_map, option_copied, get_or, set};
ghost use Rattle.std.specs.Prelude.{IfSome, IsOk, IfOk, IfErr, OnOk, OnErr, if◌then◌else◌};
ghost use Rattle.std.specs.Vec.{vec_capacity};
ghost use Rattle.tc_frame.specs.Layout.{segment_view};
ghost use Rattle.map_service.specs.Assembly.{is_open, is_too_long};
ghost use Rattle.map_service.specs.AssemblerFields.{HasLongest, HasPlaces, IsPartList, IsNewList, parts_of};
ghost use Rattle.map_service.specs.Prepared.{outcome_of, part_after, is_opened, HasRoom, AreClosed, IsFoundBy};
ghost use Rattle.map_service.specs.AssemblerTable.{packets_outcome, one_fault, take_step, lone_packet_cell, hands_out, hands_out_cell, IsSureAtOnce};
ghost use Rattle.map_service.specs.Packets.{packets_in};
ghost use Rattle.map_service.specs.Views.{part_view, packets_view, ready_view};

mod part;

use crate::decision::{Action, Decision, decide, interruption};
use crate::dropped::Dropped;
use crate::fault::MapFault;
use crate::limits::Limits;
use crate::packets::{copied_packets, fault_of_alone, fault_of_one};
pub use part::TakenPart;
use smallvec::SmallVec;
use std::alloc::{AllocError, Global};
use std::marker::Model;
use tc_frame::{Segment, SegmentFlags};

/// What an assembler returns for a segment.
#[derive(Drop)]
pub struct Taken {
    /// What was dropped, if anything: the later of two.
    pub dropped: Option<Dropped>,
    /// The packets that are whole now, in order, each as its octets.
    pub packets: Vec<Vec<u8>>,
}

/// What an assembler returns for a segment, as `Taken`.
#[derive(Drop)]
pub struct TakenInline {
    /// What was dropped, if anything: the later of two.
    pub dropped: Option<Dropped>,
    /// The packets that are whole now, in order, each as its octets. A list of one takes no memory
    /// of its own.
    pub packets: SmallVec<Vec<u8>, 1>,
}

// What happens to the open part on the segment's MAP.
#[derive(Drop)]
enum Change {
    // It is unchanged.
    Same,
    // No part is open.
    Closed,
    // This part is open, with room for the longest packet.
    Opened(Vec<u8>),
    // The segment's data are added to it.
    Grown,
}

/// The outcome of a segment, with all the memory that it needs. `Assembler::prepare` creates it, and
/// `Assembler::commit` carries it out.
#[derive(Drop)]
pub struct Prepared {
    /// What is dropped, if anything: the later of two.
    pub dropped: Option<Dropped>,
    /// The packets that are whole afterwards, in order, each as its octets. A list of one takes no memory of
    /// its own.
    pub packets: SmallVec<Vec<u8>, 1>,
    change: Change,
    // a new list of the parts, if one is needed; otherwise empty
    list: Vec<Option<Vec<u8>>>,
}

/// Joins the segments of each MAP into packets (CCSDS 232.0-B-4, 4.1.3.2.2). It keeps the open part of each
/// MAP: the data of a first segment and of the continuing ones since. Contracts see its limits and these
/// parts.
#[derive(Drop)]
pub struct Assembler {
    alloc: Global,
    limits: Limits,
    // a place for each MAP up to the highest open MAP, once a part has been opened
    parts: Vec<Option<Vec<u8>>>,
    // the buffer of a closed part, for the next part that is opened
    spare: Option<Vec<u8>>,
}

impl Model for Assembler {
    ghost use Rattle.map_service.specs.Exactness.{AssemblerState};

    ghost Value = { AssemblerState };

    ghost use Rattle.map_service.specs.AssemblerFields.{state_of, IsSound};

    ghost view = { state_of };

    ghost invariant = { IsSound };
}

impl Assembler {
    ghost use Rattle.std.specs.Prelude.{IsSome, replicate};
    ghost use Rattle.tc_frame.specs.Layout.{SegmentView};
    ghost use Rattle.map_service.specs.Exactness.{AssemblerState, lone_packet, part_on_map, step_at, after_step};
    ghost use Rattle.map_service.specs.Exactness.{HasPartsOf, IsTakenExactly};
    ghost use Rattle.map_service.specs.Prepared.{IsPrepared};
    ghost use Rattle.map_service.specs.AssemblerTable.{packet_outcome};

    /// Returns an assembler with no open part. It takes no memory.
    #[tactic(auto, using(crate::proofs::AssemblerSteps::no_parts))]
    pub fn new(alloc: Global, limits: Limits) -> Assembler
        ensures limits { result.limits ≡ limits }
        ensures parts { result.parts ≡ replicate 64 None }

        // So it keeps the parts of an empty list of segments.
        ensures begun { HasPartsOf result [] }
    {
        Assembler {
            alloc,
            limits,
            parts: Vec::new(alloc),
            spare: None,
        }
    }

    /// Takes the next segment, and returns what was dropped and the packets that are now whole. It does what
    /// `prepare` and then `commit` do, except that a first segment opens its part in the buffer of a closed
    /// one, if there is any. On a fault the assembler is unchanged.
    /// Faults: 3 Memory. Memory: yes; none where the segment is dropped at once. Cost: n*, and the
    /// packets handed out.
    pub fn take(&mut self, segment: &Segment) -> Result<Taken, MapFault>
        // The table, cell by cell.
        ensures dropped { IfOk result
            (λ t. t.dropped ≡ (step_at self.old (segment_view segment.now)).dropped) }
        ensures packets { IfOk result
            (λ t. packets_view t.packets ≡ (step_at self.old (segment_view segment.now)).packets) }
        ensures state { OnOk result (self.new ≡ after_step self.old (segment_view segment.now)) }
        ensures memory { OnErr result (self.new ≡ self.old) }
        ensures fault { IfErr result (λ e. e ≡ MapFault.Memory) }

        // It takes no memory for a segment that is dropped with `ClosedMap`, `NoBeginning` or `TooLong`.
        ensures none { IsSureAtOnce (step_at self.old (segment_view segment.now)) result }

        // Exact assembly, whichever segments came before.
        ensures exact { IfOk result (λ t. (segments : List SegmentView)
            → HasPartsOf self.old segments
            → IsTakenExactly
            self.new segments (segment_view segment.now) (packets_view t.packets)) }
    {
        let Prepared {
            dropped,
            packets,
            change,
            list,
        } = self.prepare_with_spare(segment)?;
        let packets = listed(self.alloc, packets)?;
        let closed = self.put(segment, change, list);
        self.keep(closed);
        Ok(Taken { dropped, packets })
    }

    /// Takes the next segment as `take` does. A list of one packet takes no memory of its own.
    /// Faults: 3 Memory. Memory: yes; none where the segment is dropped at once. Cost: n*, and the
    /// packets handed out.
    #[inline(always)]
    pub fn take_inline(&mut self, segment: &Segment) -> Result<TakenInline, MapFault>
        ensures dropped { IfOk result
            (λ t. t.dropped ≡ (step_at self.old (segment_view segment.now)).dropped) }
        ensures packets { IfOk result
            (λ t. ready_view t.packets ≡ (step_at self.old (segment_view segment.now)).packets) }
        ensures state { OnOk result (self.new ≡ after_step self.old (segment_view segment.now)) }
        ensures memory { OnErr result (self.new ≡ self.old) }
        ensures fault { IfErr result (λ e. e ≡ MapFault.Memory) }
        ensures none { IsSureAtOnce (step_at self.old (segment_view segment.now)) result }
    {
        let is_listed = !self.parts.is_empty();
        let Prepared {
            dropped,
            packets,
            change,
            list,
        } = found(
            self.alloc,
            &self.limits,
            &self.parts,
            is_listed,
            &mut self.spare,
            segment,
        )?;
        let closed = put_all(&self.limits, &mut self.parts, segment, change, list);
        self.keep(closed);
        Ok(TakenInline { dropped, packets })
    }

    /// Determines the outcome of the next segment, and allocates the memory that it needs. The assembler does
    /// not change.
    ///
    /// A segment flagged alone is judged as a whole. A first one opens a part, a continuing one is added to
    /// the part, and a last one is added before the whole part is judged. Octets that are judged are
    /// delivered if they are exactly one packet of at most `max_packet` octets. With blocking, a segment
    /// flagged alone may contain several such packets, one after another. Otherwise the octets are dropped
    /// with `NotAPacket` or `TooLong`. A part that exceeds `max_packet` octets is dropped with `TooLong` too.
    /// A first segment, or one flagged alone, drops an open part with `Interrupted`. A continuing or last
    /// segment with no open part is dropped with `NoBeginning`. A segment of a closed MAP is dropped with
    /// `ClosedMap`, and changes nothing. If there are two causes, the later is reported.
    /// Faults: 3 Memory. Memory: yes; none where the segment is dropped at once, or continues a part.
    /// Cost: n and the open part.
    pub fn prepare(&self, segment: &Segment) -> Result<Prepared, MapFault>
        ensures prepared { IfOk result (IsPrepared self.now (segment_view segment.now)) }
        ensures fault { IfErr result (λ e. e ≡ MapFault.Memory) }
        ensures none { IsSureAtOnce (step_at self.now (segment_view segment.now)) result }
    {
        let is_listed = is_some_open(&self.parts);
        found(
            self.alloc,
            &self.limits,
            &self.parts,
            is_listed,
            &mut None,
            segment,
        )
    }

    // The same, with the spare buffer.
    #[inline(always)]
    fn prepare_with_spare(&mut self, segment: &Segment) -> Result<Prepared, MapFault>
        ensures state { self.new ≡ self.old }
        ensures prepared { IfOk result (IsPrepared self.old (segment_view segment.now)) }
        ensures fault { IfErr result (λ e. e ≡ MapFault.Memory) }
        ensures none { IsSureAtOnce (step_at self.old (segment_view segment.now)) result }
    {
        let is_listed = is_some_open(&self.parts);
        found(
            self.alloc,
            &self.limits,
            &self.parts,
            is_listed,
            &mut self.spare,
            segment,
        )
    }

    /// Takes the segment for which this was prepared, and returns the packets that are now whole. Nothing may
    /// have changed since `prepare`.
    /// Cost: n.
    pub fn commit(&mut self, segment: &Segment, prepared: Prepared) -> SmallVec<Vec<u8>, 1>
        requires { IsPrepared self.old (segment_view segment.now) prepared }
        ensures packets { ready_view result
            ≡ (step_at self.old (segment_view segment.now)).packets }
        ensures state { self.new ≡ after_step self.old (segment_view segment.now) }

        // Exact assembly, whichever segments came before.
        ensures exact { (segments : List SegmentView) → HasPartsOf self.old segments
            → IsTakenExactly
            self.new segments (segment_view segment.now) (ready_view result) }
    {
        self.put(segment, prepared.change, prepared.list);
        prepared.packets
    }

    /// Returns the packet that a segment flagged alone forms, in the segment's own octets, if `take` would
    /// deliver just this packet, drop nothing and change nothing. The segment then need not be taken. This is
    /// the case if its MAP is open with no open part, there is no blocking, and its data are exactly one
    /// packet of at most `max_packet` octets. Returns `None` for any other segment.
    /// Cost: n.
    pub fn lone_packet<'a>(&self, segment: &Segment<'a>) -> Option<&'a [u8]>
        ensures packet { option_map (λ octets. octets.now) result
            ≡ lone_packet self.now (segment_view segment.now) }
        ensures outcome { IfSome result
            (λ octets. step_at self.now (segment_view segment.now) ≡ packet_outcome octets.now) }
        ensures state { IsSome result → after_step self.now (segment_view segment.now) ≡ self.now }
    {
        let map = segment.header.map;
        if self.limits.blocking || !self.limits.is_open(map) {
            return None;
        }
        if !is_lone_packet(&self.limits, part_on(&self.parts, map), segment) {
            return None;
        }
        Some(segment.payload)
    }

    /// Returns whether this is a segment flagged alone whose packets are delivered: its MAP is open, and its
    /// data are exactly one packet of at most `max_packet` octets, or with blocking one or more. The packets
    /// may then be copied from the segment's own octets, and `take_alone` takes the segment with no memory.
    /// Cost: n.
    pub fn hands_out(&self, segment: &Segment) -> bool
        ensures alone { result ≡ hands_out self.now.limits (segment_view segment.now) }
        ensures packets { result ≡ true → (step_at self.now (segment_view segment.now)).packets
            ≡ packets_in segment.now.payload.now }
    {
        let header = segment.header;
        self.limits.is_open(header.map) && hands_out(&self.limits, header.flags, segment.payload)
    }

    /// Takes a segment flagged alone whose packets are delivered, as `take` does, and returns what was
    /// dropped. The caller copies the packets from the segment's octets.
    pub fn take_alone(&mut self, segment: &Segment) -> Option<Dropped>
        requires { hands_out self.old.limits (segment_view segment.now) ≡ true }
        ensures dropped { result ≡ (step_at self.old (segment_view segment.now)).dropped }
        ensures state { self.new ≡ after_step self.old (segment_view segment.now) }

        // Exact assembly, whichever segments came before.
        ensures exact { (segments : List SegmentView) → HasPartsOf self.old segments
            → IsTakenExactly
            self.new segments (segment_view segment.now) (packets_in segment.now.payload.now) }
    {
        let dropped = interruption(part_on(&self.parts, segment.header.map));
        self.put(segment, Change::Closed, Vec::new(self.alloc));
        dropped
    }

    // Keeps the buffer of a closed part, if there is any.
    #[inline(always)]
    fn keep(&mut self, closed: Option<Vec<u8>>)
        requires { HasLongest self.old.limits.max_packet closed }
        ensures { self.new ≡ self.old }
    {
        if closed.is_some() {
            self.spare = closed;
        }
    }

    // Changes the open part on the segment's MAP, if this MAP is open, and returns the buffer of a part that
    // is closed.
    #[inline(always)]
    fn put(
        &mut self,
        segment: &Segment,
        change: Change,
        list: Vec<Option<Vec<u8>>>,
    ) -> Option<Vec<u8>>
        requires part { part_after
            change (part_on_map self.old segment.now.header.map) segment.now.payload.now
            ≡ (step_at self.old (segment_view segment.now)).part }
        requires room { HasRoom self.old.limits.max_packet
            change (part_on_map self.old segment.now.header.map) segment.now.payload.now }
        requires brought { is_opened change ≡ true → AreClosed (part_on_map self.old)
            → HasPlaces self.old.limits (length list.items) }
        requires list { IsNewList self.old.limits list.items }
        ensures state { self.new ≡ after_step self.old (segment_view segment.now) }
        ensures maps { length self.old.parts ≡ 64 }
        ensures closed { HasLongest self.old.limits.max_packet result }
    {
        put_all(&self.limits, &mut self.parts, segment, change, list)
    }
}

// The open part on a MAP.
#[inline(always)]
fn part_on<'a>(parts: &'a [Option<Vec<u8>>], map: u8) -> Option<&'a [u8]>
    ensures { option_copied result ≡ get_or (parts_of parts.now) map None }
{
    match parts.get(usize::from(map)) {
        Some(Some(part)) => Some(part),
        _ => None,
    }
}

// Whether a part is open on some MAP.
fn is_some_open(parts: &[Option<Vec<u8>>]) -> bool
    ensures { AreClosed (λ m. get_or (parts_of parts.now) m None) → result ≡ false }
{
    for place in 0..parts.len() {
        if parts[place].is_some() {
            return true;
        }
    }
    false
}

// The number of MAPs up to the highest open MAP.
fn places(limits: &Limits) -> usize
    ensures most { result ≤ 64 }
    ensures places { HasPlaces limits.now result }
{
    64 - limits.maps.leading_zeros() as usize
}

// A list of the parts of the MAPs up to the highest open MAP, with no part open.
fn new_list(alloc: Global, limits: &Limits) -> Result<Vec<Option<Vec<u8>>>, AllocError>
    ensures list { IfOk result (λ parts. IsNewList limits.now parts.items) }
    ensures places { IfOk result (λ parts. HasPlaces limits.now (length parts.items)) }
{
    let places = places(limits);
    let mut parts = Vec::with_capacity(alloc, places)?;
    parts.resize_with(places, || None)?;
    Ok(parts)
}

// A list of the parts, if there is none.
#[inline(always)]
fn list_for(
    alloc: Global,
    limits: &Limits,
    is_listed: bool,
) -> Result<Vec<Option<Vec<u8>>>, AllocError>
    ensures brought { IfOk result
        (λ list. is_listed ≡ false → HasPlaces limits.now (length list.items)) }
    ensures list { IfOk result (λ list. IsNewList limits.now list.items) }
{
    if is_listed {
        return Ok(Vec::new(alloc));
    }
    new_list(alloc, limits)
}

// Keeps the new list of the parts, if there is none.
#[inline(always)]
fn lay(limits: &Limits, parts: &mut Vec<Option<Vec<u8>>>, list: Vec<Option<Vec<u8>>>)
    requires kept { IsPartList limits.now parts.old.items }
    requires list { IsNewList limits.now list.items }
    ensures kept { IsPartList limits.now parts.new.items }
    ensures same { parts_of parts.new.items ≡ parts_of parts.old.items }
    ensures laid { length parts.old.items ≡ 0 → parts.new.items ≡ list.items }
    ensures there { 1 ≤ length parts.old.items → parts.new.items ≡ parts.old.items }
{
    if parts.is_empty() {
        *parts = list;
    }
}

// Changes the open part on the segment's MAP, if this MAP is open, and returns the buffer of a part that is
// closed.
#[inline(always)]
fn put_all(
    limits: &Limits,
    parts: &mut Vec<Option<Vec<u8>>>,
    segment: &Segment,
    change: Change,
    list: Vec<Option<Vec<u8>>>,
) -> Option<Vec<u8>>
    requires kept { IsPartList limits.now parts.old.items }
    requires room { HasRoom limits.now.max_packet change
        (get_or (parts_of parts.old.items) segment.now.header.map None) segment.now.payload.now }
    requires brought { is_opened change ≡ true → length parts.old.items ≡ 0
        → HasPlaces limits.now (length list.items) }
    requires list { IsNewList limits.now list.items }
    ensures kept { IsPartList limits.now parts.new.items }
    ensures parts { is_open limits.now segment.now.header.map ≡ true → parts_of parts.new.items
        ≡ set (parts_of parts.old.items) segment.now.header.map (part_after change
        (get_or (parts_of parts.old.items) segment.now.header.map None) segment.now.payload.now) }
    ensures other { is_open limits.now segment.now.header.map ≡ false
        → parts.new.items ≡ parts.old.items }
    ensures closed { HasLongest limits.now.max_packet result }
{
    let map = segment.header.map;
    if !limits.is_open(map) {
        return None;
    }
    lay(limits, parts, list);
    put_on(limits, parts, map, change, segment.payload)
}

// Changes the open part on a MAP, and returns the buffer of a part that is closed.
#[inline(always)]
fn put_on(
    limits: &Limits,
    parts: &mut Vec<Option<Vec<u8>>>,
    map: u8,
    change: Change,
    octets: &[u8],
) -> Option<Vec<u8>>
    requires open { is_open limits.now map ≡ true }
    requires kept { IsPartList limits.now parts.old.items }
    requires room { HasRoom limits.now.max_packet
        change (get_or (parts_of parts.old.items) map None) octets.now }
    requires listed { is_opened change ≡ true → 1 ≤ length parts.old.items }
    ensures kept { IsPartList limits.now parts.new.items }
    ensures parts { parts_of parts.new.items ≡ set (parts_of parts.old.items) map (part_after
        change (get_or (parts_of parts.old.items) map None) octets.now) }
    ensures closed { HasLongest limits.now.max_packet result }
{
    let place = usize::from(map);
    if place >= parts.len() {
        return None;
    }
    put(limits, &mut parts[place], change, octets)
}

// Changes the part, and returns the buffer of a part that is closed.
#[inline(always)]
fn put(
    limits: &Limits,
    part: &mut Option<Vec<u8>>,
    change: Change,
    octets: &[u8],
) -> Option<Vec<u8>>
    requires room { HasLongest limits.now.max_packet part.old }
    requires fits { HasRoom limits.now.max_packet change (part_view part.old) octets.now }
    ensures part { part_view part.new ≡ part_after change (part_view part.old) octets.now }
    ensures room { HasLongest limits.now.max_packet part.new }
    ensures closed { HasLongest limits.now.max_packet result }
{
    match change {
        Change::Same => None,
        Change::Closed => part.take(),
        Change::Opened(new) => part.replace(new),
        Change::Grown => {
            if let Some(begun) = part {
                let _ = begun.extend_from_slice(octets);
            }
            None
        }
    }
}

// The same packets. An empty list takes no memory.
fn listed(alloc: Global, packets: SmallVec<Vec<u8>, 1>) -> Result<Vec<Vec<u8>>, MapFault>
    ensures packets { IfOk result (λ v. packets_view v ≡ ready_view packets) }
    ensures fault { IfErr result (λ e. e ≡ MapFault.Memory) }
    ensures none { ready_view packets ≡ [] → IsOk result }
{
    if packets.is_empty() {
        return Ok(Vec::new(alloc));
    }
    let Ok(list) = packets.into_vec() else {
        return Err(MapFault::Memory);
    };
    Ok(list)
}

// No packet is delivered.
#[inline(always)]
fn no_packets(alloc: Global, dropped: Option<Dropped>, change: Change) -> Prepared
    ensures dropped { result.dropped ≡ dropped }
    ensures packets { ready_view result.packets ≡ [] }
    ensures change { result.change ≡ change }
    ensures list { result.list.items ≡ [] }
{
    Prepared {
        dropped,
        packets: SmallVec::new(alloc),
        change,
        list: Vec::new(alloc),
    }
}

// Room for the longest packet: the spare buffer, if there is any.
#[inline(always)]
fn longest(
    alloc: Global,
    limits: &Limits,
    spare: &mut Option<Vec<u8>>,
) -> Result<Vec<u8>, AllocError>
    requires { HasLongest limits.now.max_packet spare.old }
    ensures octets { IfOk result (λ part. part.items ≡ []) }
    ensures room { IfOk result (λ part. limits.now.max_packet ≤ vec_capacity part) }
    ensures spare { HasLongest limits.now.max_packet spare.new }
{
    if let Some(mut room) = spare.take() {
        room.clear();
        return Ok(room);
    }
    Vec::with_capacity(alloc, limits.max_packet as usize)
}

// The part that a first segment opens, with room for the longest packet.
#[inline(always)]
fn begun(
    alloc: Global,
    limits: &Limits,
    spare: &mut Option<Vec<u8>>,
    octets: &[u8],
) -> Result<Vec<u8>, AllocError>
    requires { HasLongest limits.now.max_packet spare.old }
    ensures octets { IfOk result (λ part. part.items ≡ octets.now) }
    ensures room { IfOk result (λ part. limits.now.max_packet ≤ vec_capacity part) }
    ensures spare { HasLongest limits.now.max_packet spare.new }
{
    let mut part = longest(alloc, limits, spare)?;
    part.extend_from_slice(octets)?;
    Ok(part)
}

// A part followed by the data of the last segment.
#[inline(always)]
fn joined(alloc: Global, part: &[u8], octets: &[u8]) -> Result<Vec<u8>, AllocError>
    ensures { IfOk result (λ v. v.items ≡ part.now ++ octets.now) }
{
    let mut joined = Vec::with_capacity(alloc, part.len() + octets.len())?;
    let _ = joined.extend_from_slice(part);
    let _ = joined.extend_from_slice(octets);
    Ok(joined)
}

// A part that a last segment ends, judged as a whole.
#[inline(always)]
fn ended(alloc: Global, limits: &Limits, part: &[u8], octets: &[u8]) -> Result<Prepared, MapFault>
    ensures outcome { IfOk result (λ p. outcome_of p (Some part.now) octets.now
        ≡ packets_outcome None ((part.now ++ octets.now) ∷ [])
        (one_fault limits.now (part.now ++ octets.now))) }
    ensures change { IfOk result (λ p. p.change ≡ Change.Closed) }
    ensures list { IfOk result (λ p. p.list.items ≡ []) }
    ensures fault { IfErr result (λ e. e ≡ MapFault.Memory) }
{
    let Ok(joined) = joined(alloc, part, octets) else {
        return Err(MapFault::Memory);
    };
    let dropped = fault_of_one(limits, &joined);
    let mut packets = SmallVec::new(alloc);
    if dropped.is_none() {
        packets.push_reserved(joined);
    }
    Ok(Prepared {
        dropped,
        packets,
        change: Change::Closed,
        list: Vec::new(alloc),
    })
}

// The outcome of a segment. A part is opened in the spare buffer, if there is any, and brings a list of the
// parts, unless there is one.
#[inline(always)]
fn found(
    alloc: Global,
    limits: &Limits,
    parts: &[Option<Vec<u8>>],
    is_listed: bool,
    spare: &mut Option<Vec<u8>>,
    segment: &Segment,
) -> Result<Prepared, MapFault>
    requires { HasLongest limits.now.max_packet spare.old }
    ensures spare { HasLongest limits.now.max_packet spare.new }
    ensures found { IfOk result (IsFoundBy limits.now
        (get_or (parts_of parts.now) segment.now.header.map None) (is_listed ≡ false) (segment_view segment.now)) }
    ensures fault { IfErr result (λ e. e ≡ MapFault.Memory) }
    ensures none { IsSureAtOnce (take_step limits.now
        (get_or (parts_of parts.now) segment.now.header.map None) (segment_view segment.now)) result }
{
    let map = segment.header.map;
    if !limits.is_open(map) {
        return Ok(no_packets(alloc, Some(Dropped::ClosedMap), Change::Same));
    }
    prepared_cell(
        alloc,
        limits,
        part_on(parts, map),
        is_listed,
        spare,
        segment,
    )
}

// The outcome of a segment of an open MAP.
#[inline(always)]
fn prepared_cell(
    alloc: Global,
    limits: &Limits,
    part: Option<&[u8]>,
    is_listed: bool,
    spare: &mut Option<Vec<u8>>,
    segment: &Segment,
) -> Result<Prepared, MapFault>
    requires open { is_open limits.now segment.now.header.map ≡ true }
    requires spare { HasLongest limits.now.max_packet spare.old }
    ensures spare { HasLongest limits.now.max_packet spare.new }
    ensures found { IfOk result
        (IsFoundBy limits.now
        (option_copied part.entry) (is_listed ≡ false) (segment_view segment.now)) }
    ensures fault { IfErr result (λ e. e ≡ MapFault.Memory) }
    ensures none { IsSureAtOnce
        (take_step limits.now (option_copied part.entry) (segment_view segment.now)) result }
{
    let octets = segment.payload;
    let Decision { action, dropped } = decide(limits, segment.header.flags, part, octets);
    match action {
        Action::Close => Ok(no_packets(alloc, dropped, Change::Closed)),
        Action::HandOut => {
            let Ok(packets) = copied_packets(alloc, limits, octets) else {
                return Err(MapFault::Memory);
            };
            Ok(Prepared {
                dropped,
                packets,
                change: Change::Closed,
                list: Vec::new(alloc),
            })
        }
        Action::Begin => {
            let Ok(list) = list_for(alloc, limits, is_listed) else {
                return Err(MapFault::Memory);
            };
            let Ok(part) = begun(alloc, limits, spare, octets) else {
                return Err(MapFault::Memory);
            };
            Ok(Prepared {
                dropped,
                packets: SmallVec::new(alloc),
                change: Change::Opened(part),
                list,
            })
        }
        Action::Add => Ok(no_packets(alloc, dropped, Change::Grown)),
        Action::End => {
            let Some(begun) = part else { unreachable!() };
            ended(alloc, limits, begun, octets)
        }
    }
}

// Whether the packets in a segment of an open MAP are delivered from the segment itself.
fn hands_out(limits: &Limits, flags: SegmentFlags, octets: &[u8]) -> bool
    ensures { result ≡ hands_out_cell limits.now flags octets.now }
{
    match flags {
        SegmentFlags::Alone => fault_of_alone(limits, octets).is_none(),
        _ => false,
    }
}

// Whether a segment of an open MAP is one packet, and no part is open.
fn is_lone_packet(limits: &Limits, part: Option<&[u8]>, segment: &Segment) -> bool
    ensures { lone_packet_cell
        limits.now segment.now.header.flags (option_copied part.entry) segment.now.payload.now
        ≡ if result then Some segment.now.payload.now else None }
{
    match (segment.header.flags, part) {
        (SegmentFlags::Alone, None) => fault_of_one(limits, segment.payload).is_none(),
        _ => false,
    }
}
