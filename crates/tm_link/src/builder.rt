// Building frames from a stream of packets.

ghost use Rattle.std.specs.Prelude.{◌≡◌, ◌≤◌, ◌<◌, ◌^◌, ◌++◌, ◌↔◌, ℕ, List, [], ◌∷◌, length, take, drop, IsTrue, IsOk, IfOk, IfErr, OnOk, OnErr};
ghost use Rattle.tm_link.specs.Builder.{new_builder, builder_with_counts, builder_fits, after_queue, queue_fault, is_to_send, is_at_rest, first_start, idle_after, after_send, after_fill, with_next_count, build_step, state_with};
ghost use Rattle.tm_link.specs.Layout.{FrameView, IsTmFrame};
ghost use Rattle.tm_link.specs.Builder.{IsLaidOutBy};
ghost use Rattle.tm_link.specs.Encoding.{spelling};

use crate::data_field::pass;
use crate::ending::is_idle_with;
use crate::fault::TmFault;
use crate::frame::Pointer;
use crate::turn::{Turn, put_next};
use octets::remove_front;
use space_packet::is_packet;
use std::alloc::Global;
use std::collections::VecDeque;
use std::marker::Model;

/// Builds the frames of one virtual channel, all of one length (CCSDS 132.0-B-3, 4.2). The queued
/// packets follow one another in the frames' data fields. If they run out within a frame, an idle
/// packet is placed, which may continue in the next frame. If nothing is to be sent, a frame
/// contains only idle data. Only `queue` takes memory.
#[derive(Drop)]
pub struct TmBuilder {
    scid: u16,
    vcid: u8,
    total: usize,
    mc_count: u8,
    vc_count: u8,
    idle_left: usize,
    // octets of packets; those before `start` were sent
    octets: Vec<u8>,
    start: usize,
    begun: u32,
    sizes: VecDeque<u32>,
}

impl Model for TmBuilder {
    ghost use Rattle.tm_link.specs.Builder.{BuilderState};

    ghost Value = { BuilderState };

    ghost use Rattle.tm_link.specs.BuilderFields.{state_of, IsSound};

    ghost view = { state_of };

    ghost invariant = { IsSound };
}

impl TmBuilder {
    /// Creates a builder of frames of `length` octets, 16 to 2,048, whose counts start at 0.
    /// Refuses a spacecraft identifier of 1,024 or more, a virtual channel of 8 or more, and any
    /// other length.
    /// Faults: 10 FieldRange.
    pub fn new(alloc: Global, scid: u16, vcid: u8, length: usize) -> Result<Self, TmFault>
        ensures ok { IfOk result (λ b. b ≡ new_builder scid vcid length) }
        ensures fits { IsOk result ↔ IsTrue (builder_fits scid vcid length) }
        ensures fault { IfErr result (λ e. e ≡ TmFault.FieldRange) }

        // Nothing is laid out yet, and nothing is held.
        ensures laid { IfOk result (λ b. IsLaidOutBy b [] []) }
    {
        TmBuilder::with_counts(alloc, scid, vcid, length, 0, 0)
    }

    /// Creates a builder as `new` does, whose next frame has these counts on the master channel and
    /// on the virtual channel (CCSDS 132.0-B-3, 4.1.2.5 and 4.1.2.6). So it continues with counts
    /// that were kept.
    /// Faults: 10 FieldRange.
    pub fn with_counts(
        alloc: Global,
        scid: u16,
        vcid: u8,
        length: usize,
        mc_count: u8,
        vc_count: u8,
    ) -> Result<Self, TmFault>
        ensures ok { IfOk result
            (λ b. b ≡ builder_with_counts scid vcid length mc_count vc_count) }
        ensures fits { IsOk result ↔ IsTrue (builder_fits scid vcid length) }
        ensures fault { IfErr result (λ e. e ≡ TmFault.FieldRange) }

        // Nothing is laid out yet, and nothing is held.
        ensures laid { IfOk result (λ b. IsLaidOutBy b [] []) }
    {
        if !can_build(scid, vcid, length) {
            return Err(TmFault::FieldRange);
        }
        Ok(TmBuilder {
            scid,
            vcid,
            total: length,
            mc_count,
            vc_count,
            idle_left: 0,
            octets: Vec::new(alloc),
            start: 0,
            begun: 0,
            sizes: VecDeque::new(alloc),
        })
    }

    /// Queues the packet after those that are still to be sent (CCSDS 132.0-B-3, 4.2.2). Refuses
    /// with 8 `NotAPacket` octets that are not exactly one packet, or an idle packet, and then with
    /// 7 `Memory` if memory runs out. The builder is then as it was.
    /// Faults: 8 NotAPacket, then 7 Memory. Memory: yes. Cost: n*.
    pub fn queue(&mut self, packet: &[u8]) -> Result<(), TmFault>
        ensures ok { OnOk result (self.new ≡ after_queue self.old packet.now) }
        ensures taken { OnOk result (IsTrue (is_to_send packet.now)) }
        ensures err { OnErr result (self.new ≡ self.old) }
        ensures fault { IfErr result (λ e. e ≡ queue_fault packet.now) }

        // The packet becomes the last of the stream, and the builder holds the stream's end.
        ensures laid { OnOk result ((packets : List (List ℕ)) (frames : List FrameView)
            → IsLaidOutBy self.old packets frames
            → IsLaidOutBy self.new (packets ++ packet.now ∷ []) frames) }
    {
        if !can_queue(packet) {
            return Err(TmFault::NotAPacket);
        }
        self.drop_sent();
        if self.sizes.try_reserve(1).is_err() {
            return Err(TmFault::Memory);
        }
        if self.octets.extend_from_slice(packet).is_err() {
            return Err(TmFault::Memory);
        }
        let _ = self.sizes.push_back(packet.len() as u32);
        Ok(())
    }

    /// Writes the next frame, with this operational control field, at the beginning of `out` (CCSDS
    /// 132.0-B-3, 4.1). Returns how many octets it has, as many as every frame. The octets after it
    /// do not change.
    /// Cost: n and the number of packets that end in the frame.
    pub fn build(&mut self, ocf: [u8; 4], out: &mut [u8; 2048]) -> usize
        ensures count { result ≡ self.old.total }
        ensures frame { out.new ≡ spelling (build_step self.old ocf).0 ++ drop result out.old }
        ensures after { self.new ≡ (build_step self.old ocf).1 }

        // So `decode` reads this frame.
        ensures spells { IsTmFrame result (build_step self.old ocf).0 (take result out.new) }

        // The frame continues the stream where the frames before it ended.
        ensures laid { (packets : List (List ℕ)) (frames : List FrameView)
            → IsLaidOutBy self.old packets frames
            → IsLaidOutBy self.new packets (frames ++ (build_step self.old ocf).0 ∷ []) }
    {
        // (at most 2,048, so there is room)
        let _ = self.total();
        self.build_in(ocf, out)
    }

    /// Writes the next frame as `build` does, into an `out` that has at least as many octets as a
    /// frame.
    /// Cost: n and the number of packets that end in the frame.
    pub fn build_in(&mut self, ocf: [u8; 4], out: &mut [u8]) -> usize
        requires room { self.old.total ≤ length out.old }
        ensures count { result ≡ self.old.total }
        ensures frame { out.new ≡ spelling (build_step self.old ocf).0 ++ drop result out.old }
        ensures after { self.new ≡ (build_step self.old ocf).1 }

        // So `decode` reads this frame.
        ensures spells { IsTmFrame result (build_step self.old ocf).0 (take result out.new) }

        // The frame continues the stream where the frames before it ended.
        ensures laid { (packets : List (List ℕ)) (frames : List FrameView)
            → IsLaidOutBy self.old packets frames
            → IsLaidOutBy self.new packets (frames ++ (build_step self.old ocf).0 ∷ []) }
    {
        put_next(
            &self.turn(),
            &self.octets[self.start..],
            ocf,
            &mut out[..self.total],
        );
        self.pass();
        self.total
    }

    // Returns how many octets each frame has.
    fn total(&self) -> usize
        ensures { (result ≡ self.now.total) × (result ≤ 2048) }
    {
        self.total
    }

    /// Returns the next frame's count on the master channel (CCSDS 132.0-B-3, 4.1.2.5).
    pub fn mc_count(&self) -> u8
        ensures { result ≡ self.now.mc_count }
    {
        self.mc_count
    }

    /// Returns the next frame's count on the virtual channel (CCSDS 132.0-B-3, 4.1.2.6).
    pub fn vc_count(&self) -> u8
        ensures { result ≡ self.now.vc_count }
    {
        self.vc_count
    }

    fn turn(&self) -> Turn
        ensures state { state_with result self.now.total self.now.pending
            ≡ record self.now { sizes = [] } }
        ensures begun { result.begun < 2 ^ 63 }
    {
        Turn {
            scid: self.scid,
            vcid: self.vcid,
            mc_count: self.mc_count,
            vc_count: self.vc_count,
            idle_left: self.idle_left,
            begun: self.begun as usize,
        }
    }

    // Moves past a frame.
    fn pass(&mut self)
        ensures { self.new ≡ with_next_count (after_fill self.old) }
    {
        if !self.is_at_rest() {
            self.send(self.total - 12);
        }
        self.mc_count = self.mc_count.wrapping_add(1);
        self.vc_count = self.vc_count.wrapping_add(1);
    }

    fn is_at_rest(&self) -> bool
        ensures { result ≡ is_at_rest self.now }
    {
        self.idle_left == 0 && self.octets.len() - self.start == 0
    }

    // Moves past a data field of this many octets.
    fn send(&mut self, size: usize)
        requires { size ≤ 2036 }
        ensures { self.new ≡ after_send self.old size }
    {
        let room = size - self.idle_left.min(size);
        let count = room.min(self.octets.len() - self.start);
        self.idle_left = idle_left_after(size, self.idle_left, self.octets.len() - self.start);
        self.start += count;
        self.begun = pass(self.begun, &mut self.sizes, room);
    }

    // Discards the octets that were sent, if they are no fewer than those that were not.
    fn drop_sent(&mut self)
        ensures { self.new ≡ self.old }
    {
        if self.octets.len() - self.start <= self.start {
            remove_front(&mut self.octets, self.start);
            self.start = 0;
        }
    }
}

/// Returns whether a builder's frames can have these identifiers and this many octets: below 1,024,
/// below 8, and 16 to 2,048.
pub fn can_build(scid: u16, vcid: u8, total: usize) -> bool
    ensures { result ≡ builder_fits scid vcid total }
{
    scid < 1024 && vcid < 8 && 16 <= total && total <= 2048
}

/// Returns whether a builder queues the octets: they are exactly one packet, which is not idle.
pub fn can_queue(octets: &[u8]) -> bool
    ensures value { result ≡ is_to_send octets.now }
    ensures most { IsTrue result → length octets.now ≤ 65542 }
{
    is_packet(octets) && !is_idle_with(octets, &[])
}

pub(crate) fn start_after(left: usize, size: usize) -> Pointer
    requires { size ≤ 2036 }
    ensures { result ≡ first_start left size }
{
    if left < size {
        Pointer::At(left as u16)
    } else {
        Pointer::NoStart
    }
}

/// Returns how many octets are left of an idle packet after a data field of `size` octets. Before
/// that field, `idle_left` octets of one were to be sent, and then `count` octets of packets.
pub fn idle_left_after(size: usize, idle_left: usize, count: usize) -> usize
    requires { idle_left ≤ 6 }
    ensures value { result ≡ idle_after size idle_left count }
    ensures most { result ≤ 6 }
{
    let tail = idle_left.min(size);
    let rest = size - tail;
    let room = rest - count.min(rest);
    if room == 0 {
        idle_left - tail
    } else {
        7 - room.min(7)
    }
}
