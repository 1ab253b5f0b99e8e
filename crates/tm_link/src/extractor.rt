// Extracting packets from frames.

ghost use Rattle.std.specs.Prelude.{◌≡◌, ◌≤◌, ◌++◌, [], length, Some, IsTrue, IsOk, IfOk, IfErr, OnOk, OnErr};
ghost use Rattle.tm_link.specs.Arrivals.{HasGained};
ghost use Rattle.tm_link.specs.Extractor.{new_extractor, part_after, part_over_gap, extract_step, octets_of, GrowsBy};
ghost use Rattle.tm_link.specs.Layout.{frame_view, pointer_fits};
ghost use Rattle.tm_link.specs.PacketEnds.{rest_in_frame};

use crate::fault::TmFault;
use crate::frame::{Pointer, TmFrame};
use crate::gap::{Gap, gap_before, is_lost, part_kept};
use crate::hand_out::find;
use crate::part::{go_on, open};
use std::alloc::Global;
use std::marker::Model;

/// Extracts packets from the frames of one virtual channel, in their order; any frames may be
/// missing (CCSDS 132.0-B-3, 4.3.2). A packet is finished if all of its octets arrived. Idle
/// packets are not delivered.
#[derive(Drop)]
pub struct Extractor {
    last: Option<u8>,
    part: Vec<u8>,
    alloc: Global,
}

impl Model for Extractor {
    ghost use Rattle.tm_link.specs.Extractor.{ExtractorState};

    ghost Value = { ExtractorState };

    ghost use Rattle.tm_link.specs.ExtractorFields.{state_of, IsReserved};

    ghost view = { state_of };

    ghost invariant = { IsReserved };
}

impl Extractor {
    /// Creates an extractor that has seen no frame. It reserves the 65,542 octets of the longest
    /// packet.
    /// Faults: 7 Memory. Memory: yes.
    pub fn new(alloc: Global) -> Result<Self, TmFault>
        ensures ok { IfOk result (λ x. x ≡ new_extractor) }
        ensures fault { IfErr result (λ e. e ≡ TmFault.Memory) }
    {
        match Vec::with_capacity(alloc, 65542) {
            Ok(part) => Ok(Extractor {
                last: None,
                part,
                alloc,
            }),
            Err(_) => Err(TmFault::Memory),
        }
    }

    /// Begins again, as an extractor that has seen no frame; it keeps its reserved memory.
    pub fn forget(&mut self)
        ensures { self.new ≡ new_extractor }
    {
        self.last = None;
        self.part.clear();
    }

    /// Takes the next frame that arrived, and appends the packets that are finished with it, except
    /// idle ones. Returns how many frames are missing before it (CCSDS 132.0-B-3, 4.3.2). All
    /// allocations are made first, so at a fault the extractor and the packets are as they were.
    /// Faults: 7 Memory. Memory: only where a packet is finished. Cost: n and the packets finished.
    pub fn frame(&mut self, frame: &TmFrame, packets: &mut Vec<Vec<u8>>) -> Result<Gap, TmFault>
        requires { IsTrue (pointer_fits frame.now.pointer (length frame.now.payload.now)) }
        ensures gap { IfOk result (λ gap. gap
            ≡ (extract_step self.old (frame_view frame.now)).gap) }
        ensures packets { OnOk result (GrowsBy packets.old packets.new
            (extract_step self.old (frame_view frame.now)).packets) }
        ensures after { OnOk result (self.new
            ≡ (extract_step self.old (frame_view frame.now)).after) }

        // What arrives with this frame is what arrived without it, followed by the packets that
        // were appended. This holds for every stream and every choice of its frames that led here.
        ensures exact { OnOk result (HasGained self.old (frame_view frame.now)
            (octets_of packets.old.items) (octets_of packets.new.items)) }

        // The call takes no memory for a frame with which no packet is finished.
        ensures none { (extract_step self.old (frame_view frame.now)).packets ≡ [] → IsOk result }
        ensures kept { OnErr result (packets.new.items ≡ packets.old.items) }
        ensures err { OnErr result (self.new ≡ self.old) }
        ensures fault { IfErr result (λ e. e ≡ TmFault.Memory) }

        // The part of a packet that it holds has fewer octets than the longest packet.
        ensures short { length self.new.part ≤ 65541 }
    {
        let gap = gap_before(self.last, frame.vc_count);
        let mut found = Vec::new(self.alloc);
        let rest = find(
            self.alloc,
            part_kept(gap, self.part.as_slice()),
            frame.pointer,
            frame.payload,
            &mut found,
        )?;
        if packets.append(&mut found).is_err() {
            return Err(TmFault::Memory);
        }
        self.pass(gap, frame, rest);
        Ok(gap)
    }

    // Moves past a frame; `rest` is what follows the packets in its data.
    fn pass(&mut self, gap: Gap, frame: &TmFrame, rest: &[u8])
        requires { rest.now ≡ rest_in_frame frame.now.pointer frame.now.payload.now }
        ensures last { self.new.last ≡ Some frame.now.vc_count }
        ensures part { self.new.part
            ≡ part_after (part_over_gap gap self.old.part) frame.now.pointer frame.now.payload.now }
        ensures short { length self.new.part ≤ 65541 }
    {
        if is_lost(gap) {
            self.part.clear();
        }
        self.last = Some(frame.vc_count);
        match frame.pointer {
            Pointer::OnlyIdle => self.part.clear(),
            Pointer::NoStart => go_on(&mut self.part, frame.payload),
            Pointer::At(_) => open(&mut self.part, rest),
        }
    }
}
