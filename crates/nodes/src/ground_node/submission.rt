// A prepared submission: packets to be submitted, already cut into segments.

ghost use Rattle.std.specs.Prelude.{◌≡◌};
ghost use Rattle.nodes.specs.CommandPackets.{slices_view};
ghost use Rattle.nodes.specs.Submissions.{packets_held};

use crate::command_packets::Packets;
use crate::owned_segment::OwnedSegment;
use std::collections::VecDeque;

// The segments of packets.
#[derive(Drop)]
pub(crate) enum Segments {
    One(OwnedSegment),
    Several(VecDeque<OwnedSegment>),
}

impl Segments {
    ghost use Rattle.std.specs.Prelude.{length};
    ghost use Rattle.nodes.specs.Submissions.{segments_held};

    // Returns the number of segments.
    pub(crate) fn count(&self) -> usize
        ensures { result ≡ length (segments_held self.now) }
    {
        match self {
            Segments::One(_) => 1,
            Segments::Several(segments) => segments.len(),
        }
    }
}

/// Packets to be submitted on a MAP, and their segments, with all the memory that these need.
/// `Ground::prepare` returns it, and `Ground::commit` consumes it.
#[derive(Drop)]
pub struct Submission<'a> {
    pub(crate) map: u8,
    pub(crate) octets: &'a [u8],
    pub(crate) packets: Packets<'a>,
    pub(crate) segments: Segments,
}

impl<'a> Submission<'a> {
    /// Returns the packets, in order, each as its octets.
    pub fn packets(&self) -> &[&'a [u8]]
        ensures { slices_view result.now ≡ packets_held self.now.packets }
    {
        match &self.packets.several {
            Some(packets) => packets.as_slice(),
            None => &self.packets.whole,
        }
    }
}
