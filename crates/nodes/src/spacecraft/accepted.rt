// The segment that is accepted from octets that have arrived.

ghost use Rattle.std.specs.Prelude.{◌≡◌, ◌<◌, IfSome, option_map};
ghost use Rattle.tc_frame.specs.Layout.{segment_view};
ghost use Rattle.tm_link.specs.Extractor.{octets_of};
ghost use Rattle.nodes.specs.Arrival.{accepted_of};

use super::arrival::Arrival;
use tc_frame::Segment;

impl<'a> Arrival<'a> {
    /// Returns the accepted segment, if there is one, and the packets that it makes ready, in order.
    pub fn accepted(&self) -> Option<(Segment<'a>, &[Vec<u8>])>
        ensures accepted { option_map (λ p. (segment_view p.0, octets_of p.1.now)) result
            ≡ accepted_of self.now }
        ensures map { IfSome result (λ p. p.0.header.map < 64) }
    {
        match &self.accepted {
            Some((segment, prepared)) => Some((*segment, prepared.packets.as_slice())),
            None => None,
        }
    }
}
