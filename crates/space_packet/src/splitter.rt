// Packets from a stream that arrives in pieces.

ghost use Rattle.std.specs.Prelude.{◌≡◌};
ghost use Rattle.std.specs.Borrow.{sem};

use crate::fault::PacketFault;
use crate::layout::Packets;
use octets::Splitter;
use std::alloc::Global;

/// Splits a stream into packets, however the stream was cut into pieces (CCSDS 133.0-B-2, 4.1.3). A record is
/// as long as its header declares, and is not decoded.
#[derive(Drop)]
pub struct PacketSplitter(Splitter<Packets>);

impl PacketSplitter {
    ghost use Rattle.octets.specs.Splitter.{nothing_held, answer_view, IsFed, IsFinished};
    ghost use Rattle.octets.specs.Records.{first_record};
    ghost use Rattle.space_packet.specs.Splitter.{held_in, EndsAfter};
    ghost use Rattle.space_packet.specs.Decoding.{extent_at};

    /// Returns an empty splitter. It takes no memory until it is fed.
    pub fn new(alloc: Global) -> Self
        ensures { held_in result ≡ nothing_held }
    {
        PacketSplitter(Splitter::new(alloc))
    }

    /// Takes more octets of the stream. On a fault the splitter is unchanged.
    /// Faults: 6 Memory. Memory: yes, for one octet or more. Cost: n and the octets held.
    pub fn feed(&mut self, octets: &[u8]) -> Result<(), PacketFault>
        ensures { IsFed octets.now PacketFault.Memory (held_in self.old) (held_in self.new) result }
    {
        self.0.feed(octets)
    }

    /// Returns the next whole packet's octets, borrowed from the splitter, or the fault of its header; `None`
    /// while octets are missing. Once a header is refused, this call and every later one return that fault.
    /// Faults: 2 Version, 3 IdleWithSecondary.
    pub fn next(&mut self) -> Option<Result<&[u8], PacketFault>>
        ensures* rests { sem 𝓛 (EndsAfter self.entry (answer_view result)) }
        ensures answer { answer_view result ≡ first_record 6 extent_at (held_in self.old).octets }
    {
        match self.0.next()? {
            Err(fault) => Some(Err(*fault)),
            Ok(record) => Some(Ok(record)),
        }
    }

    /// Checks whether the stream may end here. The fault means that octets are left and no header was
    /// refused.
    /// Faults: 1 Truncated.
    pub fn finish(&self) -> Result<(), PacketFault>
        ensures { IsFinished PacketFault.Truncated (held_in self.now) result }
    {
        self.0.finish()
    }
}
