// Frames from a stream that arrives in pieces.

ghost use Rattle.std.specs.Prelude.{◌≡◌};
ghost use Rattle.std.specs.Borrow.{sem};

use crate::fault::TcFault;
use octets::{Splitter, Wire};
use std::alloc::Global;

/// Splits a stream into frames, with (`TcSplitter<Checked>`) or without their FECF (`TcSplitter<Unchecked>`),
/// however the stream was cut into pieces (CCSDS 232.0-B-4, 4.1.2.7). A record is as long as its head
/// declares, and is not decoded.
#[derive(Drop)]
pub struct TcSplitter<C: Wire<Fault = TcFault>>(Splitter<C>);

impl<C: Wire<Fault = TcFault>> TcSplitter<C> {
    ghost use Rattle.octets.specs.Splitter.{nothing_held, answer_view, IsFed, IsFinished};
    ghost use Rattle.octets.specs.Records.{first_record};
    ghost use Rattle.tc_frame.specs.Splitter.{held_in, EndsAfter};

    /// Returns an empty splitter. It takes no memory until it is fed.
    pub fn new(alloc: Global) -> Self
        ensures { held_in result ≡ nothing_held }
    {
        TcSplitter(Splitter::new(alloc))
    }

    /// Takes more octets of the stream. On a fault the splitter is unchanged.
    /// Faults: 12 Memory. Memory: yes, for one octet or more. Cost: n and the octets held.
    pub fn feed(&mut self, octets: &[u8]) -> Result<(), TcFault>
        ensures { IsFed octets.now TcFault.Memory (held_in self.old) (held_in self.new) result }
    {
        if self.0.feed(octets).is_err() {
            return Err(TcFault::Memory);
        }
        Ok(())
    }

    /// Returns the next whole record, borrowed from the splitter, or `None` while octets are missing. Refuses
    /// with 5 `Length` a record that declares a total below 5, or below 7 with the FECF. This call and every
    /// later one then return that fault.
    /// Faults: 5 Length.
    pub fn next(&mut self) -> Option<Result<&[u8], TcFault>>
        ensures* rests { sem 𝓛 (EndsAfter C.row C.Wire self.entry (answer_view result)) }
        ensures answer { answer_view result
            ≡ first_record C.HEAD C.extent_of (held_in self.old).octets }
    {
        match self.0.next()? {
            Err(fault) => Some(Err(*fault)),
            Ok(record) => Some(Ok(record)),
        }
    }

    /// Checks whether the stream may end here. The fault means that octets are left and no record was
    /// refused.
    /// Faults: 1 Short.
    pub fn finish(&self) -> Result<(), TcFault>
        ensures { IsFinished TcFault.Short (held_in self.now) result }
    {
        if self.0.finish().is_err() {
            return Err(TcFault::Short);
        }
        Ok(())
    }
}
