// Packets as the records of a stream.

ghost use Rattle.std.proofs.Common.{arith};
ghost use Rattle.space_packet.specs.declared.fault.PacketFault.TheVariants as faults;
ghost use Rattle.space_packet.specs.Layout.{PacketView};
ghost use Rattle.space_packet.specs.Decoding.{extent_at};
ghost use Rattle.space_packet.specs.Laws.{IsSpelling};
ghost use Rattle.space_packet.specs.Laws.{extent_has_header, one_spelling_of, own_extent_of};

use crate::decoding::declared_len;
use crate::fault::PacketFault;
use octets::Wire;

/// Packets as records of a stream: each is as long as its header declares (CCSDS 133.0-B-2,
/// 4.1.3.5). A header is refused with 2 `Version`, and then with 3 `IdleWithSecondary`.
#[derive(Clone, Copy, Debug, PartialEq, Eq)]
pub struct Packets;

impl Wire for Packets {
    type Fault = PacketFault;

    const HEAD: usize = 6;

    ghost HEAD = { 6 };

    ghost extent_of = { λ head. extent_at head };

    ghost Value = { PacketView };

    ghost IsSpelling = { λ p octets. IsSpelling p octets };

    ghost truncated_fault = { faults.Truncated };

    ghost memory_fault = { faults.Memory };

    fn extent(head: &[u8]) -> Result<usize, PacketFault> {
        declared_len(head)
    }

    fn truncated() -> PacketFault {
        PacketFault::Truncated
    }

    fn memory() -> PacketFault {
        PacketFault::Memory
    }

    ghost some_head = { Prim.omega arith };

    ghost extent_has_head = { λ head n e. extent_has_header head n e };

    ghost one_spelling = { λ p xs ys h k. one_spelling_of p xs ys h k };

    ghost own_extent = { λ p octets h. own_extent_of p octets h.spells };
}
