// What follows for packets from their layout; these functions do nothing.

ghost use Rattle.std.specs.Prelude.{◌≡◌, ◌++◌, ℕ, List, true, length, Some, Ok};
ghost use Rattle.std.specs.List.{AllByRecursion, concat};
ghost use Rattle.octets.specs.Number.{IsOctets};
ghost use Rattle.octets.specs.Records.{IsRecord, first_record};
ghost use Rattle.space_packet.specs.Layout.{PacketView, IsPacket, IsSomePacket};
ghost use Rattle.space_packet.specs.Decoding.{extent_at, packet_at};
ghost use Rattle.space_packet.specs.Laws.{IsSpelling};
ghost use Rattle.space_packet.specs.Encoding.{packet_fits, spelling};

/// A packet whose fields are in range has its spelling, and no other octets spell it.
pub fn law_of_spelling()
    ensures spells { (p : PacketView) → packet_fits p ≡ true → IsPacket p (spelling p) }
    ensures only { (p : PacketView) (octets : List ℕ) → IsSpelling p octets → octets ≡ spelling p }
{}

/// The octets of a packet, whatever follows, are read as that packet, and on a stream they are its
/// first record.
pub fn law_of_reading()
    ensures read { (p : PacketView) (octets more : List ℕ) → IsPacket p octets
        → packet_at (octets ++ more) ≡ Ok (p, length octets) }
    ensures record { (p : PacketView) (octets more : List ℕ) → IsPacket p octets
        → first_record 6 extent_at (octets ++ more) ≡ Some (Ok octets) }
{}

#[tactic(auto, using(crate::proofs::Decoded::record_is, crate::proofs::Decoded::record_again, crate::proofs::Decoded::records_are))]
/// The records of a stream are its packets: octets are a record exactly when they spell a packet,
/// idle or not. The same holds of all records one after another.
pub fn law_of_records()
    ensures found { (octets : List ℕ) → IsOctets octets
        → IsRecord 6 extent_at octets → IsSomePacket octets }
    ensures only { (octets : List ℕ) → IsSomePacket octets → IsRecord 6 extent_at octets }
    ensures all { (records : List (List ℕ)) → IsOctets (concat records)
        → AllByRecursion (IsRecord 6 extent_at) records → AllByRecursion IsSomePacket records }
{}
