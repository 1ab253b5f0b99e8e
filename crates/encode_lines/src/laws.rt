// Laws of the definitions: the octets made from a line have that line.

ghost use Rattle.std.specs.Prelude.{◌≡◌, ◌≤◌, ◌++◌, codes, decimal, ℕ, List, Option, true, length, Some, Ok};
ghost use Rattle.hex.specs.Hex.{IsBytes};
ghost use Rattle.listings.specs.Text.{line_end};
ghost use Rattle.streams.specs.Hex.{IsHex};
ghost use Rattle.streams.specs.Words.{words_in};
ghost use Rattle.space_packet.specs.Layout.{PacketView};
ghost use Rattle.space_packet.specs.Decoding.{packet_at};
ghost use Rattle.space_packet.specs.Encoding.{packet_fits};
ghost use Rattle.tc_frame.specs.declared.frame.Check.{Check};
ghost use Rattle.tc_frame.specs.Layout.{FrameView};
ghost use Rattle.tc_frame.specs.Decoding.{frame_at};
ghost use Rattle.tc_frame.specs.Encoding.{frame_fits};
ghost use Rattle.encode_lines.specs.Fields.{without_number};
ghost use Rattle.encode_lines.specs.Frames.{frame_in, frame_octets};
ghost use Rattle.encode_lines.specs.Held.{held_in, holds_octets, holds_packet};
ghost use Rattle.encode_lines.specs.Packets.{packet_in, packet_octets};
ghost use Rattle.encode_lines.specs.Listed.{IsLineOf, HasOctets, IsGap, frame_text, packet_text};

/// A line spells the frame for which `tctool tc` writes it, with or without its number, and no other frame.
/// The octets made from that frame are read as that frame.
pub fn law_of_frame_lines()
    ensures says { (line : List ℕ) (f : FrameView) → frame_in (without_number (words_in line)) ≡ Some f
        → IsLineOf (frame_text f) line }
    ensures said { (check : Check) (line : List ℕ) (f : FrameView) → frame_fits check f ≡ true
        → HasOctets f.body → IsLineOf (frame_text f) line
        → frame_in (without_number (words_in line)) ≡ Some f }
    ensures read { (check : Check) (f : FrameView) (octets : List ℕ)
        → frame_octets check f ≡ Some octets → frame_at check octets ≡ Ok f }
{}

/// A line spells the packet for which `tctool packets` writes it, with or without its number and whatever
/// number of packets is missing before it. It spells no other packet. The octets made from that packet are
/// read as that packet.
pub fn law_of_packet_lines()
    ensures says { (line : List ℕ) (p : PacketView) → packet_in (without_number (words_in line)) ≡ Some p
        → (gap : Option ℕ) × IsGap gap × IsLineOf (packet_text gap p) line }
    ensures said { (line : List ℕ) (p : PacketView) (gap : Option ℕ) → packet_fits p ≡ true
        → IsBytes p.payload → IsGap gap → IsLineOf (packet_text gap p) line
        → packet_in (without_number (words_in line)) ≡ Some p }
    ensures read { (p : PacketView) (octets : List ℕ) → packet_octets p ≡ Some octets
        → packet_at octets ≡ Ok (p, length octets) }
{}

/// A line of a word and octets, or of a word, a MAP and octets, holds these octets, with or without its
/// number. The nodes write and read `sent`, `frame`, `telemetry`, `report` and `clcw` so, and `tctool map`
/// writes its packets so.
pub fn law_of_octets_in_lines()
    ensures octets { (word octets digits line : List ℕ) → holds_octets word ≡ true → IsHex octets digits
        → IsLineOf (word ++ (codes " " ++ (digits ++ line_end))) line
        → held_in (without_number (words_in line)) ≡ Some octets }
    ensures packets { (word octets digits line : List ℕ) (on_map : ℕ) → holds_packet word ≡ true
        → on_map ≤ 63 → IsHex octets digits
        → IsLineOf (word ++ (codes " " ++ (decimal on_map ++ (codes " " ++ (digits ++ line_end)))))
        line
        → held_in (without_number (words_in line)) ≡ Some octets }
{}
