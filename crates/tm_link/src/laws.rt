// What follows for frames and packets from their layouts. These functions do nothing.

ghost use Rattle.std.specs.Prelude.{◌≡◌, ◌++◌, ℕ, List, [], Bool, length, true, Ok};
ghost use Rattle.std.specs.List.{AllByRecursion};
ghost use Rattle.octets.specs.Number.{IsOctets};
ghost use Rattle.space_packet.specs.Layout.{PacketView, IsSomePacket};
ghost use Rattle.tm_link.specs.Arrivals.{IsInRange, all_extracted};
ghost use Rattle.tm_link.specs.Builder.{is_to_send, IsToSend};
ghost use Rattle.tm_link.specs.Extractor.{ExtractorState, new_extractor};
ghost use Rattle.tm_link.specs.Layout.{FrameView, IsTmFrame, IsSpelling};
ghost use Rattle.tm_link.specs.Outage.{AreButForTheFirst};
ghost use Rattle.tm_link.specs.Decoding.{frame_at};
ghost use Rattle.tm_link.specs.Stream.{carried_octets, IsLaidOut, IsClose, choice, arrived_packets};
ghost use Rattle.tm_link.specs.Encoding.{total_of, frame_fits, spelling};

/// States that a frame whose fields are in range has its spelling, and that no other octets spell
/// it.
pub fn law_of_spelling()
    ensures spells { (f : FrameView) → length f.ocf ≡ 4 → frame_fits f ≡ true
        → IsTmFrame (total_of f) f (spelling f) }
    ensures only { (total : ℕ) (f : FrameView) (octets : List ℕ) → IsSpelling total f octets
        → octets ≡ spelling f }
{}

/// States that the octets of a frame are read as that frame.
pub fn law_of_reading()
    ensures { (total : ℕ) (f : FrameView) (octets : List ℕ) → IsTmFrame total f octets
        → frame_at total octets ≡ Ok f }
{}

/// States that the octets that `TmBuilder::queue` takes are those of exactly one packet, of an APID
/// other than 2047.
pub fn law_of_queueing()
    ensures only { (octets : List ℕ) → IsOctets octets → is_to_send octets ≡ true
        → (p : PacketView) × IsToSend p octets }
    ensures all { (p : PacketView) (octets : List ℕ) → IsToSend p octets
        → is_to_send octets ≡ true }
{}

/// States which packets a new extractor delivers from frames that lay out a stream of packets. Any
/// number of frames may be missing before the first that arrives, and fewer than 256 between two
/// that arrive. The extractor delivers exactly the packets whose octets all arrived, in their order
/// (`some`). If all frames of a whole stream arrive, it delivers all packets (`all`). Each frame
/// has an octet as its count, and some data; every frame that octets spell has both (`range`).
pub fn law_of_extraction()
    ensures some { (packets : List (List ℕ)) (frames : List FrameView) (rest : List ℕ)
        (laid : IsLaidOut packets frames rest) (chosen : List Bool)
        → AllByRecursion IsInRange frames → IsClose chosen
        → all_extracted new_extractor (choice frames chosen)
        ≡ arrived_packets laid.all frames chosen }
    ensures all { (packets : List (List ℕ)) (frames : List FrameView) → IsLaidOut packets frames []
        → AllByRecursion IsInRange frames → all_extracted new_extractor frames ≡ packets }
    ensures range { (total : ℕ) (f : FrameView) (octets : List ℕ) → IsSpelling total f octets
        → IsInRange f }
{}

/// States what an extractor delivers after an outage of any length, also one of 256 frames or a
/// multiple, which the counts do not show. Whatever the extractor holds, it delivers what a new one
/// would deliver from the frames that arrive afterwards, and before that at most one packet
/// (`any`). So suppose that those frames lay out a stream, and that fewer than 256 of them are
/// missing between two that arrive. Then it delivers, after at most one other packet, exactly the
/// packets whose octets all arrived since, in their order (`arrived`).
pub fn law_of_outage()
    ensures any { (s : ExtractorState) (frames : List FrameView)
        → AreButForTheFirst (all_extracted s frames) (all_extracted new_extractor frames) }
    ensures arrived { (s : ExtractorState) (packets : List (List ℕ)) (frames : List FrameView)
        (rest : List ℕ) (laid : IsLaidOut packets frames rest) (chosen : List Bool)
        → AllByRecursion IsInRange frames → IsClose chosen
        → AreButForTheFirst (all_extracted s (choice frames chosen))
        (arrived_packets laid.all frames chosen) }
{}

/// States that the stream that frames lay out consists of packets, idle ones among them: each of
/// its records spells one.
pub fn law_of_stream()
    ensures { (packets : List (List ℕ)) (frames : List FrameView) (rest : List ℕ)
        (laid : IsLaidOut packets frames rest)
        → IsOctets (carried_octets frames ++ rest) → AllByRecursion IsSomePacket laid.all }
{}
