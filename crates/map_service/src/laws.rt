// What follows from the definitions of packets, of assembly and of cutting; these functions do nothing.

ghost use Rattle.std.specs.Prelude.{◌≡◌, ◌≢◌, ◌≤◌, ◌<◌, ◌++◌, ◌∷◌, [], ℕ, List, length, true, None};
ghost use Rattle.std.specs.List.{AllByRecursion, concat};
ghost use Rattle.octets.specs.Beginning.{IsBeginning};
ghost use Rattle.octets.specs.Number.{IsOctets};
ghost use Rattle.space_packet.specs.Layout.{IsSomePacket};
ghost use Rattle.tc_frame.specs.declared.frame.SegmentFlags.TheVariants.{Alone};
ghost use Rattle.tc_frame.specs.Layout.{SegmentView};
ghost use Rattle.map_service.specs.declared.limits.Limits.{Limits};
ghost use Rattle.map_service.specs.Assembly.{is_open, assembled, open_part};
ghost use Rattle.map_service.specs.Cutting.{segment_with, parts_of, groups_of, segments_of, cut_fault, payloads, IsPart, IsInParts, IsGrouped};
ghost use Rattle.map_service.specs.Cutting.{Submission, IsSubmitted, segments_of_all, packets_on};
ghost use Rattle.map_service.specs.Packets.{packets_in, is_packet, are_packets, ArePackets};
ghost use Rattle.map_service.specs.AssemblerTable.{take_step};

/// Octets are judged to be one packet exactly when they spell one, and one or more packets exactly when they
/// spell one or more, one after another. The packets found in them are the only ones.
pub fn law_of_packets()
    ensures one { (octets : List ℕ) → IsOctets octets → is_packet octets ≡ true
        → IsSomePacket octets }
    ensures one_only { (octets : List ℕ) → IsSomePacket octets → is_packet octets ≡ true }
    ensures several { (octets : List ℕ) → IsOctets octets → are_packets octets ≡ true
        → ArePackets octets (packets_in octets) }
    ensures several_only { (octets : List ℕ) (packets : List (List ℕ)) → ArePackets octets packets
        → (are_packets octets ≡ true) × (packets ≡ packets_in octets) }
{}

/// What is assembled from a beginning of a list of segments is a beginning of what is assembled from the
/// list.
pub fn law_of_beginnings()
    ensures { (limits : Limits) (m : ℕ) (segments more : List SegmentView)
        → IsBeginning (assembled limits m segments) (assembled limits m (segments ++ more)) }
{}

/// The table defines what one more segment adds to a list of segments, and which part is then open on its
/// MAP. On other MAPs the segment changes nothing.
pub fn law_of_steps()
    ensures packets { (limits : Limits) (segments : List SegmentView) (s : SegmentView)
        → assembled limits s.header.map (segments ++ s ∷ [])
        ≡ assembled limits s.header.map segments
        ++ (take_step limits (open_part limits s.header.map segments) s).packets }
    ensures part { (limits : Limits) (segments : List SegmentView) (s : SegmentView)
        → open_part limits s.header.map (segments ++ s ∷ [])
        ≡ (take_step limits (open_part limits s.header.map segments) s).part }
    ensures other_packets { (limits : Limits) (segments : List SegmentView) (s : SegmentView)
        (m : ℕ) → m ≢ s.header.map
        → assembled limits m (segments ++ s ∷ []) ≡ assembled limits m segments }
    ensures other_parts { (limits : Limits) (segments : List SegmentView) (s : SegmentView)
        (m : ℕ) → m ≢ s.header.map
        → open_part limits m (segments ++ s ∷ []) ≡ open_part limits m segments }
{}

/// A packet of at most `part` octets is one segment, flagged alone. A longer packet is cut in the only way in
/// which all parts except the last have exactly `part` octets, and the last has 1 to `part`.
pub fn law_of_parts()
    ensures packet { (part m : ℕ) (octets : List ℕ) → is_packet octets ≡ true
        → segments_of part m octets ≡ parts_of part m octets }
    ensures alone { (part m : ℕ) (octets : List ℕ) → 1 ≤ length octets → length octets ≤ part
        → parts_of part m octets ≡ segment_with Alone m octets ∷ [] }
    ensures parts { (part m : ℕ) (octets : List ℕ) → 1 ≤ part → part < length octets
        → IsInParts part m octets (parts_of part m octets) }
    ensures only { (part m : ℕ) (octets : List ℕ) (segments : List SegmentView) → 1 ≤ part
        → IsInParts part m octets segments → segments ≡ parts_of part m octets }
{}

/// Packets are grouped in the only way in which the groups are these packets in order, each group fits in a
/// part or is one packet, and the first packet after a group would not have fitted into it.
pub fn law_of_groups()
    ensures found { (part : ℕ) (packets : List (List ℕ))
        → IsGrouped part packets (groups_of part packets) }
    ensures only { (part : ℕ) (packets : List (List ℕ)) (groups : List (List (List ℕ)))
        → IsGrouped part packets groups → groups ≡ groups_of part packets }
{}

/// The segments of octets that are cut contain these octets, in order. Each segment is on their MAP, with 1
/// to `part` octets.
pub fn law_of_segments()
    ensures joined { (limits : Limits) (m : ℕ) (octets : List ℕ)
        → 1 ≤ limits.part → cut_fault limits octets ≡ None
        → concat (payloads (segments_of limits.part m octets)) ≡ octets }
    ensures each { (part m : ℕ) (octets : List ℕ) → 1 ≤ part
        → AllByRecursion (IsPart part m) (segments_of part m octets) }
{}

/// Packets that were cut are reassembled, whatever came before. On an open MAP the segments of packets add
/// exactly these packets, and leave no part open. They change nothing on any other MAP.
pub fn law_of_passage()
    ensures given { (limits : Limits) (m : ℕ) (segments : List SegmentView) (octets : List ℕ)
        → 1 ≤ limits.part → is_open limits m ≡ true → cut_fault limits octets ≡ None
        → assembled limits m (segments ++ segments_of limits.part m octets)
        ≡ assembled limits m segments ++ packets_in octets }
    ensures closed { (limits : Limits) (m : ℕ) (segments : List SegmentView) (octets : List ℕ)
        → 1 ≤ limits.part → is_open limits m ≡ true → cut_fault limits octets ≡ None
        → open_part limits m (segments ++ segments_of limits.part m octets) ≡ None }
    ensures others { (limits : Limits) (part m k : ℕ) (segments : List SegmentView)
        (octets : List ℕ) → 1 ≤ part → k ≢ m
        → (assembled limits k (segments ++ segments_of part m octets)
        ≡ assembled limits k segments)
        × (open_part limits k (segments ++ segments_of part m octets)
        ≡ open_part limits k segments) }
{}

#[tactic(auto, using(crate::proofs::Passage::all_assembled, crate::proofs::Passage::all_closed, crate::proofs::Passage::some_assembled))]
/// What calls submitted is reassembled, whatever MAPs the calls were on. All their segments yield, on each
/// MAP, exactly its packets in order, with no part open. A beginning of the segments yields a beginning of
/// the packets.
pub fn law_of_histories()
    ensures all { (limits : Limits) (m : ℕ) (submissions : List Submission) → 1 ≤ limits.part
        → AllByRecursion (IsSubmitted limits) submissions
        → assembled limits m (segments_of_all limits.part submissions) ≡ packets_on m submissions }
    ensures closed { (limits : Limits) (m : ℕ) (submissions : List Submission) → 1 ≤ limits.part
        → AllByRecursion (IsSubmitted limits) submissions
        → open_part limits m (segments_of_all limits.part submissions) ≡ None }
    ensures beginning { (limits : Limits) (m : ℕ) (submissions : List Submission)
        (segments : List SegmentView) → 1 ≤ limits.part
        → AllByRecursion (IsSubmitted limits) submissions
        → IsBeginning segments (segments_of_all limits.part submissions)
        → IsBeginning (assembled limits m segments) (packets_on m submissions) }
{}
