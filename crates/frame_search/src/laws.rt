// What follows for the parts of a stream from their definition; this function does nothing.

ghost use Rattle.std.specs.Prelude.{ℕ, List};
ghost use Rattle.frame_search.specs.Parts.{parts_of, AreParts};

/// The parts of any octets are, in order, the good frames of the channel and the octets skipped between them.
/// Each frame is at the first place, from the end of the part before it, at which a good frame begins.
pub fn law_of_parts()
    ensures { (scid vcid : ℕ) (octets : List ℕ) → AreParts scid vcid octets (parts_of scid vcid octets) }
{}
