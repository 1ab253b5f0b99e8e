// What follows for frames from their layout; these functions do nothing.

ghost use Rattle.std.specs.Prelude.{◌≡◌, ◌++◌, ℕ, List, true, Some, Ok};
ghost use Rattle.octets.specs.Records.{first_record};
ghost use Rattle.tc_frame.specs.declared.frame.Check.{Check};
ghost use Rattle.tc_frame.specs.Layout.{FrameView, IsTcFrame};
ghost use Rattle.tc_frame.specs.Decoding.{frame_at};
ghost use Rattle.tc_frame.specs.Splitter.{IsSpelling, total_at};
ghost use Rattle.tc_frame.specs.Encoding.{frame_fits, spelling};

/// A frame whose fields are in range has its spelling, and no other octets spell it.
pub fn law_of_spelling()
    ensures spells { (check : Check) (f : FrameView) → frame_fits check f ≡ true
        → IsTcFrame check f (spelling check f) }
    ensures only { (check : Check) (f : FrameView) (octets : List ℕ) → IsSpelling check f octets
        → octets ≡ spelling check f }
{}

/// The octets of a frame are read as that frame. On a stream they are a record, whatever follows.
pub fn law_of_reading()
    ensures read { (check : Check) (f : FrameView) (octets : List ℕ) → IsTcFrame check f octets
        → frame_at check octets ≡ Ok f }
    ensures record { (check : Check) (f : FrameView) (octets more : List ℕ)
        → IsTcFrame check f octets
        → first_record 5 (total_at check) (octets ++ more) ≡ Some (Ok octets) }
{}
