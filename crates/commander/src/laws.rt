// What holds of a commander over all its calls; these functions do nothing.

ghost use Rattle.commander.specs.Frames.{EachFrameIsLast, BeginsInSilence};
ghost use Rattle.commander.specs.Moves.{EachCallIsAMove};

/// Each call changes the ledger by the ledger's own calls only, and each packet that it submits to the ground
/// is in the store and has no fate. So what `law_of_fates` states of a ledger holds of a commander's ledger.
pub fn law_of_moves()
    ensures { EachCallIsAMove }
{}

/// A frame is sent only if everything given and received is in the store, and nothing is left to be reported
/// or taken.
pub fn law_of_frames()
    ensures { EachFrameIsLast }
{}

/// A session begins only in a silence and without a pause. Its value is that of a CLCW that arrived when a
/// round trip had passed since the last frame and the last session.
pub fn law_of_silence()
    ensures { BeginsInSilence }
{}
