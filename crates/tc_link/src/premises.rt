// What goes wrong if a condition of the link is not kept.

ghost use Rattle.std.specs.Prelude.{◌≡◌, [], ◌∷◌, true, false};
ghost use Rattle.nodes.specs.Parameters.{IsConfig};
ghost use Rattle.simulated_link.specs.World.{new_world, run_answers};
ghost use Rattle.tc_link.specs.Needed.{EndsWith, IsFalseAlarm, loose_run, small, wide, command, another, joined};
ghost use Rattle.tc_link.specs.Needed.{frame_overtaken, report_overtaken, frame_left, report_left, other_number};
ghost use Rattle.tc_link.specs.Needed.{second_sender, restarted, over_the_window, frames_lost};
ghost use Rattle.tc_link.specs.Needed.{two_new, closed, blocking, ground_restarted, one_sent, both_sent};
ghost use Rattle.tc_link.specs.Needed.{parted, part_left, long_later, mixed, IsNeverSubmitted};
ghost use Rattle.tc_link.specs.Needed.{SkipsTheFirst, resumed_by_another, TakesTwice, resumed_too_early};
ghost use Rattle.tc_link.specs.Seen.{seen};

/// Each condition of the link is needed: for each condition there is a run that keeps all the others and goes
/// wrong.
///
/// In eleven of these runs all seems well at the end, because the ground is Active (S1) with nothing
/// outstanding. Yet a command is lost, is delivered twice, or is not the one that was submitted. Each of
/// these runs breaks one condition, as follows.
///
/// One frame is out of order (`frame`), or one CLCW (`report`). A frame or a CLCW is in transit when the
/// session begins (`up`, `down`). Or the first part of a command is in transit when the session begins, and
/// the board takes a command that nobody submitted (`never_submitted`).
///
/// V(S) is one below V(R) and there is no check (`number`). There is a second sender (`sender`). The
/// spacecraft restarts (`restart`), or the ground restarts while its frame is in transit (`ground_restart`).
///
/// A MAP is closed on board only (`maps`), or only the ground blocks (`blocks`).
///
/// Four more runs go wrong in other ways. A program that resumes by a value that no CLCW has leaves a command
/// out (`value`). A program that resumes by the value of a CLCW that was made while the command was still in
/// transit has the command delivered twice (`old_value`). In these two runs each session begins after silence
/// and submits what is wanted next. With a sender's window of one more than half the width, the receiver
/// enters Lockout (`window`). After 256 telemetry frames lost in a row, a packet is delivered that was never
/// queued (`outage`).
///
/// The configurations are in their ranges, except for the window of `window` (`ranges`).
pub fn law_of_premises()
    ensures frame { EndsWith (loose_run (new_world small) frame_overtaken) true
        (command ∷ []) (command ∷ command ∷ []) }
    ensures report { EndsWith (loose_run (new_world small) report_overtaken) true (command ∷ []) [] }
    ensures up { EndsWith (loose_run (new_world small) frame_left) false (command ∷ []) (another ∷ []) }
    ensures never_submitted { EndsWith (loose_run (new_world parted) part_left) false
        (long_later ∷ []) (mixed ∷ []) × IsNeverSubmitted mixed part_left }
    ensures down { EndsWith (loose_run (new_world small) report_left) false (command ∷ []) [] }
    ensures number { EndsWith (loose_run (new_world small) other_number) false (command ∷ []) [] }
    ensures sender { EndsWith (loose_run (new_world small) second_sender) true
        (command ∷ []) (another ∷ []) }
    ensures restart { EndsWith (loose_run (new_world small) restarted) true (command ∷ []) [] }
    ensures ground_restart { EndsWith (loose_run (new_world small) ground_restarted) false
        (command ∷ []) (another ∷ []) }
    ensures maps { EndsWith (loose_run (two_new small closed) one_sent) true (command ∷ []) [] }
    ensures blocks { EndsWith (loose_run (two_new blocking small) both_sent) true
        (command ∷ another ∷ []) [] }
    ensures window { IsFalseAlarm (loose_run (new_world wide) over_the_window) }
    ensures outage { (loose_run (new_world small) frames_lost).ground_node.telemetry ≡ joined ∷ [] }
    ensures value { SkipsTheFirst
        (seen resumed_by_another (run_answers (new_world small) resumed_by_another)) }
    ensures old_value { TakesTwice
        (seen resumed_too_early (run_answers (new_world small) resumed_too_early)) }
    ensures ranges { IsConfig small × IsConfig closed × IsConfig blocking × IsConfig parted }
{}
