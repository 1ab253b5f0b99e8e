// What a CLCW shows of the units that are not acknowledged (CCSDS 232.1-B-2, 5.1).

ghost use Rattle.cop1.specs.Accepted.{accepted_beyond};
ghost use Rattle.sedgechisel.specs.Answers.{if_there, IsWritten};
ghost use Rattle.sedgechisel.specs.Senders.{accepted_by};

use super::KeptSender;
use super::fields::described;
use crate::numbers::ABSENT;
use cop1::accepted_beyond;

/// Writes how many of the units that were sent and not acknowledged were accepted on board when a CLCW with
/// this value was made: the oldest ones, with the numbers from NN(R) to value - 1 (5.1). The call still does
/// so after an alert, until V(S) is set or an initiation begins. But it uses only the numbers: after an alert
/// that shows a broken condition, nothing is known of these units, whatever it writes. If V(S) is NN(R),
/// there are no such units, and it writes 0 for every value. Returns 0, or `SEDGE_DAMAGED`, or, with nothing
/// written, `SEDGE_ABSENT` if V(S) is not NN(R) and the value does not lie from NN(R) to V(S): nothing is
/// then known of these units.
#[unsafe(no_mangle)]
#[must_use]
pub extern "C" fn sedge_fop_accepted_beyond(sender: &KeptSender, value: u8, accepted: &mut u8) -> u8
    ensures { IsWritten (λ n. n) (accepted_by sender.now value) accepted.old accepted.new result }
{
    match described(sender) {
        Ok(machine) => {
            let fields = machine.fields();
            write_accepted(fields.nn, fields.vs, value, accepted)
        }
        Err(number) => number,
    }
}

/// Writes what `sedge_fop_accepted_beyond` writes for a sender with this NN(R) and this V(S). Returns 0, or
/// `SEDGE_ABSENT` if nothing is known.
#[unsafe(no_mangle)]
#[must_use]
pub extern "C" fn sedge_accepted_beyond(nn: u8, vs: u8, value: u8, accepted: &mut u8) -> u8
    ensures { IsWritten (λ n. n) (if_there (accepted_beyond nn vs value)) accepted.old accepted.new result }
{
    write_accepted(nn, vs, value, accepted)
}

fn write_accepted(nn: u8, vs: u8, value: u8, accepted: &mut u8) -> u8
    ensures { IsWritten (λ n. n) (if_there (accepted_beyond nn vs value)) accepted.old accepted.new result }
{
    match accepted_beyond(nn, vs, value) {
        Some(count) => {
            *accepted = count;
            0
        }
        None => ABSENT,
    }
}
