// What a CLCW shows of the units that are not acknowledged.

ghost use Rattle.std.specs.Prelude.{◌≡◌};
ghost use Rattle.cop1.specs.Accepted.{accepted_beyond};

/// Returns how many of the units that were sent and not acknowledged were accepted on board when a
/// CLCW of this value was made. The call uses the sender's NN(R) and V(S) (CCSDS 232.1-B-2, 5.1).
/// The accepted units are the oldest ones, from NN(R) to `value` - 1. If V(S) is NN(R), all units
/// sent are acknowledged, and the number is 0 for any value. If some are not, and the value does
/// not lie from NN(R) to V(S), the call returns None: nothing is known of them. The call also
/// serves a sender that gave up, since an alert leaves both numbers as they were. But it uses only
/// the numbers. After an alert that shows a broken condition, its answer shows nothing of these
/// units, whatever it is. It takes no memory.
pub fn accepted_beyond(nn: u8, vs: u8, value: u8) -> Option<u8>
    ensures { result ≡ accepted_beyond nn vs value }
{
    if vs == nn {
        return Some(0);
    }
    let ahead = value.wrapping_sub(nn);
    if vs.wrapping_sub(nn) < ahead {
        return None;
    }
    Some(ahead)
}
