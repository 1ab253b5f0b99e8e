// The check of a frame.

ghost use Rattle.std.specs.Prelude.{◌≡◌, ◌≤◌, ◌-◌, ◌++◌, ◌↔◌, IsTrue, length, take, nat_le, if◌then◌else◌};
ghost use Rattle.byteorder.specs.Endian.{big_bytes};
ghost use Rattle.octets.specs.Check.{check_of, HoldsCheck};

/// Returns the check of the octets.
#[unsafe(no_mangle)]
pub extern "C" fn sedge_check(octets: &[u8]) -> u16
    ensures { result ≡ check_of octets.now }
{
    octets::check(octets)
}

/// Sets the last two octets to the check of those before them, and returns true. For fewer than two octets,
/// returns false and writes nothing.
#[unsafe(no_mangle)]
#[must_use]
pub extern "C" fn sedge_check_append(octets: &mut [u8]) -> bool
    ensures done { IsTrue result ↔ (2 ≤ length octets.old) }
    ensures octets { let front = take (length octets.old - 2) octets.old in
        octets.new ≡ (if nat_le 2 (length octets.old)
        then front ++ big_bytes 2 (check_of front) else octets.old) }
{
    if octets.len() < 2 {
        return false;
    }
    octets::append_check(octets);
    true
}

/// Returns whether the last two octets are the check of those before them; false for fewer than two octets
/// (232.0-B-4, 4.1.4.3).
#[unsafe(no_mangle)]
#[must_use]
pub extern "C" fn sedge_check_holds(octets: &[u8]) -> bool
    ensures { IsTrue result ↔ HoldsCheck octets.now }
{
    octets::check_holds(octets)
}
