// Copying of octets into memory that is already allocated.

ghost use Rattle.std.specs.Prelude.{◌≡◌, ◌≤◌, ◌++◌, [], length, take};
ghost use Rattle.std.specs.Vec.{vec_capacity};

// Copies the first `size` octets.
pub(crate) fn copy_front(to: &mut Vec<u8>, octets: &[u8], size: usize)
    requires empty { to.old.items ≡ [] }
    requires size { size ≤ length octets.now }
    requires room { size ≤ vec_capacity to.old }
    ensures { to.new.items ≡ take size octets.now }
{
    let _ = to.extend_from_slice(octets.split_at(size).0);
}
