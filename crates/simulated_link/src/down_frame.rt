// The next telemetry frame, written into memory that is already allocated.

ghost use Rattle.std.specs.Prelude.{◌≡◌, ◌≤◌, []};
ghost use Rattle.std.specs.Vec.{vec_capacity};
ghost use Rattle.tm_link.specs.Encoding.{spelling};
ghost use Rattle.nodes.specs.Spacecraft.{spacecraft_step, Report};

use crate::octet_copy::copy_front;
use nodes::Spacecraft;

#[tactic(auto, using(crate::proofs::Lists::front_is))]
pub(crate) fn put_report(spacecraft: &mut Spacecraft, to: &mut Vec<u8>)
    requires empty { to.old.items ≡ [] }
    requires room { spacecraft.old.config.frame_length ≤ vec_capacity to.old }
    ensures frame { to.new.items ≡ spelling (spacecraft_step spacecraft.old Report).answer }
    ensures after { spacecraft.new ≡ (spacecraft_step spacecraft.old Report).after }
{
    let mut out = [0; 2048];
    let size = spacecraft.report(&mut out);
    copy_front(to, &out, size);
}
