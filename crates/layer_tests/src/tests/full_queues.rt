// Full queues. The fault is returned before memory is requested, so a test may not report a refused growth.

use super::common::{with_parts, with_value};
use super::frames::{P0, P1, THREE};
use super::node_calls::{Ask, asks};
use cop1::{Directive, FopMode};
use nodes::Parameter;
use tc_link::{Config, LinkFault};

const FULL: Result<(), LinkFault> = Err(LinkFault::QueueFull);

#[test]
fn full_queues(rt: HostRuntime) {
    use FopMode::S1;
    let config = Config {
        queue_slots: 2,
        ..with_parts(4, 1)
    };
    let init = Ask::Directive(Directive::InitWithoutCheck, Ok(None));
    let rows = [
        (init, (S1, 0, 0, 0)),
        (Ask::Submit(&THREE, FULL), (S1, 0, 0, 0)),
        (Ask::Submit(&P0, Ok(())), (S1, 0, 0, 2)),
        (Ask::Submit(&P0, FULL), (S1, 0, 0, 2)),
        (Ask::Advance, (S1, 1, 0, 2)),
        (Ask::Submit(&P0, FULL), (S1, 1, 0, 2)),
        (Ask::Advance, (S1, 2, 0, 2)),
        (Ask::Submit(&P1, Ok(())), (S1, 2, 0, 4)),
    ];
    asks(&rt, rt.alloc(), &config, &rows);
}

#[test]
fn a_full_bypass_queue(rt: HostRuntime) {
    use FopMode::S6;
    let config = with_value(Parameter::QueueSlots, 1);
    let rows = [
        (Ask::Bypass(&P0, Ok(())), (S6, 0, 0, 0)),
        (Ask::Bypass(&P1, FULL), (S6, 0, 0, 0)),
        (Ask::Advance, (S6, 0, 0, 0)),
        (Ask::Bypass(&P1, Ok(())), (S6, 0, 0, 0)),
    ];
    asks(&rt, rt.alloc(), &config, &rows);
}
