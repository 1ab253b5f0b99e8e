// Each node by its public calls, with each of its growths refused in turn. A test here reports each refused
// growth, and makes one more at its end. No function here has a clause, so the node's state is not in the
// proof of a test; the run compares the answers.

mod failover;
mod fates;
mod ground;
mod resume;
mod spacecraft;
mod telemetry;

use crate::tests::common::{ends_growths, equal, says_refused};
pub use ground::{Ask, Standing, asks};
use nodes::ValidConfig;
use std::alloc::Global;
use std::process::Abort;
use tc_link::{Config, LinkFault};

/// A node whose calls are tested.
pub trait Node<C> {
    fn create(alloc: Global, config: &ValidConfig) -> Result<Self, LinkFault>;

    fn length_of_frames(&self) -> usize;

    /// Makes a call, and compares its answer. If memory is refused, nothing changes, and the repeated call
    /// succeeds.
    fn answers(&mut self, rt: &(impl Abort + Eprint), call: &C);
}

/// Checks that a new node answers the calls of these rows as they state.
pub fn plays<N: Node<C> + Drop, C>(
    rt: &(impl Abort + Eprint),
    alloc: Global,
    config: &Config,
    rows: &[C],
) {
    let valid = config.valid().expect(rt, "a configuration");
    let mut node = match N::create(alloc, &valid) {
        Err(fault) => {
            says_refused(rt, fault.number(), 6);
            N::create(alloc, &valid).expect(rt, "a node")
        }
        Ok(node) => node,
    };
    equal(
        rt,
        &node.length_of_frames(),
        &(config.frame_length as usize),
    );
    for call in rows {
        node.answers(rt, call);
    }
    ends_growths(rt, alloc);
}
