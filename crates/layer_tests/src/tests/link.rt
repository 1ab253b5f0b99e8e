// The simulated link by its public calls.

mod many_packets;
mod twins;
mod without_memory;

use super::common::equal;
use nodes::{PARAMETERS, Parameter};
use std::process::Abort;
use tc_link::{Config, Event, LinkFault, Reply, Sim, SimFault};
use tm_link::TmFault;

/// Lets an event happen to a link. It has no clause, so the link's state is not in the proof of a test.
pub fn step(sim: &mut Sim, event: Event<'_>) -> Result<Reply, SimFault> {
    sim.step(event)
}

#[test]
fn parameters(rt: HostRuntime) {
    let mut config = Config::default();
    has_fault(&rt, &config, None);
    for parameter in PARAMETERS {
        takes_most(&rt, &mut config, parameter);
    }
    has_fault(&rt, &config, None);
    equal(&rt, &config.frame_length, &2048);
    for (parameter, value, fault) in [
        (Parameter::Blocking, 2, "blocking"),
        (Parameter::Width, 10, "window"),
        (Parameter::Width, 3, "width"),
        (Parameter::TmVcid, 8, "tm_vcid"),
    ] {
        config.set(parameter, value);
        has_fault(&rt, &config, Some(fault));
    }
}

fn has_fault(rt: &impl Abort, config: &Config, fault: Option<&str>) {
    equal(rt, &config.fault(), &fault);
}

// Checks that a parameter is found by its name, and takes its highest value.
fn takes_most(rt: &impl Abort, config: &mut Config, parameter: Parameter) {
    let found = Parameter::named(parameter.name().as_bytes());
    equal(rt, &found, &Some(parameter));
    config.set(parameter, parameter.most());
    equal(rt, &config.value(parameter), &parameter.most());
}

#[test]
fn names(rt: HostRuntime) {
    equal(&rt, &Parameter::named(b"colour"), &None);
    let fault = LinkFault::Memory;
    equal(&rt, &(fault.number(), fault.name()), &(6, "Memory"));
    equal(&rt, &TmFault::Memory.number(), &7);
}
