//! Sends one command packet from the ground to a spacecraft, and the CLCW that acknowledges it back.
#![tactic(auto)]

use anyhow::Result;
use cop1::Directive;
use nodes::{Config, Ground, Spacecraft};

fn main(rt: HostRuntime) -> Result<()> {
    let config = Config::default();
    let mut ground = Ground::new(rt.alloc(), &config)?;
    let mut spacecraft = Spacecraft::new(rt.alloc(), &config)?;
    exchange(&rt, &mut ground, &mut spacecraft)
}

fn exchange(rt: &HostRuntime, ground: &mut Ground, spacecraft: &mut Spacecraft) -> Result<()> {
    let begun = ground.directive(Directive::InitWithoutCheck);
    let taken = ground.submit(4, &[0x10, 0x05, 0xc0, 0x00, 0x00, 0x00, 0xaa]);
    println!(rt; "{begun:?} {taken:?}")?;
    let mut up = [0; 1024];
    if let Some(size) = ground.pull(&mut up) {
        println!(rt; "frame {}", hex::encode_upper(rt.alloc(), &up[..size])?)?;
        println!(rt; "{:?}", spacecraft.receive(&up[..size]))?;
    }
    if let Some((map, packet)) = spacecraft.take() {
        println!(rt; "MAP {map} {}", hex::encode_upper(rt.alloc(), &packet)?)?;
    }
    let mut down = [0; 2048];
    let size = spacecraft.report(&mut down);
    println!(rt; "{:?}", ground.telemetry(&down[..size]))?;
    println!(rt; "{:?} outstanding={}", ground.state(), ground.outstanding())?;
    Ok(())
}
