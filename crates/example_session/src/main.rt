//! Runs a session over both nodes and a link that loses frames. Packets are submitted when the queue has
//! room, and each round is a tick of the clock. After an alert, a CLCW shows which packets were accepted on
//! board without an acknowledgement that was heard. A new session submits only the others, so each packet is
//! delivered once.
#![tactic(auto)]

use anyhow::{Context, Error, Result};
use cop1::{Alert, CopFault, Directive, FopMode};
use nodes::{Config, Ground, Heard, HeardReport, Spacecraft};
use tm_link::decode;

// The number of packets sent on MAP 4. Each has 7 octets and is one segment.
const PACKETS: usize = 8;

// A link that loses every fifth frame, in either direction, and once ten in a row.
#[derive(Clone, Copy)]
struct Link {
    frames: u32,
}

impl Link {
    fn carries(&mut self) -> bool {
        self.frames = self.frames.wrapping_add(1);
        let is_dark = self.frames > 7 && self.frames <= 17;
        self.frames % 5 != 0 && !is_dark
    }
}

fn main(rt: HostRuntime) -> Result<()> {
    // The CLCW arrives in the round in which the frame was sent, so a timer of 3 ticks is long enough.
    let config = Config {
        window: 4,
        limit: 2,
        timer: 3,
        queue_slots: 2,
        ..Config::default()
    };
    let config = match config.valid() {
        Ok(config) => config,
        Err(field) => {
            println!(rt; "{field} is out of its range")?;
            return Ok(());
        }
    };
    let mut ground = Ground::of(rt.alloc(), &config)?;
    let mut spacecraft = Spacecraft::of(rt.alloc(), &config)?;
    play(&rt, &mut ground, &mut spacecraft)
}

fn play(rt: &HostRuntime, ground: &mut Ground, spacecraft: &mut Spacecraft) -> Result<()> {
    let mut link = Link { frames: 0 };
    // How many packets were submitted, and how many the ground knows to be accepted.
    let mut submitted = 0;
    let mut accepted = 0_usize;
    begin(ground, 0)?;
    for round in 1..=100_u32 {
        submitted = submit_from(ground, submitted);
        carry_up(ground, spacecraft, &mut link)?;
        deliver(rt, spacecraft)?;
        let nn = ground.nn();
        let (value, heard) = carry_down(ground, spacecraft, &mut link)?;
        accepted = accepted.wrapping_add(usize::from(ground.nn().wrapping_sub(nn)));
        if let Some(alert) = heard.or(ground.tick()) {
            println!(rt; "round {round}: {alert:?}; {accepted} are acknowledged")?;
        }
        if accepted == PACKETS {
            println!(rt; "round {round}: all are acknowledged")?;
            return Ok(());
        }
        if let (FopMode::S6, Some(vr)) = (ground.state(), value) {
            let more = ground
                .accepted_beyond(vr)
                .context("nothing is known of what is not acknowledged")?;
            accepted = accepted.wrapping_add(usize::from(more));
            println!(rt; "round {round}: {more} more were accepted; again from packet {accepted}")?;
            submitted = accepted;
            begin(ground, vr)?;
        }
    }
    Err(Error::msg("not all were acknowledged"))
}

// Begins a session at the number that the spacecraft expects. Unlock clears the spacecraft's flags and ends a
// Lockout.
fn begin(ground: &mut Ground, vr: u8) -> Result<Option<Alert>, CopFault> {
    ground.directive(Directive::SetVs(vr))?;
    ground.directive(Directive::InitUnlock)
}

// Submits packets from this one on until the queue is full, and returns the number of the first not
// submitted.
fn submit_from(ground: &mut Ground, first: usize) -> usize {
    for number in first..PACKETS {
        let packet = [0x10, 0x05, 0xc0, number as u8, 0x00, 0x00, number as u8];
        if ground.submit(4, &packet).is_err() {
            return number;
        }
    }
    PACKETS
}

// Carries the ground's frames up until it has no more to send now.
fn carry_up(ground: &mut Ground, spacecraft: &mut Spacecraft, link: &mut Link) -> Result<()> {
    let mut up = [0; 1024];
    for _ in 0..256 {
        let Some(size) = ground.pull(&mut up) else {
            break;
        };
        if link.carries() {
            spacecraft.receive(&up[..size])?;
        }
    }
    Ok(())
}

// Prints the packets that are delivered.
fn deliver(rt: &HostRuntime, spacecraft: &mut Spacecraft) -> Result<()> {
    for _ in 0..64 {
        let Some((map, packet)) = spacecraft.take() else {
            break;
        };
        println!(rt; "MAP {map} {}", hex::encode_upper(rt.alloc(), &packet)?)?;
    }
    Ok(())
}

// Carries a CLCW down. Returns its report value, if it arrives, and the alert, if it raises one.
fn carry_down(
    ground: &mut Ground,
    spacecraft: &mut Spacecraft,
    link: &mut Link,
) -> Result<(Option<u8>, Option<Alert>)> {
    let mut down = [0; 2048];
    let size = spacecraft.report(&mut down);
    if !link.carries() {
        return Ok((None, None));
    }
    match ground.telemetry(&down[..size])? {
        Heard::Frame {
            alert,
            report: HeardReport::Used,
            ..
        } => Ok((value_of(&down[..size]), alert)),
        _ => Ok((None, None)),
    }
}

// Returns the report value of the CLCW in a telemetry frame, which is V(R) on board.
fn value_of(octets: &[u8]) -> Option<u8> {
    let frame = decode(octets, octets.len()).ok()?;
    Some(frame.report().ok()?.value)
}
