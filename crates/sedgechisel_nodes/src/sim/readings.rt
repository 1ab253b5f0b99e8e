// What a program in C reads from a simulated link and its nodes.

ghost use Rattle.std.specs.Prelude.{◌≡◌, Some};
ghost use Rattle.sedgechisel_nodes.specs.Calls.{IsRead, next_answer, IsHanding};
ghost use Rattle.sedgechisel_nodes.specs.Ground.{reading_of};
ghost use Rattle.sedgechisel_nodes.specs.Links.{begun_number, link_reading_of};
ghost use Rattle.sedgechisel_nodes.specs.Spacecraft.{board_reading_of};

use crate::handles::SimHandle;
use crate::readings::{BoardReading, GroundReading, board_reading, number_of_mode, reading};
use crate::room::hand_out;
use cop1::Directive;
use std::alloc::Global;
use tc_link::Sim;

/// A reading of a simulated link.
#[repr(C)]
#[derive(Clone, Copy)]
pub struct SimReading {
    /// The number of segments that were submitted and are not acknowledged.
    pub outstanding: usize,
    /// How many of the frames sent, counted from the first, the ground regards as acknowledged.
    pub acknowledged: usize,
    /// The state of the ground's sender, of `sedge_fop_state`.
    pub state: u8,
    /// Of `sedge_begun`.
    pub begun: u8,
    /// The number of Set V(R).
    pub vr: u8,
    /// The session began with nothing in transit and, if without a CLCW check, with V(R) equal to V(S).
    pub clean: bool,
    /// The session had an idle start (docs/PROMISES.md).
    pub idle: bool,
    /// A CLCW has taken the ground from S4 or S5 to S1.
    pub confirmed: bool,
}

fn number_of_beginning(directive: Option<Directive>) -> (u8, u8)
    ensures { result ≡ begun_number directive }
{
    match directive {
        Some(Directive::InitWithoutCheck) => (1, 0),
        Some(Directive::InitWithCheck) => (2, 0),
        Some(Directive::InitUnlock) => (3, 0),
        Some(Directive::InitSetVr(vr)) => (4, vr),
        _ => (0, 0),
    }
}

fn link_reading(sim: &Sim) -> SimReading
    ensures { result ≡ link_reading_of sim.now.world }
{
    let (begun, vr) = number_of_beginning(sim.begun());
    SimReading {
        outstanding: sim.outstanding(),
        acknowledged: sim.acknowledged(),
        state: number_of_mode(sim.state()),
        begun,
        vr,
        clean: sim.clean().unwrap_or(false),
        idle: sim.idle().unwrap_or(false),
        confirmed: sim.confirmed(),
    }
}

/// Reads the link: how the session began and how far it is. The link does not change. Returns 0.
#[unsafe(no_mangle)]
pub extern "C" fn sedge_sim_read(alloc: Global, sim: &mut SimHandle, read: &mut SimReading) -> u8
    ensures { IsRead (λ l. Some (link_reading_of l.world)) sim.old.value sim.new.value result read.old read.new }
{
    read!(alloc, sim, read, |link| link_reading(link.sim()))
}

/// Reads the link's ground, as `sedge_ground_read` reads a ground. The link does not change. Returns 0.
#[unsafe(no_mangle)]
pub extern "C" fn sedge_sim_ground_read(
    alloc: Global,
    sim: &mut SimHandle,
    read: &mut GroundReading,
) -> u8
    ensures { IsRead (λ l. Some (reading_of l.world.ground_node))
        sim.old.value sim.new.value result read.old read.new }
{
    read!(alloc, sim, read, |link| reading(link.sim().ground()))
}

/// Reads the link's spacecraft, as `sedge_spacecraft_read` reads a spacecraft. The link does not change.
/// Returns 0.
#[unsafe(no_mangle)]
pub extern "C" fn sedge_sim_spacecraft_read(
    alloc: Global,
    sim: &mut SimHandle,
    read: &mut BoardReading,
) -> u8
    ensures { IsRead (λ l. Some (board_reading_of l.world.spacecraft))
        sim.old.value sim.new.value result read.old read.new }
{
    read!(
        alloc,
        sim,
        read,
        |link| board_reading(link.sim().spacecraft())
    )
}

/// Writes the octets of the last event's frame or packet, and their number, which is the reply's `count`; or
/// 0 octets if the reply had none. They can be read again. Returns 0 or `SEDGE_NODE_ROOM`.
#[unsafe(no_mangle)]
#[must_use]
pub extern "C" fn sedge_sim_octets(
    alloc: Global,
    sim: &mut SimHandle,
    out: &mut [u8],
    count: &mut usize,
) -> u8
    ensures octets { IsHanding next_answer (λ l. Some l.octets)
        sim.old.value result count.old count.new out.old out.new }
    ensures unchanged { sim.new.value ≡ sim.old.value }
{
    held!(alloc, sim, |link| hand_out(Some(link.octets()), out, count))
}
