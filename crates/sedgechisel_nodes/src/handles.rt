// The handles of a program in C, which are opened and closed.

ghost use Rattle.std.specs.Prelude.{◌≡◌, Option, None};
ghost use Rattle.kept.specs.KeptBox.{kept_owns, heap_token};
ghost use Rattle.nodes.specs.Ground.{GroundState, new_ground};
ghost use Rattle.nodes.specs.Spacecraft.{SpacecraftState, new_spacecraft, restarted_spacecraft};
ghost use Rattle.nodes.specs.contracts.ground_node.Ground as ground_node;
ghost use Rattle.nodes.specs.contracts.spacecraft.Spacecraft as spacecraft_node;
ghost use Rattle.sedgechisel_nodes.specs.Calls.{IsOpened, IsOpenedAs};
ghost use Rattle.sedgechisel_nodes.specs.Spacecraft.{IsRestart, numbers_read};
ghost use Rattle.sedgechisel_nodes.specs.Links.{LinkState};
ghost use Rattle.sedgechisel_nodes.specs.Links.{new_link};
ghost use Rattle.sedgechisel_nodes.specs.contracts.sim.link.Link as link;

use crate::answers::{MEMORY, OUT_OF_RANGE};
use crate::holds::{Holds, open, take};
use crate::readings::BoardReading;
use crate::sim::link::Link;
use kept::Kept;
use nodes::{Config, Ground, KeptNumbers, Spacecraft};
use std::alloc::Global;
use std::marker::Model;

// Opens a node, built from parameters in range, instead of one that was there. Returns 0, 254 if a parameter
// is out of range, or 6 if memory runs out.
macro_rules! opened {
    ($alloc:expr, $handle:expr, $config:expr, $make:path) => {{
        let Ok(valid) = $config.valid() else {
            return OUT_OF_RANGE;
        };
        match $make($alloc, &valid) {
            Ok(node) => open($handle, $alloc, node),
            Err(_) => MEMORY,
        }
    }};
}

/// A ground, or null for none. For C it is `struct sedge_ground`.
#[repr(C)]
pub struct GroundHandle {
    at: *mut u8,
    pub ghost value: { Option GroundState },
}

impl Model for GroundHandle {
    ghost also_owns = { λ h. kept_owns heap_token ground_node.the_row h.at h.value };
}

impl Holds for GroundHandle {
    type Node = Ground;

    ghost held = { λ h. h.value };

    fn of(kept: Kept<Ground, Global>) -> GroundHandle
        ensures { result.value ≡ kept.value }
    {
        let Kept { at, alloc: _ } = kept;
        GroundHandle { at: at as *mut u8 }
    }

    fn into_kept(self, alloc: Global) -> Kept<Ground, Global> {
        let GroundHandle { at } = self;
        Kept {
            at: at as *mut Ground,
            alloc,
        }
    }
}

/// Opens a ground, which replaces any ground that the handle holds. The old ground is released once the new
/// one is built: it stays if the call is refused, and until then both occupy memory. If there is memory only
/// for one, close the handle first. Returns 0, `SEDGE_NODE_OUT_OF_RANGE` or `SEDGE_NODE_MEMORY`.
#[unsafe(no_mangle)]
#[must_use]
pub extern "C" fn sedge_ground_open(alloc: Global, ground: &mut GroundHandle, config: &Config) -> u8
    ensures { IsOpened config.now new_ground ground.old.value ground.new.value result }
{
    opened!(alloc, ground, config, Ground::of)
}

/// Closes the ground, if there is one; the handle then holds none.
#[unsafe(no_mangle)]
pub extern "C" fn sedge_ground_close(alloc: Global, ground: &mut GroundHandle)
    ensures { ground.new.value ≡ None }
{
    drop(take(ground, alloc));
}

/// A spacecraft, or null for none. For C it is `struct sedge_spacecraft`.
#[repr(C)]
pub struct SpacecraftHandle {
    at: *mut u8,
    pub ghost value: { Option SpacecraftState },
}

impl Model for SpacecraftHandle {
    ghost also_owns = { λ h. kept_owns heap_token spacecraft_node.the_row h.at h.value };
}

impl Holds for SpacecraftHandle {
    type Node = Spacecraft;

    ghost held = { λ h. h.value };

    fn of(kept: Kept<Spacecraft, Global>) -> SpacecraftHandle
        ensures { result.value ≡ kept.value }
    {
        let Kept { at, alloc: _ } = kept;
        SpacecraftHandle { at: at as *mut u8 }
    }

    fn into_kept(self, alloc: Global) -> Kept<Spacecraft, Global> {
        let SpacecraftHandle { at } = self;
        Kept {
            at: at as *mut Spacecraft,
            alloc,
        }
    }
}

/// Opens a spacecraft, which replaces any that the handle holds, as `sedge_ground_open` does. Returns 0,
/// `SEDGE_NODE_OUT_OF_RANGE` or `SEDGE_NODE_MEMORY`.
#[unsafe(no_mangle)]
#[must_use]
pub extern "C" fn sedge_spacecraft_open(
    alloc: Global,
    spacecraft: &mut SpacecraftHandle,
    config: &Config,
) -> u8
    ensures { IsOpened config.now new_spacecraft spacecraft.old.value spacecraft.new.value result }
{
    opened!(alloc, spacecraft, config, Spacecraft::of)
}

/// Opens a spacecraft that continues with what `sedge_spacecraft_read` wrote before a deliberate restart:
/// V(R) (in `value`), `farm_b`, and the telemetry frame counts. The other fields are not read. The receiver
/// is Open with no flag set, and no packet is on board. Replaces a spacecraft as `sedge_spacecraft_open`
/// does. Returns 0, `SEDGE_NODE_OUT_OF_RANGE` (also if `farm_b` is above 3) or `SEDGE_NODE_MEMORY`.
#[unsafe(no_mangle)]
#[must_use]
pub extern "C" fn sedge_spacecraft_open_kept(
    alloc: Global,
    spacecraft: &mut SpacecraftHandle,
    config: &Config,
    kept: &BoardReading,
) -> u8
    ensures { IsOpenedAs (IsRestart config.now kept.now)
        (restarted_spacecraft config.now (numbers_read kept.now))
        spacecraft.old.value spacecraft.new.value result }
{
    let Ok(valid) = config.valid() else {
        return OUT_OF_RANGE;
    };
    if kept.farm_b >= 4 {
        return OUT_OF_RANGE;
    }
    match Spacecraft::restarted(alloc, valid.config(), numbers_of(kept)) {
        Ok(node) => open(spacecraft, alloc, node),
        Err(_) => MEMORY,
    }
}

// The numbers that are kept of a spacecraft, taken from a reading.
fn numbers_of(read: &BoardReading) -> KeptNumbers
    ensures { result ≡ numbers_read read.now }
{
    KeptNumbers {
        vr: read.value,
        farm_b: read.farm_b,
        mc_count: read.mc_count,
        vc_count: read.vc_count,
    }
}

/// Closes the spacecraft, if there is one; the handle then holds none.
#[unsafe(no_mangle)]
pub extern "C" fn sedge_spacecraft_close(alloc: Global, spacecraft: &mut SpacecraftHandle)
    ensures { spacecraft.new.value ≡ None }
{
    drop(take(spacecraft, alloc));
}

/// A simulated link, or null for none. For C it is `struct sedge_sim`.
#[repr(C)]
pub struct SimHandle {
    at: *mut u8,
    pub ghost value: { Option LinkState },
}

impl Model for SimHandle {
    ghost also_owns = { λ h. kept_owns heap_token link.the_row h.at h.value };
}

impl Holds for SimHandle {
    type Node = Link;

    ghost held = { λ h. h.value };

    fn of(kept: Kept<Link, Global>) -> SimHandle
        ensures { result.value ≡ kept.value }
    {
        let Kept { at, alloc: _ } = kept;
        SimHandle { at: at as *mut u8 }
    }

    fn into_kept(self, alloc: Global) -> Kept<Link, Global> {
        let SimHandle { at } = self;
        Kept {
            at: at as *mut Link,
            alloc,
        }
    }
}

/// Opens a link with two new nodes, which replaces any that the handle holds, as `sedge_ground_open` does.
/// Returns 0, `SEDGE_NODE_OUT_OF_RANGE` or `SEDGE_NODE_MEMORY`.
#[unsafe(no_mangle)]
#[must_use]
pub extern "C" fn sedge_sim_open(alloc: Global, sim: &mut SimHandle, config: &Config) -> u8
    ensures { IsOpened config.now new_link sim.old.value sim.new.value result }
{
    if config.fault().is_some() {
        return OUT_OF_RANGE;
    }
    match Link::new(alloc, config) {
        Some(link) => open(sim, alloc, link),
        None => MEMORY,
    }
}

/// Closes the link, if there is one; the handle then holds none.
#[unsafe(no_mangle)]
pub extern "C" fn sedge_sim_close(alloc: Global, sim: &mut SimHandle)
    ensures { sim.new.value ≡ None }
{
    drop(take(sim, alloc));
}
