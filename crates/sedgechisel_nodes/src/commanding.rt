// The commander of a program in C, which is opened and closed.

mod actions;
mod commands;
mod hearing;
mod readings;

ghost use Rattle.std.specs.Prelude.{◌≡◌, ◌≢◌, ◌⊎◌, Option, Some, None};
ghost use Rattle.kept.specs.KeptBox.{kept_owns, heap_token};
ghost use Rattle.commander.specs.declared.commander.Commander.{Commander};
ghost use Rattle.commander.specs.contracts.commander.Commander as commander_node;
ghost use Rattle.sedgechisel_nodes.specs.Commanding.{mission_of, IsCommanderOpened};

use crate::answers::{NO_MEMORY, OUT_OF_RANGE};
use crate::holds::{Holds, open, take};
use commander::{Commander, Mission};
use kept::Kept;
use nodes::Config;
use std::alloc::Global;
use std::marker::Model;

/// A commander, or null for none. For C it is `struct sedge_commander`.
#[repr(C)]
pub struct CommanderHandle {
    at: *mut u8,
    pub ghost value: { Option Commander },
}

impl Model for CommanderHandle {
    ghost also_owns = { λ h. kept_owns heap_token commander_node.the_row h.at h.value };
}

impl Holds for CommanderHandle {
    type Node = Commander;

    ghost held = { λ h. h.value };

    fn of(kept: Kept<Commander, Global>) -> CommanderHandle
        ensures { result.value ≡ kept.value }
    {
        let Kept { at, alloc: _ } = kept;
        CommanderHandle { at: at as *mut u8 }
    }

    fn into_kept(self, alloc: Global) -> Kept<Commander, Global> {
        let CommanderHandle { at } = self;
        Kept {
            at: at as *mut Commander,
            alloc,
        }
    }
}

/// The settings of a mission. For C it is `struct sedge_mission`.
#[repr(C)]
#[derive(Clone, Copy)]
pub struct MissionSettings {
    /// The longest time in ticks from sending a frame to the arrival of a CLCW and of a status that were both
    /// made after the frame arrived.
    pub round_trip: u32,
    /// The APID of orders, 0 to 2,046.
    pub orders: u16,
    /// The APID of the board's status.
    pub status: u16,
    /// The MAP of orders, one that is open.
    pub map: u8,
    /// 1 if sending stops after a restart of the board, or the loss of its record, until
    /// `sedge_commander_go_on` is called, otherwise 0. The first status of a board counts as a restart. No
    /// pause is stored.
    pub holds: u8,
}

fn mission_of(settings: &MissionSettings) -> Mission
    ensures { result ≡ mission_of settings.now }
{
    Mission {
        round_trip: settings.round_trip,
        map: settings.map,
        orders: settings.orders,
        status: settings.status,
        holds: settings.holds == 1,
    }
}

// Puts a new commander into the handle, and writes how many octets of its store are good.
fn opened(
    alloc: Global,
    handle: &mut CommanderHandle,
    node: Commander,
    read: usize,
    good: &mut usize,
) -> u8
    ensures answer { (result ≡ 0) ⊎ (result ≡ 9) }
    ensures opened { result ≡ 0 → (handle.new.value ≡ Some node) × (good.new ≡ read) }
    ensures unchanged { result ≢ 0 → (handle.new.value ≡ handle.old.value) × (good.new ≡ good.old) }
{
    if open(handle, alloc, node) != 0 {
        return NO_MEMORY;
    }
    *good = read;
    0
}

/// Opens a commander, with a ground in S6, from the octets of its store; a new store has none. The commander
/// replaces any that the handle holds, as `sedge_ground_open` does. Writes how many octets of the store are
/// good: truncate the store to this length before you append to it. Returns 0, `SEDGE_LEDGER_OUT_OF_RANGE` (a
/// parameter, or `holds`), or the first that applies of `SEDGE_LEDGER_FIELD_RANGE` (the MAP of orders is not
/// open, or their APID is above 2,046), `SEDGE_LEDGER_TOO_LONG` (`part` or `max_packet` is below 23) and
/// `SEDGE_LEDGER_MEMORY`.
#[unsafe(no_mangle)]
#[must_use]
pub extern "C" fn sedge_commander_open(
    alloc: Global,
    commander: &mut CommanderHandle,
    config: &Config,
    mission: &MissionSettings,
    store: &[u8],
    good: &mut usize,
) -> u8
    ensures { IsCommanderOpened config.now mission.now store.now
        commander.old.value commander.new.value result good.old good.new }
{
    let Ok(valid) = config.valid() else {
        return OUT_OF_RANGE;
    };
    if mission.holds > 1 {
        return OUT_OF_RANGE;
    }
    match Commander::open(alloc, &valid, &mission_of(mission), store) {
        Ok((node, read)) => opened(alloc, commander, node, read, good),
        Err(fault) => fault.number(),
    }
}

/// Closes the commander, if there is one; the handle then holds none.
#[unsafe(no_mangle)]
pub extern "C" fn sedge_commander_close(alloc: Global, commander: &mut CommanderHandle)
    ensures { commander.new.value ≡ None }
{
    drop(take(commander, alloc));
}
