// The line of the records.

ghost use Rattle.std.specs.Prelude.{◌≡◌, ◌++◌, decimal, length};
ghost use Rattle.octets.specs.Beginning.{Appends};
ghost use Rattle.script.specs.Player.{clean_word, count_over_maps, packets_text, frames_text, acknowledged_text, show_text};
ghost use Rattle.simulated_link.specs.World.{submitted, delivered, accepted};

use simulated_link::{Opening, World};
use std::alloc::AllocError;
use std::fmt::Write;

fn clean_word(opening: Option<Opening>) -> &'static str
    ensures { result.now ≡ clean_word opening }
{
    match opening {
        None => "none",
        Some(Opening { clean: true, .. }) => "yes",
        Some(Opening { clean: false, .. }) => "no",
    }
}

// Returns how many packets were submitted, and how many are ready on board, over all MAPs.
fn count_packets(world: &World) -> (u128, u128)
    ensures submitted { result.0 ≡ count_over_maps (submitted world.now) }
    ensures delivered { result.1 ≡ count_over_maps (delivered world.now) }
{
    let mut of_submitted = 0u128;
    let mut of_delivered = 0u128;
    let mut map = 0u8;
    'maps: while map < 64 {
        of_submitted += world.submitted(map).len() as u128;
        of_delivered += world.delivered(map).len() as u128;
        map += 1;
    }
    (of_submitted, of_delivered)
}

fn count_sent(world: &World) -> usize
    ensures { result ≡ length world.now.session.sent }
{
    world.sent().len()
}

fn count_accepted(world: &World) -> usize
    ensures { result ≡ length (accepted world.now) }
{
    world.accepted().len()
}

fn push_count(text: &mut String, name: &str, count: usize) -> Result<(), AllocError>
    ensures { Appends result text.old text.new (name.now ++ decimal count) }
{
    write!(text, "{name}{count}")
}

// Appends the records of the packets.
fn push_packets(text: &mut String, world: &World) -> Result<(), AllocError>
    ensures { Appends result text.old text.new (packets_text world.now) }
{
    let clean = clean_word(world.opening());
    let state = world.ground_node().state().name();
    let (submitted, delivered) = count_packets(world);
    write!(
        text,
        "clean={clean} state={state} submitted={submitted} delivered={delivered}"
    )
}

// Appends the records of the frames.
fn push_frames(text: &mut String, world: &World) -> Result<(), AllocError>
    ensures { Appends result text.old text.new (frames_text world.now) }
{
    let sent = count_sent(world);
    let accepted = count_accepted(world);
    write!(text, " sent={sent} accepted={accepted}")
}

// Appends the records of what is acknowledged.
fn push_acknowledged(text: &mut String, world: &World) -> Result<(), AllocError>
    ensures { Appends result text.old text.new (acknowledged_text world.now) }
{
    push_count(text, " acknowledged=", world.acknowledged())?;
    push_count(text, " outstanding=", world.ground_node().outstanding())
}

/// Appends the records.
pub fn push_show(text: &mut String, world: &World) -> Result<(), AllocError>
    ensures { Appends result text.old text.new (show_text world.now) }
{
    push_packets(text, world)?;
    push_frames(text, world)?;
    push_acknowledged(text, world)
}
