// The records of the frames accepted on board.

ghost use Rattle.std.specs.Prelude.{◌≡◌, ◌≤◌, ◌<◌, ◌++◌, ℕ, length, option_map, option_to_list, None, IsOk, OnOk, IfSome};
ghost use Rattle.tm_link.specs.Extractor.{octets_of};
ghost use Rattle.simulated_link.specs.Acceptance.{acceptance_view};
ghost use Rattle.simulated_link.specs.WorldFields.{HasRoomFor, packets_accepted_on};
ghost use Rattle.simulated_link.specs.MapLists.{packets_at};

use crate::acceptance::Acceptance;
use crate::map_lists::{append_on, make_room};
use std::alloc::AllocError;

// Makes room for the data field and the packets of a frame that will be accepted, if there is one.
pub(super) fn make_room_for(
    accepted: &mut Vec<Vec<u8>>,
    delivered: &mut [Vec<Vec<u8>>; 64],
    acceptance: &Option<Acceptance>,
) -> Result<(), AllocError>
    requires { IfSome acceptance.now (λ f. f.map < 64) }
    ensures accepted { accepted.new.items ≡ accepted.old.items }
    ensures delivered { (m : ℕ) → packets_at delivered.new m ≡ packets_at delivered.old m }
    ensures room { OnOk result (HasRoomFor accepted.new delivered.new acceptance.now) }
    ensures none { acceptance.now ≡ None → IsOk result }
{
    if let Some(acceptance) = acceptance {
        accepted.try_reserve(1)?;
        make_room(delivered, acceptance.map, acceptance.packets.len())?;
    }
    Ok(())
}

// Records an acceptance, if there is one. There must be room for it.
pub(super) fn record_accepted(
    accepted: &mut Vec<Vec<u8>>,
    delivered: &mut [Vec<Vec<u8>>; 64],
    acceptance: Option<Acceptance>,
)
    requires { HasRoomFor accepted.old delivered.old acceptance }
    ensures accepted { octets_of accepted.new.items ≡ octets_of accepted.old.items
        ++ option_to_list (option_map (λ f. f.field.items) acceptance) }
    ensures more { length accepted.old.items ≤ length accepted.new.items }
    ensures delivered { (m : ℕ) → packets_at delivered.new m ≡ packets_at delivered.old m
        ++ packets_accepted_on m (option_map acceptance_view acceptance) }
{
    if let Some(acceptance) = acceptance {
        accepted.push_reserved(acceptance.field);
        append_on(delivered, acceptance.map, acceptance.packets);
    }
}
