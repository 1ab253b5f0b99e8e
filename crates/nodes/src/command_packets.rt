// Command packets.

ghost use Rattle.std.specs.Prelude.{◌≡◌, ◌++◌, ◌∷◌, [], true, false, None, Some, IfOk, IfErr, IfSome};
ghost use Rattle.map_service.specs.Packets.{packets_in};
ghost use Rattle.space_packet.specs.Layout.{packet_view};
ghost use Rattle.nodes.specs.CommandPackets.{is_command_packet, are_commands, commands_fault, slices_view};
ghost use Rattle.nodes.specs.Submissions.{packets_held};

use crate::fault::LinkFault;
use map_service::Limits;
use space_packet::{Packet, PacketKind, decode, is_idle_apid};
use std::alloc::Global;

// The packets of a submission: its octets as a single packet, or the list of several packets.
#[derive(Drop)]
pub(crate) struct Packets<'a> {
    pub(crate) whole: [&'a [u8]; 1],
    pub(crate) several: Option<Vec<&'a [u8]>>,
}

// Splits octets into command packets: exactly one or, with blocking, one or more without a gap.
// Returns None if there is no memory for the list. Refuses 3 `NotCommand`, then 4 `TooLong`.
pub(crate) fn commands_in<'a>(
    alloc: Global,
    octets: &'a [u8],
    limits: &Limits,
) -> Result<Option<Packets<'a>>, LinkFault>
    ensures packets { IfOk result (λ found. IfSome found (λ p. packets_held p ≡ packets_in octets.now)) }
    ensures ok { IfOk result (λ _. commands_fault limits.now octets.now ≡ None) }
    ensures err { IfErr result (λ e. commands_fault limits.now octets.now ≡ Some e) }
{
    let whole = [octets];
    if limits.blocking {
        return match several_commands(alloc, octets, limits)? {
            Some(packets) => Ok(Some(Packets {
                whole,
                several: Some(packets),
            })),
            None => Ok(None),
        };
    }
    if !is_one_command(octets) {
        return Err(LinkFault::NotCommand);
    }
    if limits.is_too_long(octets.len()) {
        return Err(LinkFault::TooLong);
    }
    Ok(Some(Packets {
        whole,
        several: None,
    }))
}

// Returns whether the octets are exactly one command packet.
pub(crate) fn is_one_command(octets: &[u8]) -> bool
    ensures { result ≡ are_commands false octets.now }
{
    match decode(octets) {
        Ok((packet, size)) => size == octets.len() && is_command_packet(&packet),
        Err(_) => false,
    }
}

// Splits octets into one or more command packets. The list is complete only if its memory suffices.
fn several_commands<'a>(
    alloc: Global,
    octets: &'a [u8],
    limits: &Limits,
) -> Result<Option<Vec<&'a [u8]>>, LinkFault>
    requires { limits.now.blocking ≡ true }
    ensures packets { IfOk result (λ found. IfSome found (λ v. slices_view v.items ≡ packets_in octets.now)) }
    ensures ok { IfOk result (λ _. commands_fault limits.now octets.now ≡ None) }
    ensures err { IfErr result (λ e. commands_fault limits.now octets.now ≡ Some e) }
{
    let mut packets = Vec::new(alloc);
    let mut kept = true;
    let mut too_long = false;
    let mut rest = octets;
    'packets: while let Ok((packet, size)) = decode(rest) {
        if !is_command_packet(&packet) {
            return Err(LinkFault::NotCommand);
        }
        too_long |= limits.is_too_long(size);
        let (first, behind) = rest.split_at(size);
        kept = keep(kept, &mut packets, first);
        rest = behind;
    }
    if octets.is_empty() || !rest.is_empty() {
        return Err(LinkFault::NotCommand);
    }
    if too_long {
        return Err(LinkFault::TooLong);
    }
    if kept { Ok(Some(packets)) } else { Ok(None) }
}

// Adds octets to a list that is complete so far, and returns whether the list is still complete.
fn keep<'a>(kept: bool, list: &mut Vec<&'a [u8]>, octets: &'a [u8]) -> bool
    ensures { result ≡ true → (kept ≡ true)
        × (slices_view list.new.items ≡ slices_view list.old.items ++ octets.now ∷ []) }
{
    kept && list.push(octets).is_ok()
}

fn is_command_packet(packet: &Packet<'_>) -> bool
    ensures { result ≡ is_command_packet (packet_view packet.now) }
{
    match packet.kind {
        PacketKind::Telecommand => !is_idle_apid(packet.apid),
        PacketKind::Telemetry => false,
    }
}
