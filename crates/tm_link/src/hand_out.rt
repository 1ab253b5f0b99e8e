// Delivering packets.

ghost use Rattle.std.specs.Prelude.{◌≡◌, ◌≤◌, ◌+◌, ◌++◌, [], ◌∷◌, length, IsTrue, IsOk, OnOk, IfOk, IfErr};
ghost use Rattle.octets.specs.Records.{records_of, rest_of};
ghost use Rattle.space_packet.specs.Decoding.{extent_at};
ghost use Rattle.tm_link.specs.Extractor.{completed_packet, finished_packets, without_idle, GrowsBy};
ghost use Rattle.tm_link.specs.Layout.{pointer_fits};
ghost use Rattle.tm_link.specs.PacketEnds.{rest_in_frame};

use crate::ending::{Ending, ending_with, is_idle_with};
use crate::fault::TmFault;
use crate::frame::Pointer;
use space_packet::packet_len;
use std::alloc::Global;

// Appends the packets that are finished with a frame's data. Returns what follows the whole packets
// that start in it.
pub(crate) fn find<'a>(
    alloc: Global,
    part: &[u8],
    pointer: Pointer,
    payload: &'a [u8],
    found: &mut Vec<Vec<u8>>,
) -> Result<&'a [u8], TmFault>
    requires { IsTrue (pointer_fits pointer (length payload.now)) }
    ensures ok { OnOk result (GrowsBy found.old found.new
        (without_idle (finished_packets part.now pointer payload.now))) }
    ensures rest { IfOk result (λ rest. rest.now ≡ rest_in_frame pointer payload.now) }
    ensures none { without_idle (finished_packets part.now pointer payload.now) ≡ [] → IsOk result }
    ensures fault { IfErr result (λ e. e ≡ TmFault.Memory) }
{
    match pointer {
        Pointer::OnlyIdle => Ok(&payload[..0]),
        Pointer::NoStart => {
            close(alloc, part, payload, found)?;
            Ok(&payload[..0])
        }
        Pointer::At(place) => {
            let (front, rest) = payload.split_at(usize::from(place));
            close(alloc, part, front, found)?;
            split(alloc, rest, found)
        }
    }
}

// Appends the packet that the part and these octets after it form, if any.
fn close(alloc: Global, part: &[u8], octets: &[u8], found: &mut Vec<Vec<u8>>) -> Result<(), TmFault>
    ensures ok { OnOk result (GrowsBy found.old found.new
        (without_idle (completed_packet part.now octets.now))) }
    ensures none { without_idle (completed_packet part.now octets.now) ≡ [] → IsOk result }
    ensures fault { IfErr result (λ e. e ≡ TmFault.Memory) }
{
    if part.is_empty() {
        return Ok(());
    }
    if ending_with(part, octets) != Ending::Whole {
        return Ok(());
    }
    hand_out(alloc, part, octets, found)
}

// Appends the whole packets at the beginning, and returns what follows them.
fn split<'a>(alloc: Global, octets: &'a [u8], found: &mut Vec<Vec<u8>>) -> Result<&'a [u8], TmFault>
    ensures ok { OnOk result (GrowsBy found.old found.new
        (without_idle (records_of 6 extent_at octets.now))) }
    ensures rest { IfOk result (λ rest. rest.now ≡ rest_of 6 extent_at octets.now) }
    ensures none { without_idle (records_of 6 extent_at octets.now) ≡ [] → IsOk result }
    ensures fault { IfErr result (λ e. e ≡ TmFault.Memory) }
{
    let mut rest = octets;
    while let Some(size) = packet_len(rest) {
        hand_out(alloc, &rest[..size], &rest[..0], found)?;
        rest = &rest[size..];
    }
    Ok(rest)
}

// Appends a packet, in two parts, unless it is idle.
fn hand_out(
    alloc: Global,
    first: &[u8],
    second: &[u8],
    found: &mut Vec<Vec<u8>>,
) -> Result<(), TmFault>
    requires { 2 ≤ length first.now + length second.now }
    ensures ok { OnOk result (GrowsBy found.old found.new
        (without_idle ((first.now ++ second.now) ∷ []))) }
    ensures none { without_idle ((first.now ++ second.now) ∷ []) ≡ [] → IsOk result }
    ensures fault { IfErr result (λ e. e ≡ TmFault.Memory) }
{
    if is_idle_with(first, second) {
        return Ok(());
    }
    let packet = joined(alloc, first, second)?;
    match found.push(packet) {
        Ok(()) => Ok(()),
        Err(_) => Err(TmFault::Memory),
    }
}

fn joined(alloc: Global, first: &[u8], second: &[u8]) -> Result<Vec<u8>, TmFault>
    ensures ok { IfOk result (λ packet. packet.items ≡ first.now ++ second.now) }
    ensures fault { IfErr result (λ e. e ≡ TmFault.Memory) }
{
    match Vec::with_capacity(alloc, first.len() + second.len()) {
        Err(_) => Err(TmFault::Memory),
        Ok(mut packet) => {
            if packet.extend_from_slice(first).is_err() {
                return Err(TmFault::Memory);
            }
            if packet.extend_from_slice(second).is_err() {
                return Err(TmFault::Memory);
            }
            Ok(packet)
        }
    }
}
