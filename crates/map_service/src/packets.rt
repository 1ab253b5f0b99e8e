// Octets as whole packets, one after another: whether they are accepted, and the packets that they form.

ghost use Rattle.std.specs.Prelude.{◌≡◌, Some, None, length, IfOk, if◌then◌else◌};
ghost use Rattle.map_service.specs.Cutting.{cut_fault};
ghost use Rattle.map_service.specs.Packets.{packets_in, are_packets, are_taken, is_some_over};
ghost use Rattle.map_service.specs.AssemblerTable.{one_fault, alone_fault, alone_packets};
ghost use Rattle.map_service.specs.Views.{ready_view};

use crate::dropped::Dropped;
use crate::fault::MapFault;
use crate::limits::Limits;
use smallvec::SmallVec;
use space_packet::{is_packet, packet_len};
use std::alloc::{AllocError, Global};

// Whether one of the packets that octets form is too long; `None` if they are not one or more packets.
fn are_packets_over(octets: &[u8], most: usize) -> Option<bool>
    ensures { result ≡ if are_packets octets.now
        then Some (is_some_over most (packets_in octets.now)) else None }
{
    if octets.is_empty() {
        return None;
    }
    let mut rest = octets;
    let mut over = false;
    'packets: while let Some(len) = packet_len(rest) {
        over |= len > most;
        rest = rest.split_at(len).1;
    }
    if !rest.is_empty() {
        return None;
    }
    Some(over)
}

// The same for exactly one packet, or with blocking for one or more.
#[tactic(auto, using(crate::proofs::Whole::one_over))]
fn are_taken_over(limits: &Limits, octets: &[u8]) -> Option<bool>
    ensures { result ≡ if are_taken limits.now.blocking octets.now
        then Some (is_some_over limits.now.max_packet (packets_in octets.now)) else None }
{
    if limits.blocking {
        are_packets_over(octets, limits.max_packet as usize)
    } else if is_packet(octets) {
        Some(limits.is_too_long(octets.len()))
    } else {
        None
    }
}

// Why octets are not cut, if they are not.
pub(crate) fn cut_fault(limits: &Limits, octets: &[u8]) -> Option<MapFault>
    ensures { result ≡ cut_fault limits.now octets.now }
{
    match are_taken_over(limits, octets) {
        None => Some(MapFault::NotAPacket),
        Some(true) => Some(MapFault::TooLong),
        Some(false) => None,
    }
}

/// Returns why octets that should be exactly one packet are dropped, if they are: `TooLong`, then
/// `NotAPacket`.
pub fn fault_of_one(limits: &Limits, octets: &[u8]) -> Option<Dropped>
    ensures { result ≡ one_fault limits.now octets.now }
{
    if limits.is_too_long(octets.len()) {
        return Some(Dropped::TooLong);
    }
    if !is_packet(octets) {
        return Some(Dropped::NotAPacket);
    }
    None
}

// Why the octets of a segment flagged alone are dropped, if they are.
pub(crate) fn fault_of_alone(limits: &Limits, octets: &[u8]) -> Option<Dropped>
    ensures { result ≡ alone_fault limits.now octets.now }
{
    if !limits.blocking {
        return fault_of_one(limits, octets);
    }
    match are_packets_over(octets, limits.max_packet as usize) {
        None => Some(Dropped::NotAPacket),
        Some(true) => Some(Dropped::TooLong),
        Some(false) => None,
    }
}

// Copies the packets of a segment that is flagged alone and has no fault: its octets, or with blocking the
// packets that they form.
pub(crate) fn copied_packets(
    alloc: Global,
    limits: &Limits,
    octets: &[u8],
) -> Result<SmallVec<Vec<u8>, 1>, AllocError>
    ensures { IfOk result (λ v. ready_view v ≡ alone_packets limits.now octets.now) }
{
    if limits.blocking {
        return each_copied(alloc, octets);
    }
    let mut packets = SmallVec::new(alloc);
    packets.push(Vec::from_slice(alloc, octets)?)?;
    Ok(packets)
}

// The number of packets that octets form, one after another, as far as they are whole.
fn number_of_packets(octets: &[u8]) -> usize
    ensures { result ≡ length (packets_in octets.now) }
{
    let mut rest = octets;
    let mut number = 0;
    'packets: while let Some(len) = packet_len(rest) {
        number += 1;
        rest = rest.split_at(len).1;
    }
    number
}

// Copies each of the packets that octets form, one after another, as far as they are whole. Their list is
// allocated once, for all of them.
fn each_copied(alloc: Global, octets: &[u8]) -> Result<SmallVec<Vec<u8>, 1>, AllocError>
    ensures { IfOk result (λ v. ready_view v ≡ packets_in octets.now) }
{
    let number = number_of_packets(octets);
    let places = if number > 1 { number } else { 0 };
    let mut packets = SmallVec::from_vec(Vec::with_capacity(alloc, places)?);
    let mut rest = octets;
    'packets: while let Some(len) = packet_len(rest) {
        let (packet, behind) = rest.split_at(len);
        packets.push_reserved(Vec::from_slice(alloc, packet)?);
        rest = behind;
    }
    Ok(packets)
}
