// Packets on board.

ghost use Rattle.std.specs.Prelude.{◌≡◌, ◌≤◌, ◌+◌, ◌++◌, length, take, IfOk, IfErr, OnOk, OnErr};
ghost use Rattle.std.specs.List.{AllByRecursion};
ghost use Rattle.std.specs.VecDeque.{deque_len, deque_capacity};
ghost use Rattle.map_service.specs.Packets.{packets_in};
ghost use Rattle.map_service.specs.Views.{ready_view, packet_list};
ghost use Rattle.nodes.specs.Packets.{put_on_map};
ghost use Rattle.nodes.specs.PacketFields.{IsPacketOn};

use crate::fault::LinkFault;
use smallvec::SmallVec;
use space_packet::packet_len;
use std::alloc::{AllocError, Global};
use std::collections::VecDeque;
use std::marker::Model;

/// A packet that arrived on a MAP.
#[derive(Drop)]
pub(crate) struct MapPacket {
    map: u8,
    octets: Vec<u8>,
}

impl Model for MapPacket {
    ghost use Rattle.nodes.specs.Packets.{PacketOn};

    ghost Value = { PacketOn };

    ghost use Rattle.nodes.specs.PacketFields.{state_of, IsSound};

    ghost view = { state_of };

    ghost invariant = { IsSound };
}

impl MapPacket {
    ghost use Rattle.nodes.specs.Packets.{packet_on, packet_view, lent_packet};
    ghost use Rattle.nodes.specs.PacketFields.{IsPacketOn};

    pub(crate) fn new(map: u8, octets: Vec<u8>) -> MapPacket
        requires { IsPacketOn (packet_on map octets.items) }
        ensures { result ≡ packet_on map octets.items }
    {
        MapPacket { map, octets }
    }

    // Returns the packet's MAP, and lends its octets.
    pub(crate) fn parts(&self) -> (u8, &[u8])
        ensures { lent_packet result ≡ self.now }
    {
        (self.map, self.octets.as_slice())
    }

    pub(crate) fn into_parts(self) -> (u8, Vec<u8>)
        ensures parts { packet_view result ≡ self }
        ensures packet { IsPacketOn (packet_view result) }
    {
        let MapPacket { map, octets } = self;
        (map, octets)
    }
}

// Appends the packets of a MAP to those that are ready. There must be room for them.
pub(crate) fn make_ready(ready: &mut VecDeque<MapPacket>, on_map: u8, packets: SmallVec<Vec<u8>, 1>)
    requires whole { AllByRecursion IsPacketOn (put_on_map on_map (ready_view packets)) }
    requires room { deque_len ready.old + length (ready_view packets) ≤ deque_capacity ready.old }
    ensures items { ready.new.items ≡ ready.old.items ++ put_on_map on_map (ready_view packets) }
    ensures capacity { deque_capacity ready.new ≡ deque_capacity ready.old }
{
    for octets in packets {
        ready.push_back_reserved(MapPacket::new(on_map, octets));
    }
}

// Appends the packet, if there is one, to those that are ready. Returns the number of packets appended.
#[inline(always)]
pub(crate) fn make_ready_one(
    ready: &mut VecDeque<MapPacket>,
    on_map: u8,
    packet: Option<Vec<u8>>,
) -> usize
    requires whole { AllByRecursion IsPacketOn (put_on_map on_map (packet_list packet)) }
    requires room { deque_len ready.old + length (packet_list packet) ≤ deque_capacity ready.old }
    ensures items { ready.new.items ≡ ready.old.items ++ put_on_map on_map (packet_list packet) }
    ensures number { result ≡ length (packet_list packet) }
    ensures capacity { deque_capacity ready.new ≡ deque_capacity ready.old }
{
    let Some(octets) = packet else { return 0 };
    ready.push_back_reserved(MapPacket::new(on_map, octets));
    1
}

// Copies the packets in octets, and appends the copies to the packets that are ready. There must be room for
// them. Returns how many there are. If memory runs out, none of them is ready.
pub(crate) fn make_ready_of(
    alloc: Global,
    ready: &mut VecDeque<MapPacket>,
    on_map: u8,
    octets: &[u8],
) -> Result<usize, LinkFault>
    requires whole { AllByRecursion IsPacketOn (put_on_map on_map (packets_in octets.now)) }
    requires room { deque_len ready.old + length (packets_in octets.now) ≤ deque_capacity ready.old }
    ensures items { OnOk result (ready.new.items
        ≡ ready.old.items ++ put_on_map on_map (packets_in octets.now)) }
    ensures number { IfOk result (λ n. n ≡ length (packets_in octets.now)) }
    ensures none { OnErr result (ready.new.items ≡ ready.old.items) }
    ensures fault { IfErr result (λ e. e ≡ LinkFault.Memory) }
    ensures capacity { deque_capacity ready.new ≡ deque_capacity ready.old }
{
    let before = ready.len();
    if copy_each(alloc, ready, on_map, octets).is_err() {
        ready.truncate(before);
        return Err(LinkFault::Memory);
    }
    Ok(ready.len() - before)
}

// Does what `make_ready_of` does, but if memory runs out, some of the packets are ready.
fn copy_each(
    alloc: Global,
    ready: &mut VecDeque<MapPacket>,
    on_map: u8,
    octets: &[u8],
) -> Result<(), AllocError>
    requires whole { AllByRecursion IsPacketOn (put_on_map on_map (packets_in octets.now)) }
    requires room { deque_len ready.old + length (packets_in octets.now) ≤ deque_capacity ready.old }
    ensures items { OnOk result (ready.new.items
        ≡ ready.old.items ++ put_on_map on_map (packets_in octets.now)) }
    ensures before { take (length ready.old.items) ready.new.items ≡ ready.old.items }
    ensures capacity { deque_capacity ready.new ≡ deque_capacity ready.old }
{
    let mut rest = octets;
    'packets: while let Some(len) = packet_len(rest) {
        let (packet, behind) = rest.split_at(len);
        let packet = Vec::from_slice(alloc, packet)?;
        ready.push_back_reserved(MapPacket::new(on_map, packet));
        rest = behind;
    }
    Ok(())
}
