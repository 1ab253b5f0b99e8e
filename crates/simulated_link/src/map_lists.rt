// Lists of packets, one for each MAP.

ghost use Rattle.std.specs.Prelude.{◌≡◌, ◌<◌, ◌≤◌, ℕ, ◌+◌, ◌++◌, ◌==◌, [], if◌then◌else◌, length, OnOk};
ghost use Rattle.std.specs.Vec.{vec_len, vec_capacity};
ghost use Rattle.map_service.specs.Views.{packets_view};
ghost use Rattle.tm_link.specs.Extractor.{octets_of};
ghost use Rattle.simulated_link.specs.MapLists.{packets_at, HasRoom};

use std::alloc::{AllocError, Global};
use std::array;

// Returns a list of no packets for each MAP.
pub(crate) fn no_packets(alloc: Global) -> [Vec<Vec<u8>>; 64]
    ensures none { (m : ℕ) → packets_at result m ≡ [] }
    ensures maps { length result ≡ 64 }
{
    array::from_fn(|_| Vec::new(alloc))
}

pub(crate) fn packets_of(lists: &[Vec<Vec<u8>>; 64], map: u8) -> &[Vec<u8>]
    ensures { octets_of result.now ≡ packets_at lists.now map }
{
    match lists.get(usize::from(map)) {
        Some(packets) => packets.as_slice(),
        None => &[],
    }
}

// Makes room for this many more packets on a MAP.
pub(crate) fn make_room(
    lists: &mut [Vec<Vec<u8>>; 64],
    map: u8,
    more: usize,
) -> Result<(), AllocError>
    requires { map < 64 }
    ensures same { (m : ℕ) → packets_at lists.new m ≡ packets_at lists.old m }
    ensures room { OnOk result (HasRoom lists.new map more) }
{
    lists[usize::from(map)].try_reserve(more)
}

// Appends packets to those on their MAP. There must be room for them.
pub(crate) fn append_on(lists: &mut [Vec<Vec<u8>>; 64], map: u8, packets: Vec<Vec<u8>>)
    requires map { map < 64 }
    requires room { HasRoom lists.old map (length packets.items) }
    ensures { (m : ℕ) → packets_at lists.new m
        ≡ packets_at lists.old m ++ (if map == m then packets_view packets else []) }
{
    append(&mut lists[usize::from(map)], packets);
}

fn append(list: &mut Vec<Vec<u8>>, packets: Vec<Vec<u8>>)
    requires { vec_len list.old + length packets.items ≤ vec_capacity list.old }
    ensures { packets_view list.new ≡ packets_view list.old ++ packets_view packets }
{
    for octets in packets {
        list.push_reserved(octets);
    }
}
