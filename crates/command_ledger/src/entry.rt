// The entries of the store, in octets.

ghost use Rattle.std.specs.Prelude.{◌≡◌, ◌≤◌, ◌<◌, ◌+◌, ◌++◌, length, IfOk, option_map};
ghost use Rattle.command_ledger.specs.Entries.{entry_view, entry_octets, rebuild_octets, mark_octets, order_octets, standing_octets, spelling, IsShort};
ghost use Rattle.command_ledger.specs.Entries.{rebuild_in, mark_in, order_in, standing_in, gives_in, entry_with, entry_in, entry_len};

use crate::known::{Rebuild, Standing};
use byteorder::{BigEndian, ByteOrder};
use command_log::{Record, check, check_holds, decode_fields, encode_fields};
use std::alloc::{AllocError, Global};

/// An entry of the store.
#[derive(Clone, Copy)]
pub(crate) enum Written<'a> {
    /// A command was given.
    Gives { tag: u64, map: u8, packet: &'a [u8] },
    /// The board has sent a later record.
    Hears(Record),
    /// The board has reported that it has lost its record; the mark of the loss.
    Loses(u32),
    /// An order that brings a record was made.
    Rebuilds(Rebuild),
    /// The first report that was due has been made.
    Tells,
    /// In a fresh store: everything except the commands, which follow.
    Stands(Standing),
}

fn spelled(alloc: Global, kind: u8, front: &[u8], rest: &[u8]) -> Result<Vec<u8>, AllocError>
    requires { length front.now + length rest.now < 4294967287 }
    ensures { IfOk result (λ v. v.items ≡ entry_octets kind (front.now ++ rest.now)) }
{
    let total = front.len() + rest.len() + 9;
    let mut octets = Vec::with_capacity(alloc, total)?;
    octets.extend_from_slice(&(total as u32).to_be_bytes())?;
    octets.extend_from_slice(&[kind])?;
    octets.extend_from_slice(front)?;
    octets.extend_from_slice(rest)?;
    let value = check(&octets);
    octets.extend_from_slice(&value.to_be_bytes())?;
    Ok(octets)
}

fn spelled_alone(alloc: Global, kind: u8, content: &[u8]) -> Result<Vec<u8>, AllocError>
    requires { length content.now < 4294967287 }
    ensures { IfOk result (λ v. v.items ≡ entry_octets kind content.now) }
{
    spelled(alloc, kind, content, &[])
}

pub(crate) fn spelling(alloc: Global, entry: &Written) -> Result<Vec<u8>, AllocError>
    requires { IsShort (entry_view entry.now) }
    ensures { IfOk result (λ v. v.items ≡ spelling (entry_view entry.now)) }
{
    match entry {
        Written::Gives { tag, map, packet } => {
            let t = tag.to_be_bytes();
            let front = [t[0], t[1], t[2], t[3], t[4], t[5], t[6], t[7], *map];
            spelled(alloc, 1, &front, packet)
        }
        Written::Hears(kept) => spelled_alone(alloc, 2, &encode_fields(kept)),
        Written::Loses(mark) => spelled_alone(alloc, 3, &mark.to_be_bytes()),
        Written::Rebuilds(order) => spelled_alone(alloc, 4, &rebuild_octets(order)),
        Written::Tells => spelled_alone(alloc, 5, &[]),
        Written::Stands(standing) => spelled_alone(alloc, 6, &standing_octets(standing)),
    }
}

fn rebuild_octets(order: &Rebuild) -> [u8; 12]
    ensures { result ≡ rebuild_octets order.now }
{
    let mut octets = [0; 12];
    octets[..4].copy_from_slice(&order.mark.to_be_bytes());
    octets[4..8].copy_from_slice(&order.boot.to_be_bytes());
    octets[8..].copy_from_slice(&order.last.to_be_bytes());
    octets
}

fn mark_octets(mark: Option<u32>) -> [u8; 5]
    ensures { result ≡ mark_octets mark }
{
    let mut octets = [0; 5];
    if let Some(it) = mark {
        octets[0] = 1;
        octets[1..].copy_from_slice(&it.to_be_bytes());
    }
    octets
}

fn order_octets(order: Option<Rebuild>) -> [u8; 13]
    ensures { result ≡ order_octets order }
{
    let mut octets = [0; 13];
    if let Some(it) = order {
        octets[0] = 1;
        octets[1..].copy_from_slice(&rebuild_octets(&it));
    }
    octets
}

fn standing_octets(standing: &Standing) -> [u8; 48]
    ensures { result ≡ standing_octets standing.now }
{
    let mut octets = [0; 48];
    octets[..4].copy_from_slice(&standing.below.to_be_bytes());
    octets[4..25].copy_from_slice(&encode_fields(&standing.board));
    octets[25..29].copy_from_slice(&standing.doubt.to_be_bytes());
    octets[29..34].copy_from_slice(&mark_octets(standing.mark));
    octets[34] = standing.is_lost as u8;
    octets[35..].copy_from_slice(&order_octets(standing.order));
    octets
}

/// Returns the length of the entry with which these octets begin, if it is whole and its check holds;
/// otherwise 0.
pub(crate) fn entry_len(octets: &[u8]) -> usize
    ensures { result ≡ entry_len octets.now }
{
    if octets.len() < 9 {
        return 0;
    }
    let len = BigEndian::read_u32(octets) as usize;
    if len < 9 || len > octets.len() || !check_holds(&octets[..len]) {
        return 0;
    }
    len
}

/// Returns the entry that these octets form, if they form one.
pub(crate) fn entry_in(octets: &[u8]) -> Option<Written<'_>>
    requires { 9 ≤ length octets.now }
    ensures { option_map entry_view result ≡ entry_in octets.now }
{
    entry_with(octets[4], &octets[5..octets.len() - 4])
}

fn entry_with(kind: u8, content: &[u8]) -> Option<Written<'_>>
    ensures { option_map entry_view result ≡ entry_with kind content.now }
{
    match (kind, content.len()) {
        (1, 9..) => Some(gives_in(content)),
        (2, 21) => Some(Written::Hears(decode_fields(content))),
        (3, 4) => Some(Written::Loses(BigEndian::read_u32(content))),
        (4, 12) => Some(Written::Rebuilds(rebuild_in(content))),
        (5, 0) => Some(Written::Tells),
        (6, 48) => Some(Written::Stands(standing_in(content))),
        _ => None,
    }
}

fn gives_in(content: &[u8]) -> Written<'_>
    requires { 9 ≤ length content.now }
    ensures { entry_view result ≡ gives_in content.now }
{
    Written::Gives {
        tag: BigEndian::read_u64(content),
        map: content[8],
        packet: &content[9..],
    }
}

fn rebuild_in(octets: &[u8]) -> Rebuild
    requires { 12 ≤ length octets.now }
    ensures { result ≡ rebuild_in octets.now }
{
    Rebuild {
        mark: BigEndian::read_u32(octets),
        boot: BigEndian::read_u32(&octets[4..]),
        last: BigEndian::read_u32(&octets[8..]),
    }
}

fn standing_in(octets: &[u8]) -> Standing
    requires { 48 ≤ length octets.now }
    ensures { result ≡ standing_in octets.now }
{
    let (_, board) = octets.split_at(4);
    let (_, doubt) = octets.split_at(25);
    let (_, mark) = octets.split_at(29);
    let (_, order) = octets.split_at(35);
    Standing {
        below: BigEndian::read_u32(octets),
        board: decode_fields(board),
        doubt: BigEndian::read_u32(doubt),
        mark: mark_in(mark),
        is_lost: octets[34] == 1,
        order: order_in(order),
    }
}

fn mark_in(octets: &[u8]) -> Option<u32>
    requires { 5 ≤ length octets.now }
    ensures { result ≡ mark_in octets.now }
{
    if octets[0] == 1 {
        Some(BigEndian::read_u32(&octets[1..]))
    } else {
        None
    }
}

fn order_in(octets: &[u8]) -> Option<Rebuild>
    requires { 13 ≤ length octets.now }
    ensures { result ≡ order_in octets.now }
{
    if octets[0] == 1 {
        Some(rebuild_in(&octets[1..]))
    } else {
        None
    }
}
