// The record, and its octets.

ghost use Rattle.std.specs.Prelude.{◌≡◌, ◌≤◌, ◌<◌, ◌+◌, ◌++◌, drop, length, Ok, Err, IfOk, OnErr, replicate};
ghost use Rattle.command_log.specs.Layout.{front_octets, spelling, place_octets, fields_of, record_spelled, IsInRange};
ghost use Rattle.command_log.specs.Record.{no_commands};
ghost use Rattle.command_log.specs.declared.fault.LogFault.TheVariants as faults;

use crate::crc::append_check;
use crate::fault::LogFault;
use byteorder::{BigEndian, ByteOrder};

/// What a board keeps at two places of a memory that survives restarts.
#[derive(Clone, Copy, Debug, PartialEq, Eq)]
pub struct Record {
    /// How often the board has started.
    pub boot: u32,
    /// The number of the last command that was executed or passed over. Numbers begin at 1.
    pub last: u32,
    /// Whether the next command has begun.
    pub begun: bool,
    /// A bit for each of the 64 numbers up to the last; the lowest bit is for the last. It is 1 if the
    /// command is known to have been executed completely.
    pub known: u64,
    /// The running check of the history: CRC-32 over the checks of all command packets that were taken since
    /// the record was new or was brought, in that order, including the packet of the begun command.
    pub history: u32,
}

impl Record {
    /// Returns the record of a new board. It is stored at both places before the board starts for the first
    /// time.
    pub fn new_board() -> Record
        ensures { result ≡ no_commands 0 0 }
    {
        Record {
            boot: 0,
            last: 0,
            begun: false,
            known: 0,
            history: 0,
        }
    }
}

/// Returns the octets of a place: the record with its check, twice.
pub fn encode_record(kept: &Record) -> [u8; 50]
    ensures { result ≡ place_octets kept.now }
{
    let one = spelled(kept);
    let mut octets = [0; 50];
    octets[..25].copy_from_slice(&one);
    octets[25..].copy_from_slice(&one);
    octets
}

#[inline(never)]
fn spelled(kept: &Record) -> [u8; 25]
    ensures { result ≡ spelling kept.now }
{
    let mut octets = [0; 25];
    octets[..21].copy_from_slice(&encode_fields(kept));
    append_check(&mut octets);
    octets
}

/// Returns the octets of a record without its check.
#[inline(never)]
pub fn encode_fields(kept: &Record) -> [u8; 21]
    ensures { result ≡ front_octets kept.now }
{
    let boot = kept.boot.to_be_bytes();
    let last = kept.last.to_be_bytes();
    let known = kept.known.to_be_bytes();
    let history = kept.history.to_be_bytes();
    [
        boot[0],
        boot[1],
        boot[2],
        boot[3],
        last[0],
        last[1],
        last[2],
        last[3],
        known[0],
        known[1],
        known[2],
        known[3],
        known[4],
        known[5],
        known[6],
        known[7],
        history[0],
        history[1],
        history[2],
        history[3],
        kept.begun as u8,
    ]
}

/// Reads the record at a place. Refuses with 1 `Layout` a length other than 50 octets, and then with 2
/// `Check` octets that do not spell a record, for example after a write that was cut off or if a copy was
/// spoiled.
/// Faults: 1 Layout, then 2 Check.
pub fn decode_record(octets: &[u8]) -> Result<Record, LogFault>
    ensures answer { result ≡ record_spelled octets.now }
    ensures found { IfOk result (λ kept. octets.now ≡ place_octets kept) }
    ensures only { (kept : Record) → IsInRange kept → octets.now ≡ place_octets kept → result ≡ Ok kept }
    ensures layout { (length octets.now ≡ 50 → ⊥) → result ≡ Err faults.Layout }
    ensures check { length octets.now ≡ 50 → OnErr result (result ≡ Err faults.Check) }
{
    if octets.len() != 50 {
        return Err(LogFault::Layout);
    }
    let kept = decode_fields(octets);
    if &encode_record(&kept)[..] != octets {
        return Err(LogFault::Check);
    }
    Ok(kept)
}

/// Returns the record that the first 21 octets contain, without a check.
#[inline(never)]
pub fn decode_fields(octets: &[u8]) -> Record
    requires { 21 ≤ length octets.now }
    ensures { result ≡ fields_of octets.now }
{
    let (boot, rest) = octets.split_at(4);
    let (last, rest) = rest.split_at(4);
    let (known, rest) = rest.split_at(8);
    let (history, rest) = rest.split_at(4);
    Record {
        boot: BigEndian::read_u32(boot),
        last: BigEndian::read_u32(last),
        begun: rest[0] == 1,
        known: BigEndian::read_u64(known),
        history: BigEndian::read_u32(history),
    }
}
