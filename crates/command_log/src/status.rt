// The status of the board in telemetry, and its octets.

ghost use Rattle.std.specs.Prelude.{◌≡◌, ◌≤◌, ◌<◌, ◌^◌, ℕ, length, drop, min, slice_index, Ok, Err, IfOk, OnErr};
ghost use Rattle.command_log.specs.Layout.{front_octets, fields_of};
ghost use Rattle.command_log.specs.Status.{kind_of, record_of, status_front, status_octets, status_with, status_in, status_spelled, IsStatusInRange};
ghost use Rattle.command_log.specs.declared.fault.LogFault.TheVariants as faults;

use crate::crc::append_check;
use crate::fault::LogFault;
use crate::record::{Record, decode_fields, encode_fields};

/// What a status reports.
#[derive(Clone, Copy, Debug, PartialEq, Eq)]
pub enum Status {
    /// The record, as it is at both places.
    Says(Record),
    /// The record is being written; the previous status holds.
    Changes,
    /// The board has just started; the previous status holds.
    Starts,
    /// The board has lost its record. The value is the mark of this loss.
    Lost(u32),
}

/// Returns the octets of a status, with the number of commands that wait on board to be executed. A number
/// above 255 is written as 255.
pub fn encode_status(status: &Status, waiting: usize) -> [u8; 27]
    ensures { result ≡ status_octets status.now (min waiting 255) }
{
    spelled(status, waiting.min(255) as u8)
}

fn spelled(status: &Status, waiting: u8) -> [u8; 27]
    ensures { result ≡ status_octets status.now waiting }
{
    let mut octets = [0; 27];
    octets[..23].copy_from_slice(&status_front(status, waiting));
    append_check(&mut octets);
    octets
}

fn status_front(status: &Status, waiting: u8) -> [u8; 23]
    ensures { result ≡ status_front status.now waiting }
{
    let mut octets = [0; 23];
    octets[0] = kind_of(status);
    octets[1..22].copy_from_slice(&encode_fields(&record_of(status)));
    octets[22] = waiting;
    octets
}

fn kind_of(status: &Status) -> u8
    ensures { result ≡ kind_of status.now }
{
    match status {
        Status::Says(_) => 0,
        Status::Changes => 1,
        Status::Starts => 2,
        Status::Lost(_) => 3,
    }
}

fn record_of(status: &Status) -> Record
    ensures { result ≡ record_of status.now }
{
    match status {
        Status::Says(kept) => *kept,
        Status::Changes | Status::Starts => Record::new_board(),
        Status::Lost(mark) => Record {
            boot: *mark,
            last: 0,
            begun: false,
            known: 0,
            history: 0,
        },
    }
}

/// Returns the status that the octets spell, and the number of commands that wait. Refuses with 1 `Layout` a
/// length other than 27 octets, and then with 2 `Check` octets that do not spell a status.
/// Faults: 1 Layout, then 2 Check.
pub fn decode_status(octets: &[u8]) -> Result<(Status, u8), LogFault>
    ensures answer { result ≡ status_spelled octets.now }
    ensures found { IfOk result (λ r. octets.now ≡ status_octets r.0 r.1) }
    ensures only { (status : Status) (waiting : ℕ) → IsStatusInRange status → waiting < 2 ^ 8
        → octets.now ≡ status_octets status waiting → result ≡ Ok (status, waiting) }
    ensures layout { (length octets.now ≡ 27 → ⊥) → result ≡ Err faults.Layout }
    ensures check { length octets.now ≡ 27 → OnErr result (result ≡ Err faults.Check) }
{
    if octets.len() != 27 {
        return Err(LogFault::Layout);
    }
    let status = status_at(octets);
    let waiting = octets[22];
    if &spelled(&status, waiting)[..] != octets {
        return Err(LogFault::Check);
    }
    Ok((status, waiting))
}

fn status_at(octets: &[u8]) -> Status
    requires { 22 ≤ length octets.now }
    ensures { result ≡ status_in octets.now }
{
    let (_, fields) = octets.split_at(1);
    status_with(octets[0], decode_fields(fields))
}

fn status_with(kind: u8, kept: Record) -> Status
    ensures { result ≡ status_with kind kept }
{
    match kind {
        0 => Status::Says(kept),
        1 => Status::Changes,
        2 => Status::Starts,
        _ => Status::Lost(kept.boot),
    }
}
