// The record of a new board; on the ground, the status that arrived, and the packets for the uplink.

ghost use Rattle.std.specs.Prelude.{◌≡◌, length};
ghost use Rattle.command_log.specs.History.{history_after};
ghost use Rattle.command_log.specs.Packets.{command_octets, order_octets};
ghost use Rattle.sedgechisel.specs.Answers.{IsWritten, IsSpelled};
ghost use Rattle.sedgechisel.specs.CommandLogs.{new_record, status_fields, status_read, command_with, command_total, command_taken, order_described, order_taken};

use super::LogRecord;
use super::fields::fields_of;
use crate::numbers::{DAMAGED, WRONG_COUNT};
use command_log::{
    Command, Order, Record, Status, decode_status, encode_command, encode_order, encode_record,
};

/// What a status states. For C it is `struct sedge_board_status`.
#[repr(C)]
#[derive(Clone, Copy)]
pub struct LogStatus {
    /// The record for `SEDGE_LOG_STATUS_SAYS`, otherwise zeros.
    pub kept: LogRecord,
    /// The mark of the loss for `SEDGE_LOG_STATUS_LOST`, otherwise 0.
    pub mark: u32,
    /// Of `sedge_log_status_kind`.
    pub kind: u8,
    /// How many commands wait on board, at most 255.
    pub waiting: u8,
}

/// An order to the board itself. For C it is `struct sedge_log_order`.
#[repr(C)]
#[derive(Clone, Copy)]
pub struct LogOrder {
    /// The boot count, of the board that restarts or of the record.
    pub boot: u32,
    /// The last number of the record; 0 for a restart.
    pub last: u32,
    /// The mark of the loss; 0 for a restart.
    pub mark: u32,
    /// Of `sedge_log_order_kind`.
    pub kind: u8,
}

/// Writes the record of a new board, the 50 octets that both places have before the board starts for the
/// first time. Returns 0, or `SEDGE_WRONG_COUNT` if the buffer is not 50 octets long.
#[unsafe(no_mangle)]
#[must_use]
pub extern "C" fn sedge_log_new_record(out: &mut [u8]) -> u8
    ensures { IsWritten (λ octets. octets) (new_record (length out.old)) out.old out.new result }
{
    if out.len() != 50 {
        return WRONG_COUNT;
    }
    out.copy_from_slice(&encode_record(&Record::new_board()));
    0
}

/// Reads a status that arrived. Returns 0, or the first of 1 to 2 of `sedge_log_fault` that applies: 1 Layout
/// if the octets are not 27, then 2 Check.
#[unsafe(no_mangle)]
#[must_use]
pub extern "C" fn sedge_log_status_decode(octets: &[u8], status: &mut LogStatus) -> u8
    ensures { IsWritten status_fields (status_read octets.now) status.old status.new result }
{
    written!(
        decode_status(octets),
        |(found, waiting)| *status = status_with(&found, waiting)
    )
}

fn status_with(found: &Status, waiting: u8) -> LogStatus
    ensures { result ≡ status_fields (found.now, waiting) }
{
    let (kept, mark, kind) = match found {
        Status::Says(kept) => (*kept, 0, 0),
        Status::Changes => (Record::new_board(), 0, 1),
        Status::Starts => (Record::new_board(), 0, 2),
        Status::Lost(mark) => (Record::new_board(), *mark, 3),
    };
    LogStatus {
        kept: fields_of(&kept),
        mark,
        kind,
        waiting,
    }
}

/// Writes a command packet with this APID, sequence count and number and with the mission's octets to the
/// beginning of `out`. Writes its length in octets, 14 more than the mission's, to `total`. Returns 0, or the
/// first of `SEDGE_LOG_FIELD_RANGE` (the APID is above 2,047, the count above 16,383, the number 0, or the
/// mission's octets are more than 65,528) and `SEDGE_LOG_ROOM`.
#[unsafe(no_mangle)]
#[must_use]
pub extern "C" fn sedge_log_command_encode(
    apid: u16,
    count: u16,
    number: u32,
    content: &[u8],
    out: &mut [u8],
    total: &mut usize,
) -> u8
    ensures { IsSpelled command_octets command_total
        (command_taken (command_with apid count number content.now) (length out.old))
        out.old out.new total.old total.new result }
{
    let command = Command {
        apid,
        count,
        number,
        content,
    };
    written!(encode_command(&command, out), |long| *total = long)
}

/// Writes an order as a packet with this APID and sequence count to the beginning of `out`, and its length,
/// 23 octets, to `total`. Returns 0, or the first of `SEDGE_DAMAGED` (the kind is not in its enumeration, or
/// a restart has a last number or a mark), `SEDGE_LOG_FIELD_RANGE` (the APID is above 2,047 or the count
/// above 16,383) and `SEDGE_LOG_ROOM`.
#[unsafe(no_mangle)]
#[must_use]
pub extern "C" fn sedge_log_order_encode(
    order: &LogOrder,
    apid: u16,
    count: u16,
    out: &mut [u8],
    total: &mut usize,
) -> u8
    ensures { IsSpelled (order_octets apid count) (λ _. 23) (order_taken order.now apid count (length out.old))
        out.old out.new total.old total.new result }
{
    match order_from(order) {
        Ok(described) => written!(
            encode_order(apid, count, &described, out),
            |long| *total = long
        ),
        Err(number) => number,
    }
}

fn order_from(fields: &LogOrder) -> Result<Order, u8>
    ensures { result ≡ order_described fields.now }
{
    if fields.kind == 2 {
        return Ok(Order::Rebuild {
            mark: fields.mark,
            boot: fields.boot,
            last: fields.last,
        });
    }
    if fields.kind == 1 && fields.last == 0 && fields.mark == 0 {
        return Ok(Order::Restart { boot: fields.boot });
    }
    Err(DAMAGED)
}

/// Returns the history after one more command packet: CRC-32 continued over the packet's check, its last four
/// octets. The history of no packets is 0. A ground can compute it for the packets that it sends, and compare
/// it with a status.
#[unsafe(no_mangle)]
pub extern "C" fn sedge_log_history_after(history: u32, packet: &[u8]) -> u32
    ensures { result ≡ history_after history packet.now }
{
    command_log::history_after(history, packet)
}
