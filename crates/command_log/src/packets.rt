// Command packets and orders.

ghost use Rattle.std.specs.Prelude.{◌≡◌, ◌≤◌, ◌<◌, ◌+◌, ◌++◌, drop, length, Ok, IfOk, OnErr, true};
ghost use Rattle.octets.specs.Outcome.{map_ok, count_written};
ghost use Rattle.command_log.specs.Check.{holds_check};
ghost use Rattle.command_log.specs.Packets.{header_octets, is_framed, is_sound, CommandView, command_octets, command_fits, command_in, command_at, command_answer, command_view, packet_octets};
ghost use Rattle.command_log.specs.Packets.{order_front, order_octets, order_fits, order_with, order_at};
ghost use Rattle.command_log.specs.declared.fault.LogFault.TheVariants as faults;

use crate::crc::{append_check, check_holds};
use crate::fault::LogFault;
use byteorder::{BigEndian, ByteOrder};

/// A command packet: an unsegmented telecommand packet with no secondary header (CCSDS 133.0-B-2, 4.1). Its
/// data are the command's number in 4 octets, the mission's own octets, and the check in 4.
#[derive(Clone, Copy, Debug, PartialEq, Eq)]
pub struct Command<'a> {
    pub apid: u16,
    pub count: u16,
    /// The command's number, from 1.
    pub number: u32,
    /// The mission's octets.
    pub content: &'a [u8],
}

/// An order to the board itself: an unsegmented telecommand packet with no secondary header.
#[derive(Clone, Copy, Debug, PartialEq, Eq)]
pub enum Order {
    /// The board with this boot count restarts.
    Restart { boot: u32 },
    /// The board that has lost its record, with this mark of the loss, continues with this boot count and
    /// with this number as the last.
    Rebuild { mark: u32, boot: u32, last: u32 },
}

/// Writes the command packet at the beginning of `out`, and returns its length: 14 octets and those of the
/// mission. The octets after the packet stay unchanged. Refuses with 11 `FieldRange` an APID above 2,047, a
/// count above 16,383, the number 0 or more than 65,528 octets of the mission. Then refuses with 12 `Room` an
/// output that is too short.
/// Faults: 11 FieldRange, then 12 Room. Cost: n.
pub fn encode_command(command: &Command, out: &mut [u8]) -> Result<usize, LogFault>
    ensures answer { result ≡ command_answer (command_view command.now) (length out.old) }
    ensures ok { IfOk result (λ n. out.new ≡ command_octets (command_view command.now) ++ drop n out.old) }
    ensures err { OnErr result (out.new ≡ out.old) }
{
    if !fits(command) {
        return Err(LogFault::FieldRange);
    }
    let number = command.number.to_be_bytes();
    write_packet(command.apid, command.count, &number, command.content, out)
}

fn fits(command: &Command) -> bool
    ensures { result ≡ command_fits (command_view command.now) }
{
    command.apid < 2048
        && command.count < 16384
        && command.number > 0
        && command.content.len() <= 65528
}

fn write_packet(
    apid: u16,
    count: u16,
    first: &[u8],
    second: &[u8],
    out: &mut [u8],
) -> Result<usize, LogFault>
    requires apid { apid < 2048 }
    requires count { count < 16384 }
    requires long { length first.now + length second.now ≤ 65532 }
    ensures answer { let total = length first.now + length second.now + 10 in
        result ≡ count_written true total (length out.old) faults.FieldRange faults.Room }
    ensures ok { IfOk result (λ n. out.new ≡ packet_octets apid count (first.now ++ second.now) ++ drop n out.old) }
    ensures err { OnErr result (out.new ≡ out.old) }
{
    let total = first.len() + second.len() + 10;
    let (room, _) = out.split_at_mut_checked(total).ok_or(LogFault::Room)?;
    put_packet(apid, count, first, second, room);
    Ok(total)
}

fn put_packet(apid: u16, count: u16, first: &[u8], second: &[u8], out: &mut [u8])
    requires apid { apid < 2048 }
    requires count { count < 16384 }
    requires long { length first.now + length second.now ≤ 65532 }
    requires room { length out.old ≡ length first.now + length second.now + 10 }
    ensures { out.new ≡ packet_octets apid count (first.now ++ second.now) }
{
    let (front, _) = out.split_at_mut(first.len() + second.len() + 6);
    put_front(apid, count, first, second, front);
    append_check(out);
}

fn put_front(apid: u16, count: u16, first: &[u8], second: &[u8], out: &mut [u8])
    requires apid { apid < 2048 }
    requires count { count < 16384 }
    requires long { length first.now + length second.now ≤ 65532 }
    requires room { length out.old ≡ length first.now + length second.now + 6 }
    ensures { out.new ≡ header_octets apid count (length first.now + length second.now + 4) ++ (first.now ++ second.now) }
{
    let (header, rest) = out.split_at_mut(6);
    let (front, back) = rest.split_at_mut(first.len());
    put_header(apid, count, first.len() + second.len() + 4, header);
    front.copy_from_slice(first);
    back.copy_from_slice(second);
}

fn put_header(apid: u16, count: u16, long: usize, out: &mut [u8])
    requires apid { apid < 2048 }
    requires count { count < 16384 }
    requires long { long ≤ 65536 }
    requires some { 0 < long }
    requires room { length out.old ≡ 6 }
    ensures { out.new ≡ header_octets apid count long }
{
    let (first, rest) = out.split_at_mut(2);
    let (second, third) = rest.split_at_mut(2);
    BigEndian::write_u16(first, 0x1000 + apid);
    BigEndian::write_u16(second, 0xC000 + count);
    BigEndian::write_u16(third, (long - 1) as u16);
}

/// Reads the octets as a command packet, which borrows the mission's octets from them. Refuses with 1
/// `Layout` octets that are not exactly one such packet. Then refuses with 2 `Check` a check that does not
/// hold, or the number 0.
/// Faults: 1 Layout, then 2 Check. Cost: n.
pub fn decode_command(octets: &[u8]) -> Result<Command<'_>, LogFault>
    ensures { map_ok command_view result ≡ command_at octets.now }
{
    if !is_framed(octets, 14) {
        return Err(LogFault::Layout);
    }
    if !is_sound(octets) {
        return Err(LogFault::Check);
    }
    Ok(command_in(octets))
}

fn command_in(octets: &[u8]) -> Command<'_>
    requires { 14 ≤ length octets.now }
    ensures { command_view result ≡ command_in octets.now }
{
    Command {
        apid: u16::from(octets[0] % 8) * 256 + u16::from(octets[1]),
        count: u16::from(octets[2] % 64) * 256 + u16::from(octets[3]),
        number: BigEndian::read_u32(&octets[6..]),
        content: &octets[10..octets.len() - 4],
    }
}

fn is_sound(octets: &[u8]) -> bool
    requires { 10 ≤ length octets.now }
    ensures { result ≡ is_sound octets.now }
{
    check_holds(octets) && BigEndian::read_u32(&octets[6..]) > 0
}

fn is_framed(octets: &[u8], least: usize) -> bool
    requires { 6 ≤ least }
    ensures { result ≡ is_framed least octets.now }
{
    octets.len() >= least
        && octets[0] / 8 == 2
        && octets[2] / 64 == 3
        && usize::from(BigEndian::read_u16(&octets[4..])) + 7 == octets.len()
}

/// Writes the order as a packet at the beginning of `out`, and returns its length: 23 octets. The octets
/// after the packet stay unchanged. Refuses with 11 `FieldRange` an APID above 2,047 or a count above 16,383,
/// and then with 12 `Room` an output that is too short.
/// Faults: 11 FieldRange, then 12 Room.
pub fn encode_order(apid: u16, count: u16, order: &Order, out: &mut [u8]) -> Result<usize, LogFault>
    ensures answer { result ≡ count_written (order_fits apid count) 23 (length out.old) faults.FieldRange faults.Room }
    ensures ok { IfOk result (λ n. out.new ≡ order_octets apid count order.now ++ drop n out.old) }
    ensures err { OnErr result (out.new ≡ out.old) }
{
    if apid >= 2048 || count >= 16384 {
        return Err(LogFault::FieldRange);
    }
    write_packet(apid, count, &order_front(order), &[], out)
}

fn order_front(order: &Order) -> [u8; 13]
    ensures { result ≡ order_front order.now }
{
    let (kind, boot, last, mark) = match order {
        Order::Restart { boot } => (1, *boot, 0, 0),
        Order::Rebuild { mark, boot, last } => (2, *boot, *last, *mark),
    };
    let boot = boot.to_be_bytes();
    let last = last.to_be_bytes();
    let mark = mark.to_be_bytes();
    [
        kind, boot[0], boot[1], boot[2], boot[3], last[0], last[1], last[2], last[3], mark[0],
        mark[1], mark[2], mark[3],
    ]
}

/// Reads the octets as an order. Refuses with 1 `Layout` octets that are not exactly one such packet. Then
/// refuses with 2 `Check` a check that does not hold, a kind that is not valid or, in a restart, a field that
/// is not 0.
/// Faults: 1 Layout, then 2 Check.
pub fn decode_order(octets: &[u8]) -> Result<Order, LogFault>
    ensures { result ≡ order_at octets.now }
{
    if !(is_framed(octets, 23) && octets.len() == 23) {
        return Err(LogFault::Layout);
    }
    if !check_holds(octets) {
        return Err(LogFault::Check);
    }
    let boot = BigEndian::read_u32(&octets[7..]);
    let last = BigEndian::read_u32(&octets[11..]);
    let mark = BigEndian::read_u32(&octets[15..]);
    order_with(octets[6], boot, last, mark)
}

fn order_with(kind: u8, boot: u32, last: u32, mark: u32) -> Result<Order, LogFault>
    ensures { result ≡ order_with kind boot last mark }
{
    if kind == 2 {
        return Ok(Order::Rebuild { mark, boot, last });
    }
    if kind == 1 && last == 0 && mark == 0 {
        return Ok(Order::Restart { boot });
    }
    Err(LogFault::Check)
}
