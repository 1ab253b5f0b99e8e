// How the program ends.

ghost use Rattle.std.specs.Prelude.{◌≡◌, ◌+◌, ◌++◌, OnOk};
ghost use Rattle.octets.specs.Beginning.{IsBeginning};
ghost use Rattle.streams.specs.Devices.{failed_in};
ghost use Rattle.stream_commands.specs.Status.{ending_line, exit_status, fault_line};

use crate::outcome::Outcome;
use itoa::Buffer;
use streams::{Sink, StreamFault, WriteFailed, write_all};

/// Writes the line for standard error, if there is one, and returns the status: 0 if all was good, 1 for
/// a fault in the data or the script, 3 if a device or memory failed or the input was too long. A fault
/// of the sink is ignored; it has then taken a beginning of the line.
pub fn ending<W: Sink>(dumped: &Result<Outcome, StreamFault>, errors: &mut W) -> u8
    ensures status { result ≡ exit_status dumped.now }
    ensures line { IsBeginning (W.taken_octets errors.new)
        (W.taken_octets errors.old ++ ending_line dumped.now) }
    ensures whole { W.failures errors.new ≡ W.failures errors.old
        → W.taken_octets errors.new ≡ W.taken_octets errors.old ++ ending_line dumped.now }
{
    let _ = write_ending(dumped, errors);
    status_of(dumped)
}

fn status_of(dumped: &Result<Outcome, StreamFault>) -> u8
    ensures { result ≡ exit_status dumped.now }
{
    match dumped {
        Ok(Outcome::Good) => 0,
        Ok(Outcome::Faulty) => 1,
        Ok(Outcome::Unreadable(_)) => 1,
        Ok(Outcome::OutOfRange(_)) => 1,
        Err(_) => 3,
    }
}

fn write_ending<W: Sink>(
    dumped: &Result<Outcome, StreamFault>,
    errors: &mut W,
) -> Result<(), WriteFailed>
    ensures ok { OnOk result (W.taken_octets errors.new
        ≡ W.taken_octets errors.old ++ ending_line dumped.now) }
    ensures beginning { IsBeginning (W.taken_octets errors.new)
        (W.taken_octets errors.old ++ ending_line dumped.now) }
    ensures failures { W.failures errors.new ≡ W.failures errors.old + failed_in result }
{
    match dumped {
        Ok(Outcome::Good) => Ok(()),
        Ok(Outcome::Faulty) => Ok(()),
        Ok(Outcome::Unreadable(line)) => {
            let mut digits = Buffer::new();
            let number = digits.format(*line);
            write_parts(errors, "tctool: line ", number, ": unreadable\n")
        }
        Ok(Outcome::OutOfRange(field)) => {
            write_parts(errors, "tctool: config out of range: ", field, "\n")
        }
        Err(fault) => write_all(errors, line_of(*fault).as_bytes()),
    }
}

// Returns the line of a fault.
fn line_of(fault: StreamFault) -> &'static str
    ensures { result.now ≡ fault_line fault }
{
    match fault {
        StreamFault::Read => "tctool: read failed\n",
        StreamFault::Write => "tctool: write failed\n",
        StreamFault::Memory => "tctool: no memory\n",
        StreamFault::TooLong => "tctool: input too long\n",
    }
}

/// Writes a line of three parts.
/// Faults: WriteFailed.
pub fn write_parts<W: Sink>(
    errors: &mut W,
    start: &str,
    word: &str,
    end: &str,
) -> Result<(), WriteFailed>
    ensures ok { OnOk result (W.taken_octets errors.new
        ≡ W.taken_octets errors.old ++ (start.now ++ (word.now ++ end.now))) }
    ensures beginning { IsBeginning (W.taken_octets errors.new)
        (W.taken_octets errors.old ++ (start.now ++ (word.now ++ end.now))) }
    ensures failures { W.failures errors.new ≡ W.failures errors.old + failed_in result }
{
    write_all(errors, start.as_bytes())?;
    write_all(errors, word.as_bytes())?;
    write_all(errors, end.as_bytes())
}
