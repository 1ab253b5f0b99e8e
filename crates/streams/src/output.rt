// Writes a whole text.

ghost use Rattle.std.specs.Prelude.{◌≡◌, ◌+◌, ◌++◌, OnOk};
ghost use Rattle.octets.specs.Beginning.{IsBeginning};
ghost use Rattle.streams.specs.Devices.{failed_in};

use crate::sink::Sink;
use thiserror::Error;

/// A sink took less than the text.
#[derive(Clone, Copy, Debug, Drop, Error, PartialEq, Eq)]
#[error("write failed")]
pub struct WriteFailed;

/// Writes the text, in as many calls as the sink needs. If one of them fails, the sink has taken a
/// beginning of the text.
/// Faults: WriteFailed. Cost: n.
pub fn write_all<W: Sink>(writer: &mut W, text: &[u8]) -> Result<(), WriteFailed>
    ensures ok { OnOk result (W.taken_octets writer.new ≡ W.taken_octets writer.old ++ text.now) }
    ensures beginning { IsBeginning (W.taken_octets writer.new)
        (W.taken_octets writer.old ++ text.now) }
    ensures failures { W.failures writer.new ≡ W.failures writer.old + failed_in result }
{
    let mut done = 0;
    while done < text.len() {
        match writer.write(&text[done..]) {
            Ok(count) if count > 0 => done += count,
            Ok(_) => return Err(WriteFailed),
            Err(_) => return Err(WriteFailed),
        }
    }
    Ok(())
}
