// Devices that octets are read from.

ghost use Rattle.std.specs.Prelude.{◌≡◌, ◌≤◌, ◌<◌, ◌+◌, ◌++◌, ℕ, Bool, List, length};
ghost use Rattle.std.specs.Prelude.{Option, None, IfOk};
ghost use Rattle.std.specs.Io.KnownBytes.{ReadConsumes};
ghost use Rattle.streams.specs.Devices.{taken, read_failed, EndsOrNot};

use crate::device_log::{Call, DeviceLog};
use std::io;
use std::io::Read;

/// A device that octets are read from. Contracts see what it gave and how often it failed.
pub trait Source {
    // The octets that its reads have given.
    ghost given: { Self → List ℕ };

    // Whether the last read that did not fail found the end.
    ghost has_ended: { Self → Bool };

    // How many of its reads have failed.
    ghost failures: { Self → ℕ };

    // The octets that its reads will give from here on, if they are known.
    ghost remaining: { Self → Option (List ℕ) } = { λ _. None };

    /// Reads octets into the front of a piece that is not empty, and returns how many; 0 at the
    /// end.
    /// Faults: an error of the standard library. Memory: the device's. Cost: the device's.
    fn read(&mut self, piece: &mut [u8]) -> io::Result<usize>
        requires { 0 < length piece.old }
        ensures count { IfOk result (λ n. n ≤ length piece.new) }
        ensures given { given self.new ≡ given self.old ++ taken result piece.new }
        ensures ended { EndsOrNot result (has_ended self.new) }
        ensures failures { failures self.new ≡ failures self.old + read_failed result }
        ensures consumes { ReadConsumes (remaining self.old) (remaining self.new)
            result piece.new };
}

/// A reader of the standard library as a source. Contracts see what its reads did.
#[derive(Drop)]
pub struct Reader<R> {
    inner: R,
    log: DeviceLog,
}

impl<R> Reader<R> {
    ghost use Rattle.std.specs.Prelude.{[], false};
    ghost use Rattle.streams.specs.Devices.{IsLogOf};

    /// Creates a source from this reader, before any read.
    pub fn new(inner: R) -> Self
        ensures inner { result.inner ≡ inner }
        ensures log { IsLogOf result.log [] false 0 }
    {
        Reader {
            inner,
            log: DeviceLog::new(),
        }
    }

    /// Returns the reader inside.
    pub fn get_ref(&self) -> &R
        ensures { result.now ≡ self.now.inner }
    {
        &self.inner
    }
}

impl<R: Read> Source for Reader<R> {
    ghost given = { λ s. s.log.octets };

    ghost has_ended = { λ s. s.log.has_ended };

    ghost failures = { λ s. s.log.failures };

    ghost remaining = { λ s. R.remaining s.inner };

    fn read(&mut self, piece: &mut [u8]) -> io::Result<usize> {
        match self.inner.read(piece) {
            Ok(count) => {
                self.log = self.log.then(&Call::Moved(&piece[..count]));
                Ok(count)
            }
            Err(error) => {
                self.log = self.log.then(&Call::Failed);
                Err(error)
            }
        }
    }
}
