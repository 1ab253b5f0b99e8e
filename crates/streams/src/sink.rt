// Devices that text is written to.

ghost use Rattle.std.specs.Prelude.{◌≡◌, ◌≤◌, ◌+◌, ◌++◌, ℕ, List, Option, None, length, IfOk};
ghost use Rattle.std.specs.Io.KnownBytes.{WriteAppends};
ghost use Rattle.streams.specs.Devices.{taken, write_failed};

use crate::device_log::{Call, DeviceLog};
use std::io;
use std::io::Write;

/// A device that text is written to. Contracts see what it took and how often it failed.
pub trait Sink {
    // The octets that its writes have taken.
    ghost taken_octets: { Self → List ℕ };

    // How many of its writes have failed: returned an error, or took nothing of a text that is not
    // empty.
    ghost failures: { Self → ℕ };

    // The octets that it holds, if they are known.
    ghost contents: { Self → Option (List ℕ) } = { λ _. None };

    /// Writes a beginning of the text, and returns how many octets this has.
    /// Faults: an error of the standard library. Memory: the device's. Cost: the device's.
    fn write(&mut self, text: &[u8]) -> io::Result<usize>
        ensures count { IfOk result (λ n. n ≤ length text.now) }
        ensures taken { taken_octets self.new ≡ taken_octets self.old ++ taken result text.now }
        ensures failures { failures self.new ≡ failures self.old + write_failed result text.now }
        ensures appends { WriteAppends (contents self.old) (contents self.new) result text.now };
}

/// A writer of the standard library as a sink. Contracts see what its writes did.
#[derive(Drop)]
pub struct Writer<W> {
    inner: W,
    log: DeviceLog,
}

impl<W> Writer<W> {
    ghost use Rattle.std.specs.Prelude.{[], false};
    ghost use Rattle.streams.specs.Devices.{IsLogOf};

    /// Creates a sink from this writer, before any write.
    pub fn new(inner: W) -> Self
        ensures inner { result.inner ≡ inner }
        ensures log { IsLogOf result.log [] false 0 }
    {
        Writer {
            inner,
            log: DeviceLog::new(),
        }
    }

    /// Returns the writer inside.
    pub fn get_ref(&self) -> &W
        ensures { result.now ≡ self.now.inner }
    {
        &self.inner
    }
}

impl<W: Write> Sink for Writer<W> {
    ghost taken_octets = { λ s. s.log.octets };

    ghost failures = { λ s. s.log.failures };

    ghost contents = { λ s. W.contents s.inner };

    fn write(&mut self, text: &[u8]) -> io::Result<usize> {
        let result = self.inner.write(text);
        let call = match &result {
            Ok(0) if !text.is_empty() => Call::Failed,
            Ok(count) => Call::Moved(&text[..*count]),
            Err(_) => Call::Failed,
        };
        self.log = self.log.then(&call);
        result
    }
}
