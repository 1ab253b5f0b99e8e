// A source that notes whether it has ended, and why a read of it failed.

ghost use Rattle.std.specs.Prelude.{◌≡◌, None};

use std::io;
use std::io::ErrorKind;
use streams::Source;

/// A source, whether a read found its end, and why its last failed read failed.
#[derive(Drop)]
pub struct Noting<S> {
    source: S,
    ended: bool,
    failed: Option<ErrorKind>,
}

impl<S> Noting<S> {
    /// Creates a source before its first read.
    pub fn new(source: S) -> Self
        ensures source { result.source ≡ source }
        ensures failed { result.failed ≡ None }
    {
        Noting {
            source,
            ended: false,
            failed: None,
        }
    }

    /// Returns whether a read found the end.
    pub fn has_ended(&self) -> bool
        ensures { result ≡ self.now.ended }
    {
        self.ended
    }

    /// Returns why the last failed read failed.
    pub fn failed(&self) -> Option<ErrorKind>
        ensures { result ≡ self.now.failed }
    {
        self.failed
    }
}

impl<S: Source> Source for Noting<S> {
    ghost given = { λ s. S.given s.source };

    ghost has_ended = { λ s. S.has_ended s.source };

    ghost failures = { λ s. S.failures s.source };

    ghost remaining = { λ s. S.remaining s.source };

    fn read(&mut self, piece: &mut [u8]) -> io::Result<usize> {
        match self.source.read(piece) {
            Ok(count) => {
                self.ended = count == 0;
                Ok(count)
            }
            Err(error) => {
                self.failed = Some(error.kind());
                Err(error)
            }
        }
    }
}

/// Returns a kind of failure in words.
pub fn reason(kind: ErrorKind) -> &'static str {
    match kind {
        ErrorKind::NotFound => "there is no such file",
        ErrorKind::PermissionDenied => "permission denied",
        ErrorKind::IsADirectory => "it is a directory",
        ErrorKind::NotADirectory => "a part of its path is no directory",
        ErrorKind::FilesystemLoop => "its links go round in a circle",
        ErrorKind::InvalidFilename | ErrorKind::InvalidInput => "it is no name of a file",
        ErrorKind::ResourceBusy | ErrorKind::WouldBlock => "it is in use",
        _ => "the device failed",
    }
}
