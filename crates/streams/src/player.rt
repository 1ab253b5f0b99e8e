// Players of the lines of a text.

ghost use Rattle.std.specs.Prelude.{◌≡◌, ◌++◌, [], List, ℕ, OnOk, IfOk, string_bytes};
ghost use Rattle.streams.specs.Player.{Playing};

use std::alloc::{AllocError, Global};

/// The buffer in which answers are gathered until they are written: a text, or octets.
pub trait Gathered {
    ghost octets: { Self → List ℕ };

    /// Clears the buffer.
    fn clear(&mut self)
        ensures { octets self.new ≡ [] };

    /// Returns what was gathered.
    fn as_octets(&self) -> &[u8]
        ensures { result.now ≡ octets self.now };
}

impl Gathered for String {
    ghost octets = { λ text. string_bytes text };

    fn clear(&mut self) {
        self.clear();
    }

    fn as_octets(&self) -> &[u8] {
        self.as_bytes()
    }
}

impl Gathered for Vec<u8> {
    ghost octets = { λ octets. octets.items };

    fn clear(&mut self) {
        self.clear();
    }

    fn as_octets(&self) -> &[u8] {
        self.as_slice()
    }
}

/// Plays the lines of a text, one after another, with answers of the kind `T`.
pub trait Player<T: Gathered> {
    ghost playing: { Playing Self };

    /// Plays a line, passed without its line feed, and appends its answer. Returns whether the line
    /// was good.
    /// Faults: AllocError, after which the run ends. Memory: yes. Cost: the player's.
    fn play(&mut self, alloc: Global, line: &[u8], text: &mut T) -> Result<bool, AllocError>
        ensures text { OnOk result (T.octets text.new ≡ T.octets text.old ++ playing.answer self.old line.now) }
        ensures state { OnOk result (self.new ≡ playing.after self.old line.now) }
        ensures good { IfOk result (λ good. good ≡ playing.is_good self.old line.now) };
}
