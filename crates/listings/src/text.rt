// A text that is written in place.

ghost use Rattle.std.specs.Prelude.{◌≡◌, ◌+◌, ◌*◌, ◌≤◌, [], vec_len, OnOk};

use crate::parts::put_all;
use std::alloc::{AllocError, Global};

/// A text whose buffer is filled ahead of it, so that each line is written in place.
#[derive(Drop)]
pub struct Text {
    pub(crate) octets: Vec<u8>,
    pub(crate) len: usize,
    ghost in_range: { len ≤ vec_len octets },
}

impl Text {
    ghost use Rattle.listings.specs.Text.{written, Appends};

    /// Creates an empty text. It takes no memory.
    pub fn new(alloc: Global) -> Self
        ensures { written result ≡ [] }
    {
        Text {
            octets: Vec::new(alloc),
            len: 0,
        }
    }

    /// Returns what was written.
    pub fn as_bytes(&self) -> &[u8]
        ensures { result.now ≡ written self.now }
    {
        &self.octets[..self.len]
    }

    /// Discards what was written, and keeps the memory.
    pub fn clear(&mut self)
        ensures { written self.new ≡ [] }
    {
        self.len = 0;
    }

    /// Appends octets.
    /// Faults: AllocError. Memory: yes. Cost: n*.
    pub fn push(&mut self, octets: &[u8]) -> Result<(), AllocError>
        ensures { Appends result self.old self.new octets.now }
    {
        self.make_room(octets.len())?;
        self.len = put_all(self.octets.as_mut_slice(), self.len, octets);
        Ok(())
    }

    /// Makes room for this many more octets.
    #[inline(always)]
    pub(crate) fn make_room(&mut self, count: usize) -> Result<(), AllocError>
        ensures written { written self.new ≡ written self.old }
        ensures len { self.new.len ≡ self.old.len }
        ensures ok { OnOk result (self.old.len + count ≤ vec_len self.new.octets) }
    {
        if count <= self.octets.len() - self.len {
            return Ok(());
        }
        self.grow(count)
    }

    #[inline(never)]
    fn grow(&mut self, count: usize) -> Result<(), AllocError>
        ensures written { written self.new ≡ written self.old }
        ensures len { self.new.len ≡ self.old.len }
        ensures ok { OnOk result (self.old.len + count ≤ vec_len self.new.octets) }
    {
        let Some(end) = self.len.checked_add(count) else {
            return Err(AllocError);
        };
        let Some(room) = end.checked_mul(2) else {
            return Err(AllocError);
        };
        self.octets.resize(room, 0)
    }

    /// Makes room for the digits of this many octets and the end of a line.
    #[inline(always)]
    pub(crate) fn make_room_for(&mut self, octets: usize) -> Result<(), AllocError>
        ensures written { written self.new ≡ written self.old }
        ensures len { self.new.len ≡ self.old.len }
        ensures ok { OnOk result (self.old.len + (2 * octets + 1) ≤ vec_len self.new.octets) }
    {
        let Some(digits) = octets.checked_mul(2) else {
            return Err(AllocError);
        };
        let Some(count) = digits.checked_add(1) else {
            return Err(AllocError);
        };
        self.make_room(count)
    }
}
