// The arguments of the program.

ghost use Rattle.std.specs.Prelude.{◌≡◌, IfOk, map, string_bytes};

use std::alloc::{AllocError, Global};
use std::env::{Env, FillError};
use std::str::from_utf8;

/// The arguments of the program, its name first. What is not Unicode in them becomes U+FFFD.
#[derive(Drop)]
pub struct GivenWords {
    words: Vec<String>,
    is_unicode: bool,
}

impl GivenWords {
    pub fn read(env: &impl Env, alloc: Global) -> Result<Self, AllocError> {
        let mut given = GivenWords {
            words: Vec::new(alloc),
            is_unicode: true,
        };
        for place in 0..usize::MAX {
            let Some(octets) = octets_of_word(env, alloc, place)? else {
                break;
            };
            if place > 0 && from_utf8(octets.as_slice()).is_err() {
                given.is_unicode = false;
            }
            let word = String::from_utf8_lossy(alloc, octets.as_slice())?;
            given.words.push(word)?;
        }
        Ok(given)
    }

    /// Returns whether all arguments after the program's name are Unicode.
    pub fn is_unicode(&self) -> bool {
        self.is_unicode
    }

    /// Returns the arguments as texts, in their order.
    pub fn texts(&self, alloc: Global) -> Result<Vec<&str>, AllocError>
        ensures { IfOk result (λ texts. map (λ text. text.now) texts.items
            ≡ map string_bytes self.now.words.items) }
    {
        self.words.iter().map(|word| word.as_str()).collect(alloc)
    }
}

// Returns the octets of an argument. The buffer is doubled until they fit.
fn octets_of_word(
    env: &impl Env,
    alloc: Global,
    place: usize,
) -> Result<Option<Vec<u8>>, AllocError> {
    let mut octets = Vec::new(alloc);
    for power in 8..usize::BITS {
        octets.resize(1usize << power, 0u8)?;
        match env.arg(place, octets.as_mut_slice()) {
            Ok(count) => {
                octets.truncate(count);
                return Ok(Some(octets));
            }
            Err(FillError::NotPresent) => return Ok(None),
            Err(FillError::TooLong) => {}
        }
    }
    Err(AllocError)
}
