//! What both libraries for C share: the words and sentences that they return, and the directives by
//! numbers.
#![tactic(auto)]

mod directives;

ghost use Rattle.std.specs.Prelude.{◌≡◌, ◌≤◌, length};
ghost use Rattle.c_words.specs.Words.{text_of, sentence_of};

pub use directives::directive_named;

/// A word of at most 19 octets, with zeros after it.
#[repr(C)]
#[derive(Clone, Copy)]
pub struct Text {
    pub text: [u8; 20],
}

/// Returns the word as C represents it.
pub fn spelled(word: &str) -> Text
    requires { length word.now ≤ 19 }
    ensures { result.text ≡ text_of word.now }
{
    let mut text = [0; 20];
    text[..word.len()].copy_from_slice(word.as_bytes());
    Text { text }
}

/// A sentence of at most 159 octets, with zeros after it.
#[repr(C)]
#[derive(Clone, Copy)]
pub struct Advice {
    pub text: [u8; 160],
}

/// Returns the sentence as C represents it.
pub fn advised(sentence: &str) -> Advice
    requires { length sentence.now ≤ 159 }
    ensures { result.text ≡ sentence_of sentence.now }
{
    let mut text = [0; 160];
    text[..sentence.len()].copy_from_slice(sentence.as_bytes());
    Advice { text }
}

/// Returns the name of the one of these that has the number, or "?" if none has it.
#[macro_export]
macro_rules! named {
    ($number:ident, $kind:ident: $($at:literal => $one:ident),+) => {
        match $number {
            $($at => $crate::spelled($kind::$one.name()),)+
            _ => $crate::spelled("?"),
        }
    };
}
