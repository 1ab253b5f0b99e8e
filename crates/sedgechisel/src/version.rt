// The version.

ghost use Rattle.std.specs.Prelude.{◌≡◌, codes};
ghost use Rattle.c_words.specs.Words.{text_of};

use c_words::{Text, spelled};

/// Returns the version of the library.
#[unsafe(no_mangle)]
pub extern "C" fn sedge_version() -> Text
    ensures { result.text ≡ text_of (codes "0.3.0") }
{
    spelled("0.3.0")
}
