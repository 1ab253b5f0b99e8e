// Laws of the definitions of words.

ghost use Rattle.std.specs.Prelude.{◌≡◌, ◌≤◌, ◌<◌, ◌^◌, ◌↔◌, ℕ, List, Some, decimal};
ghost use Rattle.streams.specs.Words.{number_in_word, octets_in_word};
ghost use Rattle.streams.specs.Hex.{IsHex};

/// States that a word is a number exactly when it is spelled as the number is printed: without a
/// sign and without a leading zero.
pub fn law_of_numbers()
    ensures { (most n : ℕ) (word : List ℕ) → most < 2 ^ 64
        → (number_in_word most word ≡ Some n) ↔ ((word ≡ decimal n) × (n ≤ most)) }
{}

/// States that a word is octets exactly when it spells them: as `-` if there are none, and
/// otherwise by two digits for each, of either case.
pub fn law_of_octets()
    ensures { (octets word : List ℕ) → (octets_in_word word ≡ Some octets) ↔ IsHex octets word }
{}
