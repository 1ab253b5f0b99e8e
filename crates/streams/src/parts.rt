// Octets in parts.

ghost use Rattle.std.specs.Prelude.{◌≡◌, ◌<◌, ◌==◌, length, IfSome, option_copied, option_map};
ghost use Rattle.std.specs.List.{slice_split};
ghost use Rattle.streams.specs.Words.{parts_from, two_words};

/// Returns the octets before the first mark, and those after it if there is a mark.
pub fn cut(octets: &[u8], mark: u8) -> (&[u8], Option<&[u8]>)
    ensures parts { slice_split (λ octet. octet == mark) octets.now
        ≡ parts_from mark result.0.now (option_copied result.1) }
    ensures shorter { IfSome result.1 (λ rest. length rest.now < length octets.now) }
{
    match octets.iter().position(|octet| *octet == mark) {
        Some(at) => (octets.split_at(at).0, Some(octets.split_at(at + 1).1)),
        None => (octets, None),
    }
}

/// Returns the words of the octets, if there are exactly two.
#[tactic(auto, unfolding(crate::specs::Words::two_words))]
pub fn two_words(octets: &[u8]) -> Option<(&[u8], &[u8])>
    ensures { option_map (λ two. (two.0.now, two.1.now)) result ≡ two_words octets.now }
{
    let (first, after) = cut(octets, b' ');
    let (second, after) = cut(after?, b' ');
    match after {
        None => Some((first, second)),
        Some(_) => None,
    }
}
