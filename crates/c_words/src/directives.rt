// The directives by numbers.

ghost use Rattle.std.specs.Prelude.{◌≡◌};
ghost use Rattle.c_words.specs.Directives.{octet_of, directive_named};

use cop1::Directive;

/// Returns the directive that a kind, 1 to 9, and a value name, if they name one. The value is
/// ignored if the directive has none.
pub fn directive_named(kind: u8, value: u16) -> Option<Directive>
    ensures { result ≡ directive_named kind value }
{
    let octet = octet_of(value);
    let fits = value <= 255;
    match kind {
        1 => Some(Directive::InitWithoutCheck),
        2 => Some(Directive::InitWithCheck),
        3 => Some(Directive::InitUnlock),
        4 if fits => Some(Directive::InitSetVr(octet)),
        5 => Some(Directive::Terminate),
        6 if fits => Some(Directive::SetVs(octet)),
        7 => Some(Directive::SetWindow(octet)),
        8 => Some(Directive::SetLimit(octet)),
        9 => Some(Directive::SetTimer(value)),
        _ => None,
    }
}

fn octet_of(value: u16) -> u8
    ensures { result ≡ octet_of value }
{
    if value <= 255 { value as u8 } else { 0 }
}
