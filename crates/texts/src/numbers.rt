//! Numbers that stand in front of a text.
ghost use Rattle.std.specs.Prelude.{◌≡◌};
ghost use Rattle.texts.specs.Reading.{read_digits, read_number, read_byte, read_spaced};

use crate::found::Found;
use crate::literals::past;

// A number below this takes one more digit; so none has more than nine, but for zeros in front.
const ROOM: u32 = 100_000_000;

// The number that the digits in front make.
fn digits(text: &[u8]) -> Option<Found<'_, u32>>
    ensures { result ≡ read_digits 0 text.now }
{
    let mut value = 0;
    let mut rest = text;
    while let [digit, tail @ ..] = rest
        && digit.is_ascii_digit()
    {
        if value >= ROOM {
            return None;
        }
        value = 10 * value + u32::from(*digit - b'0');
        rest = tail;
    }
    Some(Found { value, rest })
}

// A number: one digit or more.
pub(crate) fn number(text: &[u8]) -> Option<Found<'_, u32>>
    ensures { result ≡ read_number text.now }
{
    match text {
        [first, ..] if first.is_ascii_digit() => digits(text),
        _ => None,
    }
}

// A number of at most 255.
pub(crate) fn byte(text: &[u8]) -> Option<Found<'_, u8>>
    ensures { result ≡ read_byte text.now }
{
    let Found { value, rest } = number(text)?;
    let value = u8::try_from(value).ok()?;
    Some(Found { value, rest })
}

// The same after a space.
pub(crate) fn spaced(text: &[u8]) -> Option<Found<'_, u8>>
    ensures { result ≡ read_spaced text.now }
{
    past(b" ", text).and_then(byte)
}
