//! The words that a row pops and pushes.
ghost use Rattle.std.specs.Prelude.{◌≡◌, Some};
ghost use Rattle.texts.specs.Reading.{read, read_some, word_of, read_word};

use crate::found::Found;
use crate::literals::past;
use crate::numbers::spaced;
use machine::row::Word;

// As many symbols as stand there, but at most ten.
fn symbols(text: &[u8]) -> Found<'_, Word>
    ensures { result ≡ read (word_of (read_some 10 text.now).value) (read_some 10 text.now).rest }
{
    let mut word = Word::EMPTY;
    let mut rest = text;
    for place in &mut word.symbols {
        let Some(symbol) = spaced(rest) else {
            break;
        };
        *place = symbol.value;
        word.len += 1;
        rest = symbol.rest;
    }
    Found { value: word, rest }
}

// The same; or a dash, for none.
pub(crate) fn word(text: &[u8]) -> Found<'_, Word>
    ensures { read_word text.now ≡ Some result }
{
    match past(b" -", text) {
        Some(rest) => Found {
            value: Word::EMPTY,
            rest,
        },
        None => symbols(text),
    }
}
