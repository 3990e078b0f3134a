//! The rows, a line for each.
ghost use Rattle.std.specs.Prelude.{◌≡◌, ◌≤◌, length, Ok, Err};
ghost use Rattle.texts.specs.Reading.{read_row, read_rows};
ghost use Rattle.texts.specs.Outcomes.{Told};

use crate::found::Found;
use crate::literals::past;
use crate::numbers::{byte, number};
use crate::unread::Unread;
use crate::words::word;
use machine::row::Row;
use std::alloc::Global;

// One line. Its place is not looked at further, so that a line may be put in or left out.
fn row(text: &[u8]) -> Option<Found<'_, Row>>
    ensures { result ≡ read_row text.now }
{
    let place = past(b"row ", text).and_then(number)?;
    let from = past(b" from ", place.rest).and_then(byte)?;
    let letter = past(b" letter ", from.rest).and_then(byte)?;
    let to = past(b" to ", letter.rest).and_then(byte)?;
    let popped = past(b" pop", to.rest).map(word)?;
    let pushed = past(b" push", popped.rest).map(word)?;
    let rest = past(b"\n", pushed.rest)?;
    let value = Row {
        from: from.value,
        letter: letter.value,
        to: to.value,
        popped: popped.value,
        pushed: pushed.value,
    };
    Some(Found { value, rest })
}

// All lines up to the end of the text, the first of which has that number.
pub(crate) fn rows(heap: Global, line: usize, text: &[u8]) -> Result<Vec<Row>, Unread>
    requires { line ≤ 4 }
    ensures { Told result (λ v. read_rows (length text.now) line text.now ≡ Ok v.items) (λ n. read_rows (length text.now) line text.now ≡ Err n) }
{
    let mut rows = Vec::new(heap);
    let mut rest = text;
    while !rest.is_empty() {
        let found = row(rest).ok_or(Unread::Line(line + rows.len()))?;
        rows.push(found.value)?;
        rest = found.rest;
    }
    Ok(rows)
}
