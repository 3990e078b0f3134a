//! A line of states: the starts, or the accepting states.
ghost use Rattle.std.specs.Prelude.{◌≡◌, length, Some, None, IfOk};
ghost use Rattle.texts.specs.Reading.{read, read_some, read_numbers, read_states};
ghost use Rattle.texts.specs.Outcomes.{Told};

use crate::found::Found;
use crate::literals::past;
use crate::numbers::spaced;
use crate::unread::Unread;
use std::alloc::{AllocError, Global};

// As many states as stand there.
fn some_states(heap: Global, text: &[u8]) -> Result<Found<'_, Vec<u8>>, AllocError>
    ensures { IfOk result (λ f. read_some (length text.now) text.now ≡ read f.value.items f.rest) }
{
    let mut states = Vec::new(heap);
    let mut rest = text;
    while let Some(state) = spaced(rest) {
        states.push(state.value)?;
        rest = state.rest;
    }
    Ok(Found {
        value: states,
        rest,
    })
}

// The same; or a dash, for none.
fn numbers(heap: Global, text: &[u8]) -> Result<Found<'_, Vec<u8>>, AllocError>
    ensures { IfOk result (λ f. read_numbers (length text.now) text.now ≡ read f.value.items f.rest) }
{
    match past(b" -", text) {
        Some(rest) => Ok(Found {
            value: Vec::new(heap),
            rest,
        }),
        None => some_states(heap, text),
    }
}

// The states after the name of their line, which is the line of that number.
pub(crate) fn states<'a>(
    heap: Global,
    name: &[u8],
    line: usize,
    text: &'a [u8],
) -> Result<Found<'a, Vec<u8>>, Unread>
    ensures { Told result (λ f. read_states name.now text.now ≡ Some (read f.value.items f.rest)) (λ n. (n ≡ line) × (read_states name.now text.now ≡ None)) }
{
    let inner = past(name, text).ok_or(Unread::Line(line))?;
    let states = numbers(heap, inner)?;
    let rest = past(b"\n", states.rest).ok_or(Unread::Line(line))?;
    Ok(Found { rest, ..states })
}
