//! The whole text of a machine, read back.
ghost use Rattle.std.specs.Prelude.{◌≡◌, ◌≤◌, Ok, Err};
ghost use Rattle.texts.specs.Reading.{next_line, read_lists, read_machine};
ghost use Rattle.texts.specs.Outcomes.{Told, lists_of};
ghost use Rattle.texts.specs.Laws.{ReadsBack};

use crate::lists::Entries;
use crate::literals::past;
use crate::rows::rows;
use crate::states::states;
use crate::unread::Unread;
use std::alloc::Global;

// The text after its first line.
fn next_line(text: &[u8]) -> &[u8]
    ensures { result.now ≡ next_line text.now }
{
    match text.iter().position(|byte| *byte == b'\n') {
        Some(end) => &text[end + 1..],
        None => &[],
    }
}

// The starts, the accepting states and the rows, from the line of that number on.
fn read_entries(heap: Global, line: usize, text: &[u8]) -> Result<Entries, Unread>
    requires { line ≤ 2 }
    ensures { Told result (λ e. read_lists line text.now ≡ Ok (lists_of e)) (λ n. read_lists line text.now ≡ Err n) }
{
    let starts = states(heap, b"start", line, text)?;
    let accepts = states(heap, b"accept", line + 1, starts.rest)?;
    let rows = rows(heap, line + 2, accepts.rest)?;
    Ok(Entries {
        starts: starts.value,
        accepts: accepts.value,
        rows,
    })
}

// Reads the text that is written of a machine. The first line, which only counts, may be left out.
#[tactic(auto, using(crate::proofs::MachinesBack::reads_back))]
pub fn read_text(heap: Global, text: &[u8]) -> Result<Entries, Unread>
    ensures outcome { Told result (λ e. read_machine text.now ≡ Ok (lists_of e)) (λ n. read_machine text.now ≡ Err n) }
    ensures inverse { ReadsBack }
{
    match past(b"starts ", text) {
        Some(rest) => read_entries(heap, 2, next_line(rest)),
        None => read_entries(heap, 1, text),
    }
}
