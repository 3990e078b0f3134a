//! The text of a file's bytes: of the machine that they show, or of the fault that they have.
//! An `Err` is want of memory, and nothing else.
ghost use Rattle.std.specs.Prelude.{◌≡◌, IfOk, string_bytes};
ghost use Rattle.grammars.specs.Grammars.{open_grammar};
ghost use Rattle.tables.specs.Tables.{open_table};
ghost use Rattle.reports.specs.Openings.{open_file};
ghost use Rattle.reports.specs.Texts.{opening_text, grammar_opening_text};

use crate::faults::fault_text;
use crate::kinds::Kind;
use crate::machines::machine_text;
use crate::views::View;
use grammars::grammar::Grammar;
use std::alloc::{AllocError, Global};
use tables::table::Table;

fn view_text<'a, V: View<'a>>(heap: Global, bytes: &'a [u8]) -> Result<String, AllocError>
    ensures { IfOk result (λ t. string_bytes t ≡ opening_text (V.opening bytes.now)) }
{
    match V::opened(bytes) {
        Ok(view) => machine_text(heap, &view),
        Err(fault) => fault_text(heap, fault),
    }
}

pub fn table_text(heap: Global, bytes: &[u8]) -> Result<String, AllocError>
    ensures { IfOk result (λ t. string_bytes t ≡ opening_text (open_table bytes.now)) }
{
    view_text::<Table>(heap, bytes)
}

pub fn grammar_text(heap: Global, bytes: &[u8]) -> Result<String, AllocError>
    ensures { IfOk result (λ t. string_bytes t ≡ grammar_opening_text (open_grammar bytes.now)) }
{
    view_text::<Grammar>(heap, bytes)
}

// The text of a file of this kind.
pub fn file_text(heap: Global, kind: Kind, bytes: &[u8]) -> Result<String, AllocError>
    ensures { IfOk result (λ t. string_bytes t ≡ opening_text (open_file kind bytes.now)) }
{
    match kind {
        Kind::Table => table_text(heap, bytes),
        Kind::Grammar => grammar_text(heap, bytes),
    }
}
