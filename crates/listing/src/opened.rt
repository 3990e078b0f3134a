//! The text of the marks of a file's machine, or of the fault that the file has. An `Err` is want of memory, and nothing else.
ghost use Rattle.std.specs.Prelude.{IfOk};
ghost use Rattle.grammars.specs.Grammars.{open_grammar};
ghost use Rattle.tables.specs.Tables.{open_table};
ghost use Rattle.reports.specs.Openings.{open_file};
ghost use Rattle.listing.specs.Texts.{RowmarksText, TableMarksText, GrammarMarksText};

use crate::texts::{marks_text, refused, whole_text};
use grammars::grammar::Grammar;
use reports::kinds::Kind;
use reports::views::View;
use std::alloc::{AllocError, Global};
use tables::table::Table;

// So many words of scratch, however large the table is.
const WORDS: usize = 32768;

// The marks of a table's rows, with a fixed scratch.
pub fn rowmarks_text(heap: Global, bytes: &[u8]) -> Result<Vec<u8>, AllocError>
    ensures { IfOk result (λ v. RowmarksText 32768 (open_table bytes.now) v.items) }
{
    match Table::opened(bytes) {
        Ok(table) => marks_text(heap, &table, WORDS),
        Err(fault) => refused(heap, fault),
    }
}

// The marks of the rows of the view's machine, with as much scratch as they need.
fn view_marks_text<'a, V: View<'a>>(heap: Global, bytes: &'a [u8]) -> Result<Vec<u8>, AllocError>
    ensures { IfOk result (λ v. TableMarksText (V.opening bytes.now) v.items) }
{
    match V::opened(bytes) {
        Ok(view) => whole_text(heap, &view),
        Err(fault) => refused(heap, fault),
    }
}

pub fn table_marks_text(heap: Global, bytes: &[u8]) -> Result<Vec<u8>, AllocError>
    ensures { IfOk result (λ v. TableMarksText (open_table bytes.now) v.items) }
{
    view_marks_text::<Table>(heap, bytes)
}

pub fn grammar_marks_text(heap: Global, bytes: &[u8]) -> Result<Vec<u8>, AllocError>
    ensures { IfOk result (λ v. GrammarMarksText (open_grammar bytes.now) v.items) }
{
    view_marks_text::<Grammar>(heap, bytes)
}

// The marks of the rows of a file of this kind.
pub fn file_marks_text(heap: Global, kind: Kind, bytes: &[u8]) -> Result<Vec<u8>, AllocError>
    ensures { IfOk result (λ v. TableMarksText (open_file kind bytes.now) v.items) }
{
    match kind {
        Kind::Table => table_marks_text(heap, bytes),
        Kind::Grammar => grammar_marks_text(heap, bytes),
    }
}
