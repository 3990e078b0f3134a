//! The three stages of writing a table, one for each section: how the first begins, and how the last ends.
ghost use Rattle.std.specs.Prelude.{◌≡◌, ℕ, ◌<◌, ◌≤◌, List, length, take, if◌then◌else◌, Some, None, MatchOption};
ghost use Rattle.machine.specs.Lists.{Lists};
ghost use Rattle.entries.specs.Rows.{rows};
ghost use Rattle.tables.specs.Tables.{open_table};
ghost use Rattle.writing.specs.Parts.{rows_kind, no_entries};
ghost use Rattle.writing.specs.Stages.{fresh, end_of, count_fits, closed};
ghost use Rattle.writing.specs.Histories.{WritingStarts, WritingRows, Finished};
ghost use Rattle.writing.specs.Wholes.{Written};

use crate::section::{Accepts, Rows, Starts};
use crate::stage::Stage;

pub type StartsStage = Stage<Starts>;

pub type AcceptsStage = Stage<Accepts>;

pub type RowsStage = Stage<Rows>;

impl StartsStage {
    // The stage that every table begins with. Nothing is written yet.
    pub fn begin() -> StartsStage
        ensures stage { result ≡ fresh 0 }
        ensures history { (old : List ℕ) → WritingStarts old no_entries result old }
    {
        Stage::fresh(0)
    }
}

impl RowsStage {
    // Writes the count of the rows where it fits, and answers the number of the table's bytes then.
    pub(crate) fn size_written(self, out: &mut [u8]) -> Option<usize>
        ensures written { out.new ≡ closed rows_kind self out.old }
        ensures size { result ≡ (if count_fits rows_kind self (length out.old) then Some (end_of rows self) else None) }
        ensures outcome { (old : List ℕ) (m : Lists) → WritingRows old m self out.old → MatchOption result ((length old < 6) × (m ≡ no_entries) × (out.new ≡ old)) (λ n. Written old m n out.new) }
    {
        if self.close(out) {
            Some(self.end())
        } else {
            None
        }
    }

    // Writes the count of the rows. The answer is the number of the table's bytes, or 0 where the output was too short.
    pub fn finish(self, out: &mut [u8]) -> usize
        ensures written { out.new ≡ closed rows_kind self out.old }
        ensures size { result ≡ (if count_fits rows_kind self (length out.old) then end_of rows self else 0) }
        ensures history { (old : List ℕ) (m : Lists) → WritingRows old m self out.old → Finished old m out.new result }
        ensures opens { (old : List ℕ) (m : Lists) → WritingRows old m self out.old → 6 ≤ length old → open_table (take result out.new) ≡ Ok m }
    {
        self.size_written(out).unwrap_or(0)
    }
}
