//! Writing a whole table from its lists: every entry is put, in order.
ghost use Rattle.std.specs.Prelude.{◌≡◌, ◌≤◌, true, length, is_ok, MatchResult};
ghost use Rattle.tables.specs.Tables.{LawfulTable, encode_table};
ghost use Rattle.writing.specs.Parts.{table_of};
ghost use Rattle.writing.specs.Wholes.{Written, Unwritten};

use crate::stages::StartsStage;
use machine::fault::{Fault, Rule};
use machine::row::Row;

// Writes the table of these lists, and answers its number of bytes; or the fault of the first entry that is refused.
pub fn write_table(
    starts: &[u8],
    accepts: &[u8],
    rows: &[Row],
    out: &mut [u8],
) -> Result<usize, Fault>
    ensures outcome { MatchResult result (λ n. Written out.old (table_of starts.now accepts.now rows.now) n out.new) (λ f. Unwritten out.old (table_of starts.now accepts.now rows.now) f out.new) }
    ensures welcome { LawfulTable (table_of starts.now accepts.now rows.now) → length (encode_table (table_of starts.now accepts.now rows.now)) ≤ length out.old → is_ok result ≡ true }
{
    let mut stage = StartsStage::begin();
    stage.put_all(out, starts)?;
    let mut stage = stage.next(out);
    stage.put_all(out, accepts)?;
    let mut stage = stage.next(out);
    stage.put_all(out, rows)?;
    // the output may be too short for three counts
    stage.size_written(out).ok_or(Rule::Output.at(0, 0))
}
