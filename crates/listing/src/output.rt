//! Listing the marks of a machine in lent memory.
ghost use Rattle.listing.specs.Listings.{summed_text};
ghost use Rattle.listing.specs.Outcomes.{Written, ListOutcome};

use crate::marked::Marked;
use machine::fault::{Fault, Rule};
use machine::machine::Machine;
use marking::marks::mark_rows;

// Writes the listing where it fits, and answers its length.
fn write_listing(out: &mut [u8], marked: Marked<'_>) -> Result<usize, Fault>
    ensures { Written (summed_text marked.entry.marks.now marked.entry.counts) out.old out.new result }
{
    if out.len() < marked.listing_len() {
        return Err(Rule::Output.at(0, 0));
    }
    Ok(marked.put(out))
}

// Marks the rows, and writes their listing; answers its length. Where it does not fit, the marks are set all the same.
pub fn list_marks<M: Machine>(
    m: &M,
    scratch: &mut [u16],
    marks: &mut [u8],
    out: &mut [u8],
) -> Result<usize, Fault>
    ensures { ListOutcome (M.Machine.lists m.now) scratch.old scratch.new marks.old marks.new out.old out.new result }
{
    let counts = mark_rows(m, scratch, marks)?;
    let marks = &marks[0..m.row_count()];
    write_listing(out, Marked { marks, counts })
}

#[cfg(test)]
mod tests {
    use super::*;
    use tables::table::Table;

    // A table of no entries needs 96 words of scratch, and its listing has 26 bytes.
    #[test]
    fn the_bytes_past_the_listing_stay(rt: HostRuntime) {
        let mut out = [b'.'; 28];
        let answer = list_marks(&Table::empty(), &mut [0; 96], &mut [], &mut out);
        assert_eq!(rt; answer, Ok(26));
        assert!(rt; out == *b"useful 0 reachable 0 of 0\n..");
    }

    #[test]
    fn an_output_too_short_is_left(rt: HostRuntime) {
        let mut out = [b'.'; 25];
        let answer = list_marks(&Table::empty(), &mut [0; 96], &mut [], &mut out);
        assert_eq!(rt; answer, Err(Rule::Output.at(0, 0)));
        assert!(rt; out == [b'.'; 25]);
    }

    #[test]
    fn too_little_scratch_is_told(rt: HostRuntime) {
        let answer = list_marks(&Table::empty(), &mut [0; 95], &mut [], &mut [0; 26]);
        assert_eq!(rt; answer, Err(Rule::Scratch.at(0, 0)));
    }
}
