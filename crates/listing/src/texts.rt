//! The text of a machine's marks, with memory from the heap. An `Err` is want of memory, and nothing else.
ghost use Rattle.std.specs.Prelude.{◌≡◌, ◌≤◌, length, IfOk};
ghost use Rattle.reports.specs.Texts.{fault_text};
ghost use Rattle.listing.specs.Listings.{summed_text};
ghost use Rattle.listing.specs.Texts.{IsListing, MarksText};

use crate::marked::Marked;
use machine::fault::Fault;
use machine::machine::Machine;
use marking::marks::mark_rows;
use marking::need::scratch_need;
use reports::faults::fault_text;
use std::alloc::{AllocError, Global};

// The listing of the marks, in an output of its own.
fn listed(heap: Global, marked: Marked<'_>) -> Result<Vec<u8>, AllocError>
    ensures { IfOk result (λ v. v.items ≡ summed_text marked.entry.marks.now marked.entry.counts) }
{
    let mut out = vec![in heap; 0; marked.listing_len()]?;
    marked.put(out.as_mut_slice());
    Ok(out)
}

// The line of a fault.
pub(crate) fn refused(heap: Global, fault: Fault) -> Result<Vec<u8>, AllocError>
    ensures { IfOk result (λ v. v.items ≡ fault_text fault) }
{
    let text = fault_text(heap, fault)?;
    Ok(text.into_bytes())
}

// The listing of the machine's marks, or the fault where so many words of scratch are too few.
pub fn marks_text<M: Machine>(heap: Global, m: &M, words: usize) -> Result<Vec<u8>, AllocError>
    ensures { IfOk result (λ v. MarksText (M.Machine.lists m.now) words v.items) }
{
    let mut scratch = vec![in heap; 0; words]?;
    let mut marks = vec![in heap; 0; m.row_count()]?;
    match mark_rows(m, scratch.as_mut_slice(), marks.as_mut_slice()) {
        Ok(counts) => {
            let marks = marks.as_slice();
            listed(heap, Marked { marks, counts })
        }
        Err(fault) => refused(heap, fault),
    }
}

// The listing of the machine's marks, with as many words of scratch as it needs.
pub(crate) fn whole_text<M: Machine>(heap: Global, m: &M) -> Result<Vec<u8>, AllocError>
    ensures { IfOk result (λ v. IsListing (M.Machine.lists m.now) v.items) }
{
    marks_text(heap, m, scratch_need(m))
}
