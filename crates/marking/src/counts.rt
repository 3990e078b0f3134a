//! How many rows are marked.
ghost use Rattle.std.specs.Prelude.{◌≡◌};
ghost use Rattle.marking.specs.Marks.{counts_of};

use crate::mark::Mark;

// The marks above 0, and the marks 2.
#[derive(Clone, Copy, PartialEq, Eq, Debug)]
pub struct Counts {
    pub reachable: usize,
    pub useful: usize,
}

pub(crate) fn count_marks(marks: &[u8]) -> Counts
    ensures { result ≡ counts_of marks.now }
{
    Counts {
        reachable: marks
            .iter()
            .filter(|mark| **mark > Mark::Unreachable as u8)
            .count(),
        useful: marks
            .iter()
            .filter(|mark| **mark == Mark::Useful as u8)
            .count(),
    }
}
