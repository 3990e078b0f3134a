//! The good edges of a machine's graph as they grow: those over which a run can still come to an accepting state.
ghost use Rattle.std.specs.Prelude.{◌≡◌, ◌*◌, ◌<◌, length, MatchBool};
ghost use Rattle.marking.specs.Relations.{Member, IsLine, BothBefore, BothNot, Steps, Touches};

use crate::sets::{covers, line, take_in};
use crate::source::Both;

// For so many nodes: line y of the cells has the sources of y, and the touched nodes are those whose line has changed in this round.
#[derive(Drop)]
pub(crate) struct GoodEdges<'a> {
    pub size: usize,
    pub cells: &'a mut [u16],
    pub touched: &'a mut [u16],
    ghost square: { length cells.now ≡ size * size },
    ghost touched_long: { length touched.now ≡ size },
}

impl GoodEdges<'_> {
    // The nodes from which a good edge leads to y.
    pub(crate) fn sources(&self, y: usize) -> &[u16]
        requires { y < self.now.size }
        ensures { IsLine self.now.cells.now self.now.size self.now.size y result.now }
    {
        line(self.cells, self.size, y)
    }

    // Whether each node of both sets stands before y already.
    fn has_both(&self, y: usize, set: &[u16], other: &[u16]) -> bool
        requires { (y < self.now.size) × ((length set.now ≡ self.now.size) × (length other.now ≡ self.now.size)) }
        ensures { MatchBool result (BothBefore self.now.cells.now self.now.size set.now other.now y) (BothNot self.now.cells.now self.now.size set.now other.now y) }
    {
        covers(self.sources(y), Both(set, other))
    }

    // Each node of both sets comes to stand before y, and whether that changed anything; y is then touched.
    pub(crate) fn absorb_both(&mut self, y: usize, set: &[u16], other: &[u16]) -> bool
        requires { (y < self.old.size) × ((length set.now ≡ self.old.size) × (length other.now ≡ self.old.size)) }
        ensures size { self.new.size ≡ self.old.size }
        ensures steps { Steps self.old.cells.now self.new.cells.now self.old.size (λ u v. (v ≡ y) × (Member set.now u × Member other.now u)) result }
        ensures touches { Touches self.old.cells.now self.new.cells.now self.old.size self.old.touched.now self.new.touched.now result }
    {
        if self.has_both(y, set, other) {
            return false;
        }
        take_in(self.cells, self.size, y, Both(set, other));
        self.touched[y] = 1;
        true
    }
}
