//! A preorder of nodes that grows, in a square of words: line y has the nodes that stand before y.
ghost use Rattle.std.specs.Prelude.{◌≡◌, ◌*◌, ◌<◌, true, false, length, MatchBool};
ghost use Rattle.marking.specs.Relations.{Adds, zeros, Preorder, Identity, Down, AllBefore, SomeNot, Onto};

use crate::edges::Edges;
use crate::matrix::{add, has};
use crate::nodes::Nodes;
use crate::sets::{clear, covers, line, take_in};

#[derive(Drop)]
pub(crate) struct Order<'a> {
    pub size: usize,
    pub cells: &'a mut [u16],
    ghost square: { length cells.now ≡ size * size },
    ghost order: { Preorder cells.now size },
}

// Each node of the set comes to stand before whatever f stands before.
fn spread(cells: &mut [u16], n: usize, f: usize, set: &[u16])
    requires { (f < n) × ((length cells.old ≡ n * n) × (length set.now ≡ n)) }
    ensures { Adds cells.old cells.new n n (Onto cells.old n set.now f) }
{
    for y in 0..n {
        if has(cells, n, f, y) {
            take_in(cells, n, y, set);
        }
    }
}

impl<'a> Order<'a> {
    // Each node stands before itself, and before no other.
    pub(crate) fn identity(cells: &'a mut [u16], size: usize) -> Self
        requires { length cells.old ≡ size * size }
        ensures size { result.size ≡ size }
        ensures identity { Identity result.cells.now size size }
    {
        clear(cells);
        for x in 0..size {
            add(cells, size, x, x);
        }
        Order { size, cells }
    }

    // The same as edges between nodes, which lead from each to those that it stands before.
    pub(crate) fn edges<'b>(&'b self, nodes: Nodes<'b>) -> Edges<'b>
        requires { self.now.size ≡ nodes.size }
        ensures nodes { result.nodes ≡ nodes.entry }
        ensures cells { result.cells.now ≡ self.now.cells.now }
    {
        Edges {
            nodes,
            cells: self.cells,
        }
    }

    // Whether each node of the set stands before y already.
    fn has_all(&self, y: usize, set: &[u16]) -> bool
        requires { (y < self.now.size) × (length set.now ≡ self.now.size) }
        ensures { MatchBool result (AllBefore self.now.cells.now self.now.size set.now y) (SomeNot self.now.cells.now self.now.size set.now y) }
    {
        covers(line(self.cells, self.size, y), set)
    }

    // Each node of a set that has what stands before its members comes to stand before whatever f stands before.
    // Whether that changed anything.
    pub(crate) fn absorb(&mut self, f: usize, set: &[u16]) -> bool
        requires shape { (f < self.old.size) × (length set.now ≡ self.old.size) }
        requires down { Down self.old.cells.now self.old.size set.now }
        ensures size { self.new.size ≡ self.old.size }
        ensures adds { Adds self.old.cells.now self.new.cells.now self.old.size self.old.size (Onto self.old.cells.now self.old.size set.now f) }
        ensures same { result ≡ false → self.new.cells.now ≡ self.old.cells.now }
        ensures fewer { result ≡ true → zeros self.new.cells.now < zeros self.old.cells.now }
    {
        if self.has_all(f, set) {
            return false;
        }
        spread(self.cells, self.size, f, set);
        true
    }
}
