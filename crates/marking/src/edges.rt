//! Edges between the nodes of a machine's graph, in a square of words: line y has the sources of y.
ghost use Rattle.std.specs.Prelude.{◌≡◌, ◌*◌, ◌<◌, length};
ghost use Rattle.marking.specs.Relations.{Preorder, IsLine, Gains, Holds};

use crate::matrix::has;
use crate::nodes::Nodes;
use crate::sets::{line, unite};

// Where edges lead from one node to the next, one leads from the first to the last; and one leads from each node to itself.
#[derive(Clone, Copy)]
pub(crate) struct Edges<'a> {
    pub nodes: Nodes<'a>,
    pub cells: &'a [u16],
    ghost square: { length cells.now ≡ nodes.size * nodes.size },
    ghost order: { Preorder cells.now nodes.size },
}

impl<'a> Edges<'a> {
    // The nodes from which an edge leads to y.
    pub(crate) fn sources(self, y: usize) -> &'a [u16]
        requires { y < self.nodes.size }
        ensures { IsLine self.entry.cells.now self.entry.nodes.size self.entry.nodes.size y result.now }
    {
        line(self.cells, self.nodes.size, y)
    }

    // The set takes in each node from which an edge leads to y.
    pub(crate) fn add_sources(self, y: usize, set: &mut [u16])
        requires { (y < self.nodes.size) × (length set.old ≡ self.nodes.size) }
        ensures { Gains set.old set.new (λ z. Holds self.entry.cells.now self.entry.nodes.size z y) }
    {
        unite(set, self.sources(y));
    }

    // The set takes in each node to which an edge leads from x.
    pub(crate) fn add_targets(self, x: usize, set: &mut [u16])
        requires { (x < self.nodes.size) × (length set.old ≡ self.nodes.size) }
        ensures { Gains set.old set.new (λ z. Holds self.entry.cells.now self.entry.nodes.size x z) }
    {
        for (y, word) in set.iter_mut().enumerate() {
            if has(self.cells, self.nodes.size, x, y) {
                *word = 1;
            }
        }
    }
}
