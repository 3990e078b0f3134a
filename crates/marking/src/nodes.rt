//! The nodes of a machine's graph, in lent words: the states first, then a node for each symbol that a row pushes.
ghost use Rattle.std.specs.Prelude.{◌≡◌, ◌*◌, ◌<◌, ◌≤◌, length, Decides, slice_index};
ghost use Rattle.marking.specs.Shapes.{Shaped};

use crate::matrix::has;

// Nodes from `low` on are inner: each has a label, the symbol that it stands for, and a next node.
#[derive(Clone, Copy)]
pub(crate) struct Nodes<'a> {
    pub size: usize,
    pub low: usize,
    pub labels: &'a [u16],
    pub nexts: &'a [u16],
    ghost shaped: { Shaped size low labels.now nexts.now },
}

impl Nodes<'_> {
    ghost use Rattle.marking.specs.Nodes.{GoesOn};

    // The next node of an inner node.
    pub(crate) fn next(self, x: usize) -> usize
        requires { (self.low ≤ x) × (x < self.size) }
        ensures next { result ≡ slice_index self.entry.nexts.now x }
        ensures within { result < self.entry.size }
    {
        usize::from(self.nexts[x])
    }

    // Whether an inner node has the label, and its next node stands in line j.
    pub(crate) fn goes_on(self, x: usize, label: u16, levels: &[u16], j: usize) -> bool
        requires inner { (self.low ≤ x) × (x < self.size) }
        requires lines { (j < 11) × (length levels.now ≡ 11 * self.size) }
        ensures { Decides result (GoesOn self.entry label levels.now j x) }
    {
        self.labels[x] == label && has(levels, self.size, self.next(x), j)
    }
}
