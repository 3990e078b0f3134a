//! The ways of a popped word: from the nodes that can still lead to acceptance, line j has each node to which
//! a trail comes that has read the word but for its first j symbols, and that goes on to the row's from state.
ghost use Rattle.std.specs.Prelude.{◌≡◌, ◌*◌, ◌<◌, length};
ghost use Rattle.theory.specs.Graph.{Graph};
ghost use Rattle.marking.specs.Relations.{On, Holds, Adds};
ghost use Rattle.marking.specs.Nodes.{Drawn};
ghost use Rattle.marking.specs.Steps.{HasLevels, HasWays};
ghost use Rattle.marking.specs.Ways.{Comes};

use crate::edges::Edges;
use crate::good::GoodEdges;
use crate::matrix::add;
use crate::sets::{clear_front, line, share, take_in};
use crate::source::Both;
use crate::step::Step;

impl GoodEdges<'_> {
    // Line k takes in each node of line k of the levels from which a good edge leads to `first`.
    fn begin_ways(&self, first: usize, levels: &[u16], ways: &mut [u16], k: usize)
        requires { (first < self.now.size) × ((k < 11) × ((length levels.now ≡ 11 * self.now.size) × (length ways.old ≡ 11 * self.now.size))) }
        ensures { Adds ways.old ways.new self.now.size 11 (λ u v. (v ≡ k) × (On levels.now self.now.size 11 u k × Holds self.now.cells.now self.now.size u first)) }
    {
        let n = self.size;
        take_in(ways, n, k, Both(line(levels, n, k), self.sources(first)));
    }
}

impl Edges<'_> {
    // Line j, from line j + 1: over an inner node with this label, to its next node where that is in line j of the levels.
    fn next_ways(self, label: u16, levels: &[u16], ways: &mut [u16], j: usize)
        requires { (j < 10) × ((length levels.now ≡ 11 * self.nodes.size) × (length ways.old ≡ 11 * self.nodes.size)) }
        ensures { Adds ways.old ways.new self.entry.nodes.size 11 (λ u v. (v ≡ j) × Comes self.entry label levels.now ways.old j self.entry.nodes.size u) }
    {
        let n = self.nodes.size;
        for x in self.nodes.low..n {
            if self.nodes.goes_on(x, label, levels, j)
                && share(self.sources(x), line(ways, n, j + 1))
            {
                add(ways, n, self.nodes.next(x), j);
            }
        }
    }
}

impl Step<'_> {
    // The ways of the popped word, whose levels are filled, from the nodes that stand before `first` in `good`.
    pub(crate) fn fill_ways(self, good: &GoodEdges<'_>, levels: &[u16], ways: &mut [u16])
        requires size { good.now.size ≡ self.edges.nodes.size }
        requires lines { (length levels.now ≡ 11 * self.edges.nodes.size) × (length ways.old ≡ 11 * self.edges.nodes.size) }
        ensures { (g : Graph) → Drawn g self.entry.edges.nodes → HasLevels g self.entry levels.now → HasWays g self.entry good.now.cells.now ways.new }
    {
        let len = usize::from(self.popped.len);
        clear_front(ways, (len + 1) * self.edges.nodes.size);
        good.begin_ways(self.first, levels, ways, len);
        for j in (0..len).rev() {
            let label = u16::from(self.popped.symbols[j]);
            self.edges.next_ways(label, levels, ways, j);
        }
    }
}
