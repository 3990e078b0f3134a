//! The levels of a popped word: line j has each node from which a trail reads the first j symbols and comes to a row's from state.
ghost use Rattle.std.specs.Prelude.{◌≡◌, ◌+◌, ◌*◌, ◌<◌, length};
ghost use Rattle.theory.specs.Graph.{Graph};
ghost use Rattle.marking.specs.Relations.{Holds, Adds};
ghost use Rattle.marking.specs.Nodes.{Drawn, Leads};
ghost use Rattle.marking.specs.Steps.{HasLevels, HasReaders};

use crate::edges::Edges;
use crate::sets::{clear_front, line, take_in};
use crate::step::Step;

impl Edges<'_> {
    // Line j takes in each node that stands before x.
    fn add_line(self, x: usize, levels: &mut [u16], j: usize)
        requires { (x < self.nodes.size) × ((j < 11) × (length levels.old ≡ 11 * self.nodes.size)) }
        ensures { Adds levels.old levels.new self.entry.nodes.size 11 (λ u v. (v ≡ j) × Holds self.entry.cells.now self.entry.nodes.size u x) }
    {
        take_in(levels, self.nodes.size, j, self.sources(x));
    }

    // Line j + 1, from line j: the nodes that stand before an inner node with this label whose next node is in line j.
    fn next_level(self, label: u16, levels: &mut [u16], j: usize)
        requires { (j < 10) × (length levels.old ≡ 11 * self.nodes.size) }
        ensures { Adds levels.old levels.new self.entry.nodes.size 11 (λ u v. (v ≡ j + 1) × Leads self.entry label levels.old j self.entry.nodes.size u) }
    {
        for x in self.nodes.low..self.nodes.size {
            if self.nodes.goes_on(x, label, levels, j) {
                self.add_line(x, levels, j + 1);
            }
        }
    }
}

impl Step<'_> {
    // The levels of the popped word, up to its length, for the node `from`.
    pub(crate) fn fill_levels(self, levels: &mut [u16])
        requires { length levels.old ≡ 11 * self.edges.nodes.size }
        ensures { (g : Graph) → Drawn g self.entry.edges.nodes → HasLevels g self.entry levels.new }
    {
        let len = usize::from(self.popped.len);
        clear_front(levels, (len + 1) * self.edges.nodes.size);
        self.edges.add_line(self.from, levels, 0);
        let symbols = &self.popped.symbols[..len];
        for (j, symbol) in symbols.iter().enumerate() {
            self.edges.next_level(u16::from(*symbol), levels, j);
        }
    }

    // The last of them: the nodes from which the whole word can be read.
    pub(crate) fn readers<'b>(self, levels: &'b mut [u16]) -> &'b [u16]
        requires { length levels.old ≡ 11 * self.edges.nodes.size }
        ensures long { length result.now ≡ self.entry.edges.nodes.size }
        ensures reads { (g : Graph) → Drawn g self.entry.edges.nodes → HasReaders g self.entry result.now }
    {
        self.fill_levels(levels);
        line(levels, self.edges.nodes.size, usize::from(self.popped.len))
    }
}
