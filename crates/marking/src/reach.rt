//! The nodes on trails from the starts, and the nodes from which a trail leads to an accepting state.
ghost use Rattle.std.specs.Prelude.{◌≡◌, length};
ghost use Rattle.marking.specs.Relations.{Gains, Down, Up};
ghost use Rattle.marking.specs.Reach.{Rises, BeforeOne, IsBehind, Sinks, AfterOne, IsAhead};

use crate::edges::Edges;
use crate::graph::Joined;
use crate::sets::clear;
use machine::machine::Machine;

impl Edges<'_> {
    // Each inner node whose next node is in the set comes in, with all that stand before it. Whether any did.
    fn rise(self, set: &mut [u16]) -> bool
        requires long { length set.old ≡ self.nodes.size }
        requires down { Down self.cells.now self.nodes.size set.old }
        ensures { Rises self.entry set.old set.new result self.entry.nodes.size }
    {
        let mut changed = false;
        for x in self.nodes.low..self.nodes.size {
            let next = self.nodes.next(x);
            if set[next] != 0 && set[x] == 0 {
                self.add_sources(x, set);
                changed = true;
            }
        }
        changed
    }

    // Where an inner node is in the set its next node comes in, with all that it stands before. Whether any did.
    fn sink(self, set: &mut [u16]) -> bool
        requires long { length set.old ≡ self.nodes.size }
        requires up { Up self.cells.now self.nodes.size set.old }
        ensures { Sinks self.entry set.old set.new result self.entry.nodes.size }
    {
        let mut changed = false;
        for x in self.nodes.low..self.nodes.size {
            let next = self.nodes.next(x);
            if set[x] != 0 && set[next] == 0 {
                self.add_targets(next, set);
                changed = true;
            }
        }
        changed
    }
}

impl<M: Machine> Joined<'_, M> {
    // All that stand before an accepting state.
    fn add_accepts(&self, set: &mut [u16])
        requires { length set.old ≡ self.now.edges.nodes.size }
        ensures { Gains set.old set.new (BeforeOne self.now.edges.cells.now self.now.edges.nodes.size (M.Machine.lists self.now.machine.now).accepts (length (M.Machine.lists self.now.machine.now).accepts)) }
    {
        for i in 0..self.machine.accept_count() {
            let state = usize::from(self.machine.accept(i));
            self.edges.add_sources(state, set);
        }
    }

    // All that a start stands before.
    fn add_starts(&self, set: &mut [u16])
        requires { length set.old ≡ self.now.edges.nodes.size }
        ensures { Gains set.old set.new (AfterOne self.now.edges.cells.now self.now.edges.nodes.size (M.Machine.lists self.now.machine.now).starts (length (M.Machine.lists self.now.machine.now).starts)) }
    {
        for i in 0..self.machine.start_count() {
            let state = usize::from(self.machine.start(i));
            self.edges.add_targets(state, set);
        }
    }

    // The nodes from which a trail leads to an accepting state.
    pub(crate) fn find_behind(&self, set: &mut [u16])
        requires { length set.old ≡ self.now.edges.nodes.size }
        ensures { IsBehind self.now.edges (M.Machine.lists self.now.machine.now).accepts set.new }
    {
        clear(set);
        self.add_accepts(set);
        while self.edges.rise(set) {}
    }

    // The nodes to which a trail leads from a start.
    pub(crate) fn find_ahead(&self, set: &mut [u16])
        requires { length set.old ≡ self.now.edges.nodes.size }
        ensures { IsAhead self.now.edges (M.Machine.lists self.now.machine.now).starts set.new }
    {
        clear(set);
        self.add_starts(set);
        while self.edges.sink(set) {}
    }
}
