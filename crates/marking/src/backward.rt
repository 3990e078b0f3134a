//! The edges of a machine's graph, backward: those over which a run can still come to an accepting state.
//! Rounds over the rows until nothing changes.
ghost use Rattle.std.specs.Prelude.{◌≡◌, ◌*◌, ◌<◌, length, slice_index};
ghost use Rattle.theory.specs.Graph.{Graph};
ghost use Rattle.marking.specs.Relations.{Steps, Touches};
ghost use Rattle.marking.specs.Nodes.{Drawn};
ghost use Rattle.marking.specs.Steps.{HasLevels, HasWays, OnStep};
ghost use Rattle.marking.specs.Rounds.{Pending, BackRound, BackSaturated, Based};
ghost use Rattle.marking.specs.Ways.{Leaves};

use crate::edges::Edges;
use crate::good::GoodEdges;
use crate::graph::Joined;
use crate::sets::{clear, fill, take_in};
use crate::source::Both;
use crate::step::Step;
use crate::walk::Walk;
use crate::work::Work;
use machine::machine::Machine;

impl Edges<'_> {
    // The edges from a node ahead of the starts to a node behind the accepting states.
    pub(crate) fn begin_good(self, ahead: &[u16], behind: &[u16], good: &mut GoodEdges<'_>)
        requires sets { (length ahead.now ≡ self.nodes.size) × (length behind.now ≡ self.nodes.size) }
        requires size { good.old.size ≡ self.nodes.size }
        ensures size { good.new.size ≡ good.old.size }
        ensures based { Based self.entry.cells.now good.new.cells.now self.entry.nodes.size ahead.now behind.now }
    {
        clear(good.cells);
        for (y, word) in behind.iter().enumerate() {
            if *word != 0 {
                take_in(good.cells, good.size, y, Both(self.sources(y), ahead));
            }
        }
    }
}

impl Walk<'_> {
    // The edges of the ways to inner nodes that read the symbol at place j. Whether any is new.
    fn put_edges(self, j: usize, good: &mut GoodEdges<'_>) -> bool
        requires place { j < self.step.popped.len }
        requires size { good.old.size ≡ self.step.edges.nodes.size }
        ensures size { good.new.size ≡ good.old.size }
        ensures steps { Steps good.old.cells.now good.new.cells.now self.entry.step.edges.nodes.size (Leaves self.entry.step.edges (slice_index self.entry.step.popped.symbols j) self.entry.levels.now self.entry.ways.now j self.entry.step.edges.nodes.size) result }
        ensures touches { Touches good.old.cells.now good.new.cells.now self.entry.step.edges.nodes.size good.old.touched.now good.new.touched.now result }
    {
        let edges = self.step.edges;
        let n = edges.nodes.size;
        let label = u16::from(self.step.popped.symbols[j]);
        let mut changed = false;
        for x in edges.nodes.low..n {
            if edges.nodes.goes_on(x, label, self.levels, j) {
                changed |= good.absorb_both(x, edges.sources(x), self.passed(j + 1));
            }
        }
        changed
    }

    // All edges of the ways. Whether any is new.
    fn put_ways(self, good: &mut GoodEdges<'_>) -> bool
        requires { good.old.size ≡ self.step.edges.nodes.size }
        ensures size { good.new.size ≡ good.old.size }
        ensures steps { (g : Graph) → Drawn g self.entry.step.edges.nodes → HasLevels g self.entry.step self.entry.levels.now → HasWays g self.entry.step good.old.cells.now self.entry.ways.now → Steps good.old.cells.now good.new.cells.now self.entry.step.edges.nodes.size (OnStep g self.entry.step good.old.cells.now) result }
        ensures touches { Touches good.old.cells.now good.new.cells.now self.entry.step.edges.nodes.size good.old.touched.now good.new.touched.now result }
    {
        let from = self.step.from;
        let mut changed = false;
        for j in 0..usize::from(self.step.popped.len) {
            changed |= self.put_edges(j, good);
        }
        changed |= good.absorb_both(from, self.step.edges.sources(from), self.passed(0));
        changed
    }
}

impl Step<'_> {
    // Where the row can still lead to acceptance, so can each edge over which its popped word is read. Whether any is new.
    fn go_back(self, levels: &mut [u16], ways: &mut [u16], good: &mut GoodEdges<'_>) -> bool
        requires lines { (length levels.old ≡ 11 * self.edges.nodes.size) × (length ways.old ≡ 11 * self.edges.nodes.size) }
        requires size { good.old.size ≡ self.edges.nodes.size }
        ensures size { good.new.size ≡ good.old.size }
        ensures steps { (g : Graph) → Drawn g self.entry.edges.nodes → Steps good.old.cells.now good.new.cells.now self.entry.edges.nodes.size (OnStep g self.entry good.old.cells.now) result }
        ensures touches { Touches good.old.cells.now good.new.cells.now self.entry.edges.nodes.size good.old.touched.now good.new.touched.now result }
    {
        self.fill_levels(levels);
        self.fill_ways(good, levels, ways);
        let walk = Walk {
            step: self,
            levels,
            ways,
        };
        walk.put_ways(good)
    }
}

impl<M: Machine> Joined<'_, M> {
    // Every row once, but for those whose first line has not been touched since they were walked last. Whether any edge is new.
    fn back_round(&self, good: &mut GoodEdges<'_>, work: &mut Work<'_>) -> bool
        requires sizes { (good.old.size ≡ self.now.edges.nodes.size) × (length work.old.pending.now ≡ self.now.edges.nodes.size) }
        requires pending { (g : Graph) → Drawn g self.now.edges.nodes → Pending (M.Machine.lists self.now.machine.now) self.now.edges self.now.firsts.now g good.old.cells.now work.old.pending.now }
        ensures size { good.new.size ≡ good.old.size }
        ensures pending { work.new.pending.now ≡ work.old.pending.now }
        ensures round { BackRound (M.Machine.lists self.now.machine.now) self.now.edges self.now.firsts.now work.old.pending.now good.old.cells.now good.new.cells.now good.old.touched.now good.new.touched.now result (length (M.Machine.lists self.now.machine.now).rows) }
    {
        let mut changed = false;
        for i in 0..self.machine.row_count() {
            // a row that is not walked is not asked for either
            let first = self.first(i);
            if work.pending[first].max(good.touched[first]) != 0 {
                changed |= self.step(i).go_back(work.levels, work.ways, good);
            }
        }
        changed
    }

    // Rounds until nothing changes: each but the last adds an edge.
    pub(crate) fn saturate_back(&self, good: &mut GoodEdges<'_>, work: &mut Work<'_>)
        requires { (good.old.size ≡ self.now.edges.nodes.size) × (length work.old.pending.now ≡ self.now.edges.nodes.size) }
        ensures sizes { (good.new.size ≡ good.old.size) × (length work.new.pending.now ≡ length work.old.pending.now) }
        ensures saturated { BackSaturated (M.Machine.lists self.now.machine.now) self.now.edges self.now.firsts.now good.old.cells.now good.new.cells.now }
    {
        fill(work.pending);
        clear(good.touched);
        while self.back_round(good, work) {
            work.pending.copy_from_slice(good.touched);
            clear(good.touched);
        }
    }
}
