//! The whole graph of a machine, solved: what a run can come to, and over which edges it can still come to an accepting state.
ghost use Rattle.std.specs.Prelude.{◌≡◌, length};
ghost use Rattle.theory.specs.Graph.{Graph};
ghost use Rattle.marking.specs.Relations.{Identity};
ghost use Rattle.marking.specs.Rounds.{Draws};
ghost use Rattle.marking.specs.Solving.{Solved};

use crate::good::GoodEdges;
use crate::graph::Drawing;
use crate::order::Order;
use crate::work::Work;
use machine::machine::Machine;

impl<M: Machine> Drawing<'_, M> {
    // The edges forward, the nodes ahead of the starts and behind the accepting states, and the edges backward.
    pub(crate) fn solve(
        &self,
        order: &mut Order<'_>,
        good: &mut GoodEdges<'_>,
        ahead: &mut [u16],
        behind: &mut [u16],
        work: &mut Work<'_>,
    )
        requires begin { Identity order.old.cells.now self.now.nodes.size self.now.nodes.size }
        requires sets { (length ahead.old ≡ self.now.nodes.size) × (length behind.old ≡ self.now.nodes.size) }
        requires sizes { (order.old.size ≡ self.now.nodes.size) × ((good.old.size ≡ self.now.nodes.size) × (length work.old.pending.now ≡ self.now.nodes.size)) }
        ensures sizes { (order.new.size ≡ order.old.size) × ((good.new.size ≡ good.old.size) × (length work.new.pending.now ≡ length work.old.pending.now)) }
        ensures solved { (g : Graph) → Draws (M.Machine.lists self.now.machine.now) self.now.nodes self.now.firsts.now g → Solved (M.Machine.lists self.now.machine.now) g self.now.nodes.size self.now.firsts.now order.new.cells.now good.new.cells.now ahead.new behind.new }
    {
        self.saturate(order, work.levels);
        let joined = self.joined(order);
        joined.find_ahead(ahead);
        joined.find_behind(behind);
        joined.edges.begin_good(ahead, behind, good);
        joined.saturate_back(good, work);
    }
}
