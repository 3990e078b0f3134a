//! The edges of a machine's graph, forward: whatever a run can come to. Rounds over the rows until nothing changes.
ghost use Rattle.std.specs.Prelude.{◌≡◌, ◌*◌, ◌<◌, true, false, length, slice_index};
ghost use Rattle.machine.specs.Rows.{pops};
ghost use Rattle.theory.specs.Graph.{Graph};
ghost use Rattle.marking.specs.Relations.{Adds, zeros};
ghost use Rattle.marking.specs.Nodes.{Drawn, Follows};
ghost use Rattle.marking.specs.Marks.{row_at};
ghost use Rattle.marking.specs.Rounds.{Round, Saturated};

use crate::graph::Drawing;
use crate::order::Order;
use machine::machine::Machine;

impl<M: Machine> Drawing<'_, M> {
    // Where the word that the row at a place pops can be read, the first node of what it pushes follows. Whether that changed anything.
    fn apply_row(&self, i: usize, order: &mut Order<'_>, levels: &mut [u16]) -> bool
        requires place { i < length (M.Machine.lists self.now.machine.now).rows }
        requires shape { (order.old.size ≡ self.now.nodes.size) × (length levels.old ≡ 11 * self.now.nodes.size) }
        ensures size { order.new.size ≡ order.old.size }
        ensures adds { (g : Graph) → Drawn g self.now.nodes → Adds order.old.cells.now order.new.cells.now self.now.nodes.size self.now.nodes.size (Follows g order.old.cells.now self.now.nodes.size (slice_index self.now.firsts.now i) (pops (row_at (M.Machine.lists self.now.machine.now) i)) (row_at (M.Machine.lists self.now.machine.now) i).from) }
        ensures same { result ≡ false → order.new.cells.now ≡ order.old.cells.now }
        ensures fewer { result ≡ true → zeros order.new.cells.now < zeros order.old.cells.now }
    {
        let step = self.joined(order).step(i);
        let first = step.first;
        let readers = step.readers(levels);
        order.absorb(first, readers)
    }

    // Every row once. Whether that changed anything.
    fn round(&self, order: &mut Order<'_>, levels: &mut [u16]) -> bool
        requires { (order.old.size ≡ self.now.nodes.size) × (length levels.old ≡ 11 * self.now.nodes.size) }
        ensures size { order.new.size ≡ order.old.size }
        ensures round { Round (M.Machine.lists self.now.machine.now) self.now.nodes self.now.firsts.now order.old.cells.now order.new.cells.now result (length (M.Machine.lists self.now.machine.now).rows) }
    {
        let mut changed = false;
        for i in 0..self.machine.row_count() {
            changed |= self.apply_row(i, order, levels);
        }
        changed
    }

    // Rounds until nothing changes: each but the last adds a pair.
    pub(crate) fn saturate(&self, order: &mut Order<'_>, levels: &mut [u16])
        requires { (order.old.size ≡ self.now.nodes.size) × (length levels.old ≡ 11 * self.now.nodes.size) }
        ensures size { order.new.size ≡ order.old.size }
        ensures saturated { Saturated (M.Machine.lists self.now.machine.now) self.now.nodes self.now.firsts.now order.old.cells.now order.new.cells.now }
    {
        while self.round(order, levels) {}
    }
}
