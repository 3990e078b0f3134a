//! Marking the rows of a machine by its runs: 2 where some accepting run takes the row, 1 where only other runs do, 0 where none does.
//! All working memory is lent. The graph of the machine has a node for each state and for each symbol that a row pushes; a relation
//! between n nodes takes n * n words, and each round over the rows works on whole lines of it.
ghost use Rattle.std.specs.Prelude.{◌≡◌, ◌*◌, ◌≤◌, length};
ghost use Rattle.theory.specs.Layout.{graph_of};
ghost use Rattle.marking.specs.Marks.{scratch_need, Finds, Outcome, UsefulOutcome, OneMarking};
ghost use Rattle.marking.specs.Rounds.{Draws};

use crate::counts::{Counts, count_marks};
use crate::good::GoodEdges;
use crate::graph::Drawing;
use crate::need::{node_count, scratch_need};
use crate::order::Order;
use crate::useful::{Useful, flag_accepts, flag_starts};
use crate::work::Work;
use machine::fault::{Fault, Rule};
use machine::machine::Machine;

impl<M: Machine> Drawing<'_, M> {
    // The marks, once the nodes are drawn; `rest` has 26 words a node.
    fn mark_graph(
        &self,
        cells: &mut [u16],
        good: &mut [u16],
        rest: &mut [u16],
        marks: &mut [u8],
    ) -> Useful
        requires shape { (length cells.old ≡ self.now.nodes.size * self.now.nodes.size) × ((length good.old ≡ self.now.nodes.size * self.now.nodes.size) × ((26 * self.now.nodes.size ≤ length rest.old) × (self.now.nodes.size ≤ 10496))) }
        requires marks { length (M.Machine.lists self.now.machine.now).rows ≤ length marks.old }
        requires drawn { Draws (M.Machine.lists self.now.machine.now) self.now.nodes self.now.firsts.now (graph_of self.now.nodes.low (M.Machine.lists self.now.machine.now).rows) }
        ensures { Finds (M.Machine.lists self.now.machine.now) marks.old marks.new result }
    {
        let n = self.nodes.size;
        let (ahead, rest) = rest.split_at_mut(n);
        let (behind, rest) = rest.split_at_mut(n);
        let (levels, rest) = rest.split_at_mut(11 * n);
        let (ways, rest) = rest.split_at_mut(11 * n);
        let (pending, rest) = rest.split_at_mut(n);
        let (touched, _) = rest.split_at_mut(n);
        let mut order = Order::identity(cells, n);
        let mut good = GoodEdges {
            size: n,
            cells: good,
            touched,
        };
        let mut work = Work {
            levels,
            ways,
            pending,
        };
        self.solve(&mut order, &mut good, ahead, behind, &mut work);
        let levels = work.levels;
        let joined = self.joined(&order);
        joined.judge_rows(&good, ahead, levels, marks);
        Useful {
            counts: count_marks(&marks[0..self.machine.row_count()]),
            starts: flag_starts(self.machine, behind),
            accepts: flag_accepts(self.machine, ahead),
        }
    }
}

// The marks, in scratch that is large enough: the relations, the nodes of the graph, and what `mark_graph` takes.
fn mark_in<M: Machine>(m: &M, scratch: &mut [u16], marks: &mut [u8]) -> Useful
    requires { (scratch_need (M.Machine.lists m.now) ≤ length scratch.old) × (length (M.Machine.lists m.now).rows ≤ length marks.old) }
    ensures { Finds (M.Machine.lists m.now) marks.old marks.new result }
{
    let size = node_count(m);
    let (cells, rest) = scratch.split_at_mut(size * size);
    let (good, rest) = rest.split_at_mut(size * size);
    let (labels, rest) = rest.split_at_mut(size);
    let (nexts, rest) = rest.split_at_mut(size);
    let (firsts, rest) = rest.split_at_mut(m.row_count());
    let drawing = Drawing::new(m, labels, nexts, firsts);
    drawing.mark_graph(cells, good, rest, marks)
}

// The mark of each row, in the first mark bytes; and what else some accepting run uses.
pub fn find_useful<M: Machine>(
    m: &M,
    scratch: &mut [u16],
    marks: &mut [u8],
) -> Result<Useful, Fault>
    ensures { UsefulOutcome (M.Machine.lists m.now) scratch.old scratch.new marks.old marks.new result }
{
    if scratch.len() < scratch_need(m) {
        return Err(Rule::Scratch.at(0, 0));
    }
    if marks.len() < m.row_count() {
        return Err(Rule::Marks.at(0, 0));
    }
    Ok(mark_in(m, scratch, marks))
}

// The mark of each row, in the first mark bytes; the answer is how many rows are reachable, and how many useful.
pub fn mark_rows<M: Machine>(m: &M, scratch: &mut [u16], marks: &mut [u8]) -> Result<Counts, Fault>
    ensures outcome { Outcome (M.Machine.lists m.now) scratch.old scratch.new marks.old marks.new result }
    ensures fixed { OneMarking }
{
    let useful = find_useful(m, scratch, marks)?;
    Ok(useful.counts)
}
