//! A machine whose graph is drawn, and what is reached over the edges of the graph.
ghost use Rattle.std.specs.Prelude.{◌≡◌, ◌+◌, ◌<◌, length, slice_index};
ghost use Rattle.machine.specs.Lists.{width_of};
ghost use Rattle.marking.specs.Marks.{pushed};
ghost use Rattle.marking.specs.Shapes.{Fit};

use crate::drawing::draw_rows;
use crate::edges::Edges;
use crate::nodes::Nodes;
use crate::order::Order;
use crate::step::Step;
use machine::machine::Machine;

// The nodes of the machine's graph, and for each row the first node of what it pushes.
#[derive(Drop)]
pub(crate) struct Drawing<'a, M: Machine> {
    pub machine: &'a M,
    pub nodes: Nodes<'a>,
    pub firsts: &'a [u16],
    ghost fit: { Fit (M.Machine.lists machine.now) nodes.size firsts.now },
}

impl<'a, M: Machine> Drawing<'a, M> {
    ghost use Rattle.theory.specs.Layout.{graph_of};
    ghost use Rattle.marking.specs.Rounds.{Draws};

    // Draws the graph, in words for as many nodes as it has.
    pub(crate) fn new(
        machine: &'a M,
        labels: &'a mut [u16],
        nexts: &'a mut [u16],
        firsts: &'a mut [u16],
    ) -> Self
        requires labels { length labels.old ≡ width_of (M.Machine.lists machine.now) + pushed (M.Machine.lists machine.now).rows }
        requires nexts { length nexts.old ≡ length labels.old }
        requires firsts { length firsts.old ≡ length (M.Machine.lists machine.now).rows }
        ensures same { result.machine.now ≡ machine.now }
        ensures size { result.nodes.size ≡ width_of (M.Machine.lists machine.now) + pushed (M.Machine.lists machine.now).rows }
        ensures drawn { Draws (M.Machine.lists machine.now) result.nodes result.firsts.now (graph_of result.nodes.low (M.Machine.lists machine.now).rows) }
    {
        let low = machine.width();
        let size = draw_rows(machine, low, labels, nexts, firsts);
        let nodes = Nodes {
            size,
            low,
            labels,
            nexts,
        };
        Drawing {
            machine,
            nodes,
            firsts,
        }
    }

    // The same with the order's edges between its nodes.
    pub(crate) fn joined<'b>(&self, order: &'b Order<'_>) -> Joined<'b, M>
    where
        'a: 'b,
        requires { order.now.size ≡ self.now.nodes.size }
        ensures machine { result.machine.now ≡ self.now.machine.now }
        ensures firsts { result.firsts.now ≡ self.now.firsts.now }
        ensures nodes { result.edges.nodes ≡ self.now.nodes }
        ensures cells { result.edges.cells.now ≡ order.now.cells.now }
    {
        Joined {
            machine: self.machine,
            edges: order.edges(self.nodes),
            firsts: self.firsts,
        }
    }
}

// The same with the edges that were found.
#[derive(Drop)]
pub(crate) struct Joined<'a, M: Machine> {
    pub machine: &'a M,
    pub edges: Edges<'a>,
    pub firsts: &'a [u16],
    ghost fit: { Fit (M.Machine.lists machine.now) edges.nodes.size firsts.now },
}

impl<'a, M: Machine> Joined<'a, M> {
    ghost use Rattle.marking.specs.Marks.{row_at};

    // The first node of what the row at a place pushes.
    pub(crate) fn first(&self, i: usize) -> usize
        requires { i < length (M.Machine.lists self.now.machine.now).rows }
        ensures first { result ≡ slice_index self.now.firsts.now i }
        ensures within { result < self.now.edges.nodes.size }
    {
        usize::from(self.firsts[i])
    }

    // The row at a place.
    pub(crate) fn step(&self, i: usize) -> Step<'a>
        requires { i < length (M.Machine.lists self.now.machine.now).rows }
        ensures edges { result.edges ≡ self.now.edges }
        ensures popped { result.popped ≡ (row_at (M.Machine.lists self.now.machine.now) i).popped }
        ensures from { result.from ≡ (row_at (M.Machine.lists self.now.machine.now) i).from }
        ensures first { result.first ≡ slice_index self.now.firsts.now i }
    {
        let row = self.machine.row(i);
        Step {
            edges: self.edges,
            popped: row.popped,
            from: usize::from(row.from),
            first: self.first(i),
        }
    }
}
