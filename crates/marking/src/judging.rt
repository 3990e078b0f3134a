//! The mark of each row, from the solved graph of its machine.
ghost use Rattle.std.specs.Prelude.{◌≡◌, ◌*◌, ◌≤◌, length, drop, if◌then◌else◌};
ghost use Rattle.theory.specs.Graph.{Graph};
ghost use Rattle.marking.specs.Nodes.{Drawn};
ghost use Rattle.marking.specs.Solving.{FoundAll};
ghost use Rattle.marking.specs.Steps.{HasMark};

use crate::good::GoodEdges;
use crate::graph::Joined;
use crate::mark::Mark;
use crate::sets::share;
use crate::step::Step;
use machine::machine::Machine;

// The byte of a row's mark.
fn mark(useful: bool, reachable: bool) -> u8
    ensures { result ≡ (if useful then 2 else (if reachable then 1 else 0)) }
{
    Mark::of(useful, reachable) as u8
}

impl Step<'_> {
    // 2 where a good edge leads to what the row pushes, from a node where it applies; 1 where it applies at a node ahead of the starts; else 0.
    fn judge(self, good: &GoodEdges<'_>, ahead: &[u16], levels: &mut [u16]) -> u8
        requires found { (good.now.size ≡ self.edges.nodes.size) × (length ahead.now ≡ self.edges.nodes.size) }
        requires levels { length levels.old ≡ 11 * self.edges.nodes.size }
        ensures { (g : Graph) → Drawn g self.entry.edges.nodes → HasMark g self.entry good.now.cells.now ahead.now result }
    {
        let readers = self.readers(levels);
        let useful = share(readers, good.sources(self.first));
        mark(useful, share(readers, ahead))
    }
}

impl<M: Machine> Joined<'_, M> {
    // The marks of all rows, in the first bytes; the others stay.
    pub(crate) fn judge_rows(
        &self,
        good: &GoodEdges<'_>,
        ahead: &[u16],
        levels: &mut [u16],
        marks: &mut [u8],
    )
        requires ahead { length ahead.now ≡ self.now.edges.nodes.size }
        requires good { good.now.size ≡ self.now.edges.nodes.size }
        requires levels { length levels.old ≡ 11 * self.now.edges.nodes.size }
        requires marks { length (M.Machine.lists self.now.machine.now).rows ≤ length marks.old }
        ensures found { (g : Graph) → Drawn g self.now.edges.nodes → FoundAll (M.Machine.lists self.now.machine.now) g self.now.edges self.now.firsts.now good.now.cells.now ahead.now marks.new (length (M.Machine.lists self.now.machine.now).rows) }
        ensures rest { drop (length (M.Machine.lists self.now.machine.now).rows) marks.new ≡ drop (length (M.Machine.lists self.now.machine.now).rows) marks.old }
    {
        let count = self.machine.row_count();
        for (i, mark) in marks[..count].iter_mut().enumerate() {
            *mark = self.step(i).judge(good, ahead, levels);
        }
    }
}
