//! The levels and the ways of the word that a row pops, once both are filled.
ghost use Rattle.std.specs.Prelude.{◌≡◌, ◌*◌, ◌<◌, length};
ghost use Rattle.marking.specs.Relations.{IsLine};

use crate::sets::line;
use crate::step::Step;

#[derive(Clone, Copy)]
pub(crate) struct Walk<'a> {
    pub step: Step<'a>,
    pub levels: &'a [u16],
    pub ways: &'a [u16],
    ghost levels_long: { length levels.now ≡ 11 * step.edges.nodes.size },
    ghost ways_long: { length ways.now ≡ 11 * step.edges.nodes.size },
}

impl<'a> Walk<'a> {
    // The nodes to which a way comes where j symbols are still to read.
    pub(crate) fn passed(self, j: usize) -> &'a [u16]
        requires { j < 11 }
        ensures { IsLine self.entry.ways.now self.entry.step.edges.nodes.size 11 j result.now }
    {
        line(self.ways, self.step.edges.nodes.size, j)
    }
}
