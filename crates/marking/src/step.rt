//! A row of a machine as a step over the edges of its graph: where the word that it pops can be read, what it pushes follows.
ghost use Rattle.std.specs.Prelude.{◌≡◌, ◌<◌, ◌≤◌, length};
ghost use Rattle.machine.specs.Rows.{symbols_of};

use crate::edges::Edges;
use machine::row::Word;

// The word is read down to the node `from`, and what the row pushes begins at the node `first`.
#[derive(Clone, Copy)]
pub(crate) struct Step<'a> {
    pub edges: Edges<'a>,
    pub popped: Word,
    pub from: usize,
    pub first: usize,
    ghost few: { popped.len ≤ 10 },
    ghost long: { length (symbols_of popped) ≡ popped.len },
    ghost from_in: { from < edges.nodes.size },
    ghost first_in: { first < edges.nodes.size },
}
