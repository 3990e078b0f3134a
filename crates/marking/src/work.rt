//! The working memory of the rounds backward, in lent words.
ghost use Rattle.std.specs.Prelude.{◌≡◌, ◌*◌, length};

// The levels and the ways of the word that one row pops, and the nodes whose line of good edges changed in the last round.
#[derive(Drop)]
pub(crate) struct Work<'a> {
    pub levels: &'a mut [u16],
    pub ways: &'a mut [u16],
    pub pending: &'a mut [u16],
    ghost levels_long: { length levels.now ≡ 11 * length pending.now },
    ghost ways_long: { length ways.now ≡ 11 * length pending.now },
}
