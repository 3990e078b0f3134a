//! How much scratch marking takes.
ghost use Rattle.std.specs.Prelude.{◌≡◌, ◌+◌, ◌≤◌};
ghost use Rattle.machine.specs.Lists.{width_of};
ghost use Rattle.marking.specs.Marks.{pushed, scratch_need};

use machine::machine::Machine;

// The symbols that the rows push, all together.
fn pushed_count<M: Machine>(m: &M) -> usize
    ensures { (result ≡ pushed (M.Machine.lists m.now).rows) × (result ≤ 10240) }
{
    (0..m.row_count())
        .map(|i| usize::from(m.row(i).pushed.len))
        .sum()
}

// The nodes of the machine's graph: its states, and the symbols that its rows push.
pub(crate) fn node_count<M: Machine>(m: &M) -> usize
    ensures { (result ≡ width_of (M.Machine.lists m.now) + pushed (M.Machine.lists m.now).rows) × (result ≤ 10496) }
{
    m.width() + pushed_count(m)
}

// The words of scratch that marking takes for this machine.
pub fn scratch_need<M: Machine>(m: &M) -> usize
    ensures { result ≡ scratch_need (M.Machine.lists m.now) }
{
    let n = node_count(m) + 4;
    4 * n * n + 8 * n + 4 * m.row_count()
}
