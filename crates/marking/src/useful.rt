//! Which starts and which accepting states some accepting run uses, by the solved graph.
ghost use Rattle.std.specs.Prelude.{◌≡◌, ℕ, ◌<◌, List, length, slice_index};
ghost use mathlib.Core.List.{Memᴰ};
ghost use Rattle.marking.specs.Relations.{Member};
ghost use Rattle.marking.specs.Marks.{Flags};

use crate::counts::Counts;
use machine::machine::Machine;

// What some accepting run uses: how many rows, and for each state whether it is a useful start, a useful accepting state.
#[derive(Clone, Copy)]
pub struct Useful {
    pub counts: Counts,
    pub starts: [bool; 256],
    pub accepts: [bool; 256],
}

// Those of so many states that are in the set, as flags.
fn flags<F: Fn(usize) -> u8>(count: usize, state: F, set: &[u16]) -> [bool; 256]
    requires callable { (i : ℕ) → i < count → F.pre state i }
    requires inside { (i s : ℕ) → i < count → F.post state i s → s < length set.now }
    ensures { (states : List ℕ) → length states ≡ count → ((i s : ℕ) → i < count → F.post state i s → s ≡ slice_index states i) → Flags result (λ s. Memᴰ s states × Member set.now s) }
{
    let mut flags = [false; 256];
    for i in 0..count {
        let state = usize::from(state(i));
        if set[state] != 0 {
            flags[state] = true;
        }
    }
    flags
}

// The starts that are in the set, as flags.
pub(crate) fn flag_starts<M: Machine>(m: &M, set: &[u16]) -> [bool; 256]
    requires { (i : ℕ) → i < length (M.Machine.lists m.now).starts → slice_index (M.Machine.lists m.now).starts i < length set.now }
    ensures { Flags result (λ s. Memᴰ s (M.Machine.lists m.now).starts × Member set.now s) }
{
    flags(m.start_count(), |i| m.start(i), set)
}

// The accepting states that are in the set, as flags.
pub(crate) fn flag_accepts<M: Machine>(m: &M, set: &[u16]) -> [bool; 256]
    requires { (i : ℕ) → i < length (M.Machine.lists m.now).accepts → slice_index (M.Machine.lists m.now).accepts i < length set.now }
    ensures { Flags result (λ s. Memᴰ s (M.Machine.lists m.now).accepts × Member set.now s) }
{
    flags(m.accept_count(), |i| m.accept(i), set)
}
