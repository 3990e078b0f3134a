//! Where the nodes come from that a set takes in, or that it is held against: one set, or what two sets have in common.
ghost use Rattle.std.specs.Prelude.{ℕ, ◌<◌, ◌↔◌, length, min};
ghost use Rattle.marking.specs.Relations.{Member};

pub(crate) trait Source: Copy {
    // for how many nodes it has a word
    ghost long: { Self → ℕ };

    // the nodes that are in it
    ghost has: { Self → ℕ → Type 0 };

    // The word for a node: above 0 where the node is in it.
    fn word(self, x: usize) -> u16
        requires { x < long self }
        ensures { (0 < result) ↔ (has self x) };

    ghost within: { (s : Self) (x : ℕ) → has s x → x < long s };
}

impl Source for &[u16] {
    ghost long = { λ s. length s.now };

    ghost has = { λ s x. (x < length s.now) × Member s.now x };

    ghost within = { λ s x h. h.0 };

    fn word(self, x: usize) -> u16 {
        self[x]
    }
}

// The nodes that are in both sets.
#[derive(Clone, Copy)]
pub(crate) struct Both<'a>(pub &'a [u16], pub &'a [u16]);

impl Source for Both<'_> {
    ghost long = { λ s. min (length s.0.now) (length s.1.now) };

    ghost has = { λ s x. (x < min (length s.0.now) (length s.1.now)) × (Member s.0.now x × Member s.1.now x) };

    ghost within = { λ s x h. h.0 };

    fn word(self, x: usize) -> u16 {
        self.0[x].min(self.1[x])
    }
}
