//! Lines of words, each a set of nodes. But for its lines, as sets, nothing else knows how a relation's pair is stored.
//! The words are kept by targets: line y has the sources of y, so that most steps are an OR of whole lines.
//! Levels and ways are such lines too, though not as many as nodes.
ghost use Rattle.std.specs.Prelude.{◌≡◌, ℕ, ◌+◌, ◌*◌, ◌<◌, ◌≤◌, length, Decides};
ghost use Rattle.marking.specs.Relations.{On, Adds};

// Whether node x stands in line y.
pub(crate) fn has(words: &[u16], n: usize, x: usize, y: usize) -> bool
    requires { (x < n) × (y * n + n ≤ length words.now) }
    ensures { (h : ℕ) → y < h → length words.now ≡ h * n → Decides result (On words.now n h x y) }
{
    words[y * n + x] != 0
}

// Node x comes to stand in line y.
pub(crate) fn add(words: &mut [u16], n: usize, x: usize, y: usize)
    requires { (x < n) × (y * n + n ≤ length words.old) }
    ensures { (h : ℕ) → y < h → length words.old ≡ h * n → Adds words.old words.new n h (λ u v. (u ≡ x) × (v ≡ y)) }
{
    words[y * n + x] = 1;
}
