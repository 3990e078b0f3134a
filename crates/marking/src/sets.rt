//! Sets of nodes, a word for each node: a word above 0 says that the node is in the set.
ghost use Rattle.std.specs.Prelude.{◌≡◌, ℕ, ◌+◌, ◌*◌, ◌<◌, ◌≤◌, length, if◌then◌else◌, Decides, MatchBool, nat_eq, slice_index};
ghost use Rattle.marking.specs.Relations.{Member, IsLine, Share, Adds, Gains, HasEach, Misses};

use crate::source::Source;

pub(crate) fn clear(words: &mut [u16])
    ensures { (k : ℕ) → slice_index words.new k ≡ 0 }
{
    words.fill(0);
}

// Every node comes into the set.
pub(crate) fn fill(words: &mut [u16])
    ensures { (k : ℕ) → k < length words.new → slice_index words.new k ≡ 1 }
{
    words.fill(1);
}

// Clears the first words, so many of them.
pub(crate) fn clear_front(words: &mut [u16], count: usize)
    requires { count ≤ length words.old }
    ensures { (k : ℕ) → k < count → slice_index words.new k ≡ 0 }
{
    words[..count].fill(0);
}

// Line y of lines of n words, as a set.
pub(crate) fn line(words: &[u16], n: usize, y: usize) -> &[u16]
    requires { y * n + n ≤ length words.now }
    ensures { (length result.now ≡ n) × (((h : ℕ) → y < h → length words.now ≡ h * n → IsLine words.now n h y result.now)) }
{
    let begin = y * n;
    let end = begin + n;
    &words[begin..end]
}

// The set takes in each node of the other.
pub(crate) fn unite<S: Source>(set: &mut [u16], other: S)
    requires { length set.old ≡ S.long other }
    ensures { Gains set.old set.new (S.has other) }
{
    for (x, word) in set.iter_mut().enumerate() {
        *word = (*word).max(other.word(x));
    }
}

// Line y of lines of n words takes in each node of the set. Out of line: the loops round it, which look for nodes, stay short.
#[inline(never)]
pub(crate) fn take_in<S: Source>(words: &mut [u16], n: usize, y: usize, set: S)
    requires { (y * n + n ≤ length words.old) × (S.long set ≡ n) }
    ensures { (h : ℕ) → y < h → length words.old ≡ h * n → Adds words.old words.new n h (λ u v. (v ≡ y) × S.has set u) }
{
    let begin = y * n;
    let end = begin + n;
    unite(&mut words[begin..end], set);
}

// Whether some node is in both sets. No early way out: the loop is then one over vectors.
pub(crate) fn share(set: &[u16], other: &[u16]) -> bool
    requires { length set.now ≤ length other.now }
    ensures { Decides result (Share set.now other.now) }
{
    let mut common = 0;
    for (word, also) in set.iter().zip(other) {
        common = (*word).min(*also).max(common);
    }
    common != 0
}

// A word that says no is wanted to say yes.
fn lacking(wanted: u16, word: u16) -> u16
    ensures { result ≡ (if nat_eq word 0 then wanted else 0) }
{
    if word == 0 { wanted } else { 0 }
}

// Whether the set has each node of the other. No early way out here either.
pub(crate) fn covers<S: Source>(set: &[u16], other: S) -> bool
    requires { length set.now ≡ S.long other }
    ensures { MatchBool result (HasEach set.now (S.has other)) (Misses set.now (S.has other)) }
{
    let mut missing = 0;
    for (x, word) in set.iter().enumerate() {
        missing = lacking(other.word(x), *word).max(missing);
    }
    missing == 0
}
