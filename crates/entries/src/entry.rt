//! What an entry of a section is: a fixed number of bytes, limits, and a total order.
ghost use Rattle.std.specs.Prelude.{◌≡◌};
ghost use Rattle.entries.specs.Outputs.{Wrote};
ghost use Rattle.entries.specs.Sorts.{Sort, Laws, entry_at};

use std::cmp::Ordering;

// Entries of one sort. `sort` says how they are laid out and ordered, and `laws` what every sort obeys;
// what the order is, nobody outside an implementation may know.
pub trait Entry: Copy {
    ghost sort: { Sort Self };

    // The number of bytes of an entry.
    fn width() -> usize
        ensures { result ≡ sort.wide };

    // The entry in the first bytes, lawful or not; none where the bytes end before it is whole.
    fn from_bytes(bytes: &[u8]) -> Option<Self>
        ensures { result ≡ entry_at sort bytes.now };

    // Whether the entry keeps its limits.
    fn is_lawful(&self) -> bool
        ensures { result ≡ sort.lawful self.now };

    // Whether the entry is below, equal to or above the other.
    fn compare(&self, other: &Self) -> Ordering
        ensures { result ≡ sort.rank self.now other.now };

    // Writes the entry's bytes from a place on, or nothing where they do not fit; answers whether they fit.
    fn write(&self, out: &mut [u8], at: usize) -> bool
        ensures { Wrote (sort.encode self.now) at out.old out.new result };

    ghost laws: { Laws sort };
}
