//! The marks of a machine's rows, and their listing in an output.
ghost use Rattle.std.specs.Prelude.{◌≡◌, ◌≤◌, length};
ghost use Rattle.listing.specs.Listings.{summed_text, Puts};

use crate::draft::Draft;
use marking::counts::Counts;

// The marks, and how many of them there are of each kind. A machine has at most 1,024 rows.
#[derive(Clone, Copy)]
pub(crate) struct Marked<'a> {
    pub(crate) marks: &'a [u8],
    pub(crate) counts: Counts,
    ghost few: { length marks.now ≤ 1024 },
}

impl Marked<'_> {
    // The listing from the start of the output on, where it fits; answers its length even where it does not.
    // The bytes past it stay as they are.
    pub(crate) fn put(self, out: &mut [u8]) -> usize
        ensures len { result ≡ length (summed_text self.entry.marks.now self.entry.counts) }
        ensures put { result ≤ length out.old → Puts (summed_text self.entry.marks.now self.entry.counts) 0 out.old out.new result }
    {
        let mut draft = Draft { out, len: 0 };
        draft.put_listing(self);
        draft.len
    }

    // How long the listing is. One put where nothing fits is only counted.
    pub(crate) fn listing_len(self) -> usize
        ensures { result ≡ length (summed_text self.entry.marks.now self.entry.counts) }
    {
        self.put(&mut [])
    }
}
