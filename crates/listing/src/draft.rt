//! A listing as it is put into an output.
ghost use Rattle.std.specs.Prelude.{◌≡◌, ◌+◌, ◌^◌, ◌<◌, ◌≤◌, length, decimal};
ghost use Rattle.listing.specs.Listings.{line_text, summary_text, summed_text};
ghost use Rattle.listing.specs.Drafts.{Adds};

use crate::marked::Marked;
use entries::bytes::put_bytes;
use itoa::Buffer;
use marking::counts::Counts;

// The text so far stands at the front of the output where it fits; `len` counts what does not fit too.
#[derive(Drop)]
pub(crate) struct Draft<'a> {
    pub(crate) out: &'a mut [u8],
    pub(crate) len: usize,
}

impl Draft<'_> {
    fn put(&mut self, text: &[u8])
        requires { self.old.len < 2 ^ 63 }
        ensures { Adds text.now self.old self.new }
    {
        put_bytes(self.out, self.len, text);
        self.len += text.len();
    }

    fn put_number(&mut self, n: usize)
        requires { self.old.len < 2 ^ 63 }
        ensures text { Adds (decimal n) self.old self.new }
        ensures short { self.new.len ≤ self.old.len + 20 }
    {
        self.put(Buffer::new().format(n).as_bytes());
    }

    // One line: the place of a row, and its mark.
    fn put_line(&mut self, place: usize, mark: u8)
        requires { self.old.len < 2 ^ 32 }
        ensures text { Adds (line_text place mark) self.old self.new }
        ensures short { self.new.len ≤ self.old.len + 42 }
    {
        self.put_number(place);
        self.put(b" ");
        self.put_number(usize::from(mark));
        self.put(b"\n");
    }

    // The last line: how many rows are useful, how many are reachable, and how many there are.
    fn put_summary(&mut self, counts: Counts, rows: usize)
        requires { self.old.len < 2 ^ 32 }
        ensures { Adds (summary_text counts rows) self.old self.new }
    {
        self.put(b"useful ");
        self.put_number(counts.useful);
        self.put(b" reachable ");
        self.put_number(counts.reachable);
        self.put(b" of ");
        self.put_number(rows);
        self.put(b"\n");
    }

    // The lines of all rows, and the last line.
    pub(crate) fn put_listing(&mut self, marked: Marked<'_>)
        requires { self.old.len < 2 ^ 31 }
        ensures { Adds (summed_text marked.entry.marks.now marked.entry.counts) self.old self.new }
    {
        for (place, mark) in marked.marks.iter().enumerate() {
            self.put_line(place, *mark);
        }
        self.put_summary(marked.counts, marked.marks.len());
    }
}
