//! A file of three sections, read once for every three sorts of entries. One pass over the bytes, and no memory.
ghost use Rattle.std.specs.Prelude.{◌≡◌, Err, MatchResult};
ghost use Rattle.entries.specs.Files.{read_file, layout_of, Holds};

use crate::entry::Entry;
use crate::section::read_section;
use crate::sizes::Sizes;
use machine::fault::{Fault, Rule};

// The bytes of the entries of each section.
#[derive(Clone, Copy)]
pub struct File<'a> {
    pub first: &'a [u8],
    pub second: &'a [u8],
    pub third: &'a [u8],
}

// The sections of a lawful file, each of at most so many entries; or the first fault.
pub fn read_file<X: Entry, Y: Entry, Z: Entry>(bytes: &[u8], most: Sizes) -> Result<File<'_>, Fault>
    ensures { MatchResult result (λ file. Holds (layout_of X.Entry.sort Y.Entry.sort Z.Entry.sort most.first most.second most.third) bytes.now file.first.now file.second.now file.third.now) (λ f. read_file (layout_of X.Entry.sort Y.Entry.sort Z.Entry.sort most.first most.second most.third) bytes.now ≡ Err f) }
{
    let one = read_section::<X>(bytes, 1, most.first)?;
    let two = read_section::<Y>(one.rest, 2, most.second)?;
    let three = read_section::<Z>(two.rest, 3, most.third)?;
    if !three.rest.is_empty() {
        return Err(Rule::Rest.at(3, three.count));
    }
    Ok(File {
        first: one.entries,
        second: two.entries,
        third: three.entries,
    })
}
