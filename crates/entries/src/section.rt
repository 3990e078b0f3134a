//! The check of a section, made once for every sort of entries. It takes one turn an entry.
ghost use Rattle.std.specs.Prelude.{◌≡◌, ℕ, ◌+◌, ◌*◌, ◌<◌, ◌≤◌, ◌++◌, length, drop, IfOk, None, Ok, Err, MatchResult, OnOk};
ghost use Rattle.entries.specs.Sorts.{entry_at};
ghost use Rattle.entries.specs.Sections.{read_entry, follows, read_entries, read_count, read_section, holding, entries, joined, section_bytes, Ascending, Lawful};

use crate::entry::Entry;
use machine::fault::{Fault, Rule};

// A section that was found lawful: the number of its entries, their bytes, and the bytes past them.
#[derive(Clone, Copy)]
pub struct Section<'a> {
    pub count: usize,
    pub entries: &'a [u8],
    pub rest: &'a [u8],
}

// The entry in the first bytes: whole, then within its limits.
fn read_entry<T: Entry>(bytes: &[u8], section: u8, place: usize) -> Result<T, Fault>
    ensures { result ≡ read_entry T.sort section place bytes.now }
{
    let Some(entry) = T::from_bytes(bytes) else {
        return Err(Rule::Short.at(section, place));
    };
    if !entry.is_lawful() {
        return Err(Rule::Limits.at(section, place));
    }
    Ok(entry)
}

// Whether the entry may come next: above the one before it, if there is one.
pub fn follows<T: Entry>(last: &Option<T>, entry: &T) -> bool
    ensures { result ≡ follows T.sort last.now entry.now }
{
    match last {
        Some(before) => before.compare(entry).is_lt(),
        None => true,
    }
}

// The bytes past the first `count` entries, each whole, lawful and above the one before; or the first fault.
pub fn check_entries<T: Entry>(bytes: &[u8], section: u8, count: usize) -> Result<&[u8], Fault>
    ensures outcome { MatchResult result (λ rest. read_entries T.sort section 0 None count bytes.now ≡ Ok rest.now) (λ f. read_entries T.sort section 0 None count bytes.now ≡ Err f) }
    ensures ascends { OnOk result (Ascending T.sort (entries T.sort count bytes.now)) }
{
    let width = T::width();
    let mut rest = bytes;
    let mut last: Option<T> = None;
    for place in 0..count {
        let entry: T = read_entry(rest, section, place)?;
        if !follows(&last, &entry) {
            return Err(Rule::Order.at(section, place));
        }
        last = Some(entry);
        rest = &rest[width..];
    }
    Ok(rest)
}

// The number of a section's entries, and the bytes past it.
fn read_count(bytes: &[u8], section: u8, most: usize) -> Result<(usize, &[u8]), Fault>
    ensures outcome { MatchResult result (λ p. read_count section most bytes.now ≡ Ok p.0) (λ f. read_count section most bytes.now ≡ Err f) }
    ensures body { IfOk result (λ p. p.1.now ≡ drop 2 bytes.now) }
{
    let Some((count, body)) = bytes.split_first_chunk::<2>() else {
        return Err(Rule::Short.at(section, 0));
    };
    let count = usize::from(u16::from_be_bytes(*count));
    if count > most {
        return Err(Rule::Count.at(section, 0));
    }
    Ok((count, body))
}

// A section of at most `most` entries: its count, then its entries; or the first fault.
pub fn read_section<T: Entry>(bytes: &[u8], section: u8, most: usize) -> Result<Section<'_>, Fault>
    ensures outcome { MatchResult result (λ s. read_section T.sort section most bytes.now ≡ Ok (holding T.sort s.count bytes.now s.rest.now)) (λ f. read_section T.sort section most bytes.now ≡ Err f) }
    ensures entries { IfOk result (λ s. s.entries.now ≡ joined T.sort.encode (entries T.sort s.count (drop 2 bytes.now))) }
    ensures lawful { IfOk result (λ s. Lawful T.sort most (entries T.sort s.count (drop 2 bytes.now)) × (bytes.now ≡ section_bytes T.sort (entries T.sort s.count (drop 2 bytes.now)) ++ s.rest.now)) }
{
    let (count, body) = read_count(bytes, section, most)?;
    let rest = check_entries::<T>(body, section, count)?;
    let entries = &body[..body.len() - rest.len()];
    Ok(Section {
        count,
        entries,
        rest,
    })
}

// The entry at a place of a section's bytes, lawful or not; none where they end before it is whole.
pub fn entry_in<T: Entry>(bytes: &[u8], place: usize) -> Option<T>
    ensures { result ≡ entry_at T.sort (drop (T.sort.wide * place) bytes.now) }
{
    let at = T::width().checked_mul(place)?;
    T::from_bytes(bytes.get(at..)?)
}
