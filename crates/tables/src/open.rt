//! Opening a table: one pass over the bytes, and no memory.
ghost use Rattle.std.specs.Prelude.{◌≡◌, ℕ, List, [], ◌∷◌, take, Ok, Err, MatchResult, OnOk};
ghost use Rattle.machine.specs.Lists.{Lists};
ghost use Rattle.tables.specs.Tables.{open_table, lists_of, LawfulTable, encode_table, TableLaws};

use crate::table::Table;
use entries::file::{File, read_file};
use entries::sizes::Sizes;
use machine::fault::Fault;
use machine::row::Row;

const MOST_STARTS: usize = 256;

const MOST_ACCEPTS: usize = 256;

const MOST_ROWS: usize = 1024;

const MOST: Sizes = Sizes {
    first: MOST_STARTS,
    second: MOST_ACCEPTS,
    third: MOST_ROWS,
};

// The header of three counts, and the largest sections.
const LONGEST: usize = 6 + MOST_STARTS + MOST_ACCEPTS + 25 * MOST_ROWS;

static NO_ENTRIES: [u8; 6] = [0; 6];

impl<'a> Table<'a> {
    // The view that is there from the beginning: six zero bytes, a table of no entries.
    pub fn empty() -> Table<'a>
        ensures { result.bytes.now ≡ 0 ∷ (0 ∷ (0 ∷ (0 ∷ (0 ∷ (0 ∷ []))))) }
    {
        Table {
            bytes: &NO_ENTRIES,
            starts: &[],
            accepts: &[],
            rows: &[],
        }
    }

    // Opens the bytes into this view, which then shows those very bytes. A refusal leaves the view as it was.
    pub fn open(&mut self, bytes: &'a [u8]) -> Result<(), Fault>
        ensures outcome { MatchResult result (λ _. (open_table bytes.now ≡ Ok (lists_of bytes.now)) × (self.new.bytes ≡ bytes.entry)) (λ f. (open_table bytes.now ≡ Err f) × (self.new ≡ self.old)) }
        ensures encoding { OnOk result (LawfulTable (lists_of bytes.now) × (bytes.now ≡ encode_table (lists_of bytes.now))) }
        ensures laws { TableLaws }
    {
        *self = Table::try_from(bytes)?;
        Ok(())
    }

    // The bytes that the view shows.
    pub fn bytes(&self) -> &'a [u8]
        ensures { result.now ≡ self.now.bytes.now }
    {
        self.bytes
    }
}

// The view of the bytes, or the first fault.
impl<'a> TryFrom<&'a [u8]> for Table<'a> {
    type Error = Fault;

    ghost try_from_gives = { λ bytes r. MatchResult r (λ t. (open_table bytes.now ≡ Ok (lists_of bytes.now)) × (t.bytes ≡ bytes)) (λ f. open_table bytes.now ≡ Err f) × (OnOk r (LawfulTable (lists_of bytes.now) × (bytes.now ≡ encode_table (lists_of bytes.now))) × TableLaws) };

    fn try_from(bytes: &'a [u8]) -> Result<Table<'a>, Fault> {
        let File {
            first: starts,
            second: accepts,
            third: rows,
        } = read_file::<u8, u8, Row>(bytes, MOST)?;
        Ok(Table {
            bytes,
            starts,
            accepts,
            rows,
        })
    }
}

// How many bytes of an input decide, however long it is: a byte more than the longest table.
pub fn enough_bytes() -> usize
    ensures { (bs : List ℕ) → open_table (take result bs) ≡ open_table bs }
{
    LONGEST + 1
}
