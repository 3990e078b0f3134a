//! Rows as entries: 25 bytes, ordered byte by byte from the first on.
ghost use Rattle.std.specs.Prelude.{◌≡◌, ◌+◌, ◌≤◌, true, length};
ghost use Rattle.entries.specs.Sorts.{Sort, Laws, entry_at, lexical};
ghost use Rattle.entries.specs.Rows.{rows, heads, row_bytes};
ghost use Rattle.machine.specs.Rows.{lawful_row};
ghost use Rattle.entries.specs.RowBytes.{rows_laws};

use crate::bytes::put_bytes;
use crate::entry::Entry;
use machine::row::{Row, Word};
use std::cmp::Ordering;

const WORD: usize = 10;

const ROW: usize = 25;

// The 25 bytes of a row.
fn bytes_of(row: &Row) -> [u8; ROW]
    ensures bytes { result ≡ row_bytes row.now }
    ensures ten { length row.now.popped.symbols ≡ 10 }
{
    let mut bytes = [0; ROW];
    bytes[0] = row.from;
    bytes[1] = row.letter;
    bytes[2] = row.to;
    bytes[3] = row.popped.len;
    bytes[4] = row.pushed.len;
    bytes[5..15].copy_from_slice(&row.popped.symbols);
    bytes[15..25].copy_from_slice(&row.pushed.symbols);
    bytes
}

// What rows are ordered by: the first five bytes, then the popped word, then the pushed word.
// To order all 25 bytes as one array takes three times as long, for they are put together first.
#[inline]
fn key(row: &Row) -> ([u8; 5], [u8; WORD], [u8; WORD])
    ensures { result ≡ (heads row.now, row.now.popped.symbols, row.now.pushed.symbols) }
{
    let heads = [row.from, row.letter, row.to, row.popped.len, row.pushed.len];
    let popped = row.popped.symbols;
    let pushed = row.pushed.symbols;
    (heads, popped, pushed)
}

impl Entry for Row {
    ghost sort = { rows };

    ghost laws = { rows_laws };

    fn width() -> usize {
        ROW
    }

    fn from_bytes(bytes: &[u8]) -> Option<Row> {
        let [from, letter, to, popped_len, pushed_len, words @ ..] = bytes else {
            return None;
        };
        let (popped, rest) = words.split_first_chunk()?;
        let pushed = rest.first_chunk()?;
        Some(Row {
            from: *from,
            letter: *letter,
            to: *to,
            popped: Word {
                len: *popped_len,
                symbols: *popped,
            },
            pushed: Word {
                len: *pushed_len,
                symbols: *pushed,
            },
        })
    }

    fn is_lawful(&self) -> bool {
        Row::is_lawful(self)
    }

    // Shown beside: for lawful rows this is the order of their bytes.
    fn compare(&self, other: &Row) -> Ordering
        ensures ranked { result ≡ rows.rank self.now other.now }
        ensures bytewise { lawful_row self.now ≡ true → lawful_row other.now ≡ true → result ≡ lexical (rows.encode self.now) (rows.encode other.now) }
    {
        key(self).cmp(&key(other))
    }

    fn write(&self, out: &mut [u8], at: usize) -> bool {
        put_bytes(out, at, &bytes_of(self))
    }
}
