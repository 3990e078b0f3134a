//! Rules as entries: 12 bytes, ordered byte by byte from the first on.
ghost use Rattle.std.specs.Prelude.{◌≡◌, [], ◌∷◌};
ghost use Rattle.machine.specs.Lists.{all};
ghost use Rattle.grammars.specs.Productions.{productions, production_bytes, not_bottom};
ghost use Rattle.grammars.specs.ProductionLaws.{productions_laws};

use crate::symbol::{BOTTOM, is_symbol};
use entries::bytes::put_bytes;
use entries::entry::Entry;
use machine::row::Word;
use std::cmp::Ordering;

const WORD: usize = 10;

const PRODUCTION: usize = 12;

// A rule of a grammar: its left symbol may be replaced by the word on the right.
#[derive(Clone, Copy)]
pub struct Production {
    pub left: u8,
    pub right: Word,
}

impl Production {
    // The answer for a place where no rule stands.
    pub const ZERO: Production = Production {
        left: 0,
        right: Word::EMPTY,
    };
}

// The 12 bytes of a rule.
fn bytes_of(production: &Production) -> [u8; PRODUCTION]
    ensures { result ≡ production_bytes production.now }
{
    let mut bytes = [0; PRODUCTION];
    bytes[0] = production.left;
    bytes[1] = production.right.len;
    bytes[2..12].copy_from_slice(&production.right.symbols);
    bytes
}

// What rules are ordered by, which is the order of their bytes: the first two bytes, then the word.
#[inline]
fn key(production: &Production) -> ([u8; 2], [u8; WORD])
    ensures { result ≡ (production.now.left ∷ (production.now.right.len ∷ []), production.now.right.symbols) }
{
    let heads = [production.left, production.right.len];
    let symbols = production.right.symbols;
    (heads, symbols)
}

// Whether the mark of the bottom stands nowhere in the bytes.
fn lacks_bottom(bytes: &[u8]) -> bool
    ensures { result ≡ all not_bottom bytes.now }
{
    !bytes.contains(&BOTTOM)
}

impl Entry for Production {
    ghost sort = { productions };

    ghost laws = { productions_laws };

    fn width() -> usize {
        PRODUCTION
    }

    fn from_bytes(bytes: &[u8]) -> Option<Production> {
        let [left, len, rest @ ..] = bytes else {
            return None;
        };
        Some(Production {
            left: *left,
            right: Word {
                len: *len,
                symbols: *rest.first_chunk()?,
            },
        })
    }

    fn is_lawful(&self) -> bool {
        is_symbol(self.left) && self.right.is_lawful() && lacks_bottom(&self.right.symbols)
    }

    fn compare(&self, other: &Production) -> Ordering {
        key(self).cmp(&key(other))
    }

    fn write(&self, out: &mut [u8], at: usize) -> bool {
        put_bytes(out, at, &bytes_of(self))
    }
}
