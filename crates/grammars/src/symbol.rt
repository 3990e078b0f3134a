//! Grammar symbols as entries: one byte, in the order of the numbers.
ghost use Rattle.std.specs.Prelude.{◌≡◌};
ghost use Rattle.grammars.specs.Symbols.{symbols, is_grammar_symbol};
ghost use Rattle.grammars.specs.SymbolLaws.{symbols_laws};

use entries::bytes::put_bytes;
use entries::entry::Entry;
use std::cmp::Ordering;

// The stack symbol that marks the bottom; it is no grammar symbol.
pub const BOTTOM: u8 = 255;

// A start symbol or a terminal.
#[derive(Clone, Copy)]
pub struct Symbol(pub u8);

// Whether the byte is a grammar symbol, 1 to 254.
pub fn is_symbol(byte: u8) -> bool
    ensures { result ≡ is_grammar_symbol byte }
{
    0 < byte && byte < BOTTOM
}

impl Entry for Symbol {
    ghost sort = { symbols };

    ghost laws = { symbols_laws };

    fn width() -> usize {
        1
    }

    fn from_bytes(bytes: &[u8]) -> Option<Symbol> {
        Some(Symbol(*bytes.first()?))
    }

    fn is_lawful(&self) -> bool {
        is_symbol(self.0)
    }

    fn compare(&self, other: &Symbol) -> Ordering {
        self.0.cmp(&other.0)
    }

    fn write(&self, out: &mut [u8], at: usize) -> bool {
        put_bytes(out, at, &[self.0])
    }
}
