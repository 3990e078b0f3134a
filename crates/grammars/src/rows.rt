//! The rows of a grammar's machine, one kind each.
ghost use Rattle.std.specs.Prelude.{◌≡◌};
ghost use Rattle.grammars.specs.Machines.{one_symbol, start_row, production_row, terminal_row, last_row};

use crate::production::Production;
use crate::symbol::{BOTTOM, Symbol};
use machine::row::{Row, Word};

// The states: a run begins in the first, rewrites the stack in the second and ends in the third.
pub const START: u8 = 0;

pub const REWRITE: u8 = 1;

pub const ACCEPT: u8 = 2;

pub const STATES: usize = 3;

fn one_symbol(symbol: u8) -> Word
    ensures { result ≡ one_symbol symbol }
{
    Word {
        len: 1,
        symbols: [symbol, 0, 0, 0, 0, 0, 0, 0, 0, 0],
    }
}

// Pushes a start symbol, and the mark of the bottom below it.
pub fn start_row(symbol: Symbol) -> Row
    ensures { result ≡ start_row symbol }
{
    let pushed = Word {
        len: 2,
        symbols: [symbol.0, BOTTOM, 0, 0, 0, 0, 0, 0, 0, 0],
    };
    Row {
        from: START,
        letter: 0,
        to: REWRITE,
        popped: Word::EMPTY,
        pushed,
    }
}

// Puts the right side in place of the left symbol.
pub fn production_row(production: Production) -> Row
    ensures { result ≡ production_row production }
{
    Row {
        from: REWRITE,
        letter: 0,
        to: REWRITE,
        popped: one_symbol(production.left),
        pushed: production.right,
    }
}

// Reads a terminal, and pops it.
pub fn terminal_row(symbol: Symbol) -> Row
    ensures { result ≡ terminal_row symbol }
{
    Row {
        from: REWRITE,
        letter: symbol.0,
        to: REWRITE,
        popped: one_symbol(symbol.0),
        pushed: Word::EMPTY,
    }
}

// Pops the mark of the bottom.
pub fn last_row() -> Row
    ensures { result ≡ last_row }
{
    Row {
        from: REWRITE,
        letter: 0,
        to: ACCEPT,
        popped: one_symbol(BOTTOM),
        pushed: Word::EMPTY,
    }
}
