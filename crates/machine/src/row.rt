//! A row of a machine: one transition of a pushdown automaton, by value.
ghost use Rattle.std.specs.Prelude.{◌≡◌};
ghost use Rattle.machine.specs.Rows.{padded, lawful_word, lawful_row, symbols_of};

// A word of stack symbols, the first nearest the top. The symbols from `len` on are 0.
#[derive(Clone, Copy, PartialEq, Eq, Debug)]
pub struct Word {
    pub len: u8,
    pub symbols: [u8; 10],
}

// In state `from`, with `popped` on top of the stack, the row reads `letter` (0: nothing),
// puts `pushed` in place of `popped` and goes to state `to`.
#[derive(Clone, Copy, PartialEq, Eq, Debug)]
pub struct Row {
    pub from: u8,
    pub letter: u8,
    pub to: u8,
    pub popped: Word,
    pub pushed: Word,
}

// Whether the first `len` bytes are symbols and the others 0, with at least `len` bytes there.
fn is_padded(len: u8, bytes: &[u8]) -> bool
    ensures { result ≡ padded len bytes.now }
{
    // a count by hand: chains of `all` over the parts or the places take twice as long on short words
    let mut left = len;
    for b in bytes {
        if left == 0 {
            if *b != 0 {
                return false;
            }
        } else {
            if *b == 0 {
                return false;
            }
            left -= 1;
        }
    }
    left == 0
}

impl Word {
    pub const EMPTY: Word = Word {
        len: 0,
        symbols: [0; 10],
    };

    // Whether the word keeps its limits: at most ten symbols, and zeros after them.
    pub fn is_lawful(&self) -> bool
        ensures { result ≡ lawful_word self.now }
    {
        is_padded(self.len, &self.symbols)
    }

    // The symbols of the word, the first nearest the top of the stack.
    pub fn symbols(&self) -> &[u8]
        ensures { result.now ≡ symbols_of self.now }
    {
        // a word has no more symbols than its array, whatever `len` says
        let len = usize::from(self.len).min(self.symbols.len());
        &self.symbols[..len]
    }
}

impl Row {
    // The answer for a place where no row stands.
    pub const ZERO: Row = Row {
        from: 0,
        letter: 0,
        to: 0,
        popped: Word::EMPTY,
        pushed: Word::EMPTY,
    };

    // Whether both words keep their limits; the other parts cannot break theirs.
    pub fn is_lawful(&self) -> bool
        ensures { result ≡ lawful_row self.now }
    {
        let Row {
            from,
            letter,
            to,
            popped,
            pushed,
        } = *self;
        popped.is_lawful() && pushed.is_lawful()
    }
}
