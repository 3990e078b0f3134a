//! The check that no terminal is a start symbol or a left side. It takes one turn for each of them.
ghost use Rattle.std.specs.Prelude.{◌≡◌, slice_index_or, Ok, Err, MatchResult};
ghost use Rattle.grammars.specs.Productions.{zero_production};
ghost use Rattle.grammars.specs.Grammars.{is_among, first_terminal, terminal_left, numbers_of, read_lists, check_terminals};

use crate::sections::Sections;
use machine::fault::{Fault, Rule};

fn is_terminal(terminals: &[u8], symbol: u8) -> bool
    ensures { result ≡ is_among symbol terminals.now }
{
    terminals.contains(&symbol)
}

// The first place at which a symbol is a terminal.
fn first_terminal(terminals: &[u8], symbols: &[u8]) -> Option<usize>
    ensures { result ≡ first_terminal terminals.now 0 symbols.now }
{
    symbols
        .iter()
        .position(|symbol| is_terminal(terminals, *symbol))
}

impl Sections<'_> {
    // Whether the left side of the rule at a place is a terminal.
    fn is_terminal_left(&self, place: usize) -> bool
        ensures { result ≡ is_among (slice_index_or (read_lists self.now.bytes.now).productions place zero_production).left (numbers_of (read_lists self.now.bytes.now).terminals) }
    {
        is_terminal(self.terminals, self.production(place).left)
    }

    // The first rule whose left side is a terminal.
    fn first_left(&self) -> Option<usize>
        ensures { result ≡ terminal_left (read_lists self.now.bytes.now) }
    {
        (0..self.sizes().third).find(|place| self.is_terminal_left(*place))
    }

    // The first start symbol that is a terminal is a fault, else the first left side that is one.
    pub fn check_terminals(&self) -> Result<(), Fault>
        ensures { MatchResult result (λ _. check_terminals (read_lists self.now.bytes.now) ≡ Ok (read_lists self.now.bytes.now)) (λ f. check_terminals (read_lists self.now.bytes.now) ≡ Err f) }
    {
        if let Some(place) = first_terminal(self.terminals, self.starts) {
            return Err(Rule::Terminal.at(1, place));
        }
        if let Some(place) = self.first_left() {
            return Err(Rule::Terminal.at(3, place));
        }
        Ok(())
    }
}
