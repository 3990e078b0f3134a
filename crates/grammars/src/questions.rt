//! A grammar as a machine. Each answer is read off the bytes.
ghost use Rattle.std.specs.Prelude.{◌≡◌, refl};
ghost use Rattle.grammars.specs.Grammars.{grammar_of};
ghost use Rattle.grammars.specs.Machines.{machine_of};
ghost use Rattle.grammars.specs.Facts.{few_of, limits_of};

use crate::grammar::Grammar;
use crate::parts::{Part, part_of};
use crate::rows::{ACCEPT, START, STATES, last_row, production_row, start_row, terminal_row};
use crate::symbol::Symbol;
use entries::sizes::Sizes;
use machine::machine::Machine;
use machine::row::Row;

impl Machine for Grammar<'_> {
    ghost shown = { λ g. g.sections.bytes.now };

    ghost layout = { λ bs. machine_of (grammar_of bs) };

    ghost lists = { λ g. machine_of (grammar_of g.sections.bytes.now) };

    ghost laid = { λ g. refl };

    ghost few = { λ g. few_of g.sections.bytes.now g.sections.starts.now g.sections.terminals.now g.sections.productions.now g.sections.read g.lawful };

    ghost limits = { λ g. limits_of g.sections.bytes.now g.sections.starts.now g.sections.terminals.now g.sections.productions.now g.sections.read g.lawful };

    fn width(&self) -> usize {
        STATES
    }

    fn start_count(&self) -> usize {
        1
    }

    fn start(&self, place: usize) -> u8 {
        match place {
            0 => START,
            _ => 0,
        }
    }

    fn accept_count(&self) -> usize {
        1
    }

    fn accept(&self, place: usize) -> u8 {
        match place {
            0 => ACCEPT,
            _ => 0,
        }
    }

    fn row_count(&self) -> usize {
        let Sizes {
            first,
            second,
            third,
        } = self.sections.sizes();
        first + third + second + 1
    }

    fn row(&self, place: usize) -> Row {
        let sections = self.sections;
        match part_of(sections.sizes(), place) {
            Some(Part::Start(i)) => start_row(Symbol(sections.starts[i])),
            Some(Part::Rule(i)) => production_row(sections.production(i)),
            Some(Part::Terminal(i)) => terminal_row(Symbol(sections.terminals[i])),
            Some(Part::Last) => last_row(),
            None => Row::ZERO,
        }
    }
}
