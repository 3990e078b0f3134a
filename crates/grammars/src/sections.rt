//! The sections of a file that reads as a grammar, whatever its terminals are.
ghost use Rattle.std.specs.Prelude.{◌≡◌, length, slice_index_or, Err, MatchResult};
ghost use Rattle.entries.specs.Files.{Holds};
ghost use Rattle.grammars.specs.Productions.{zero_production};
ghost use Rattle.grammars.specs.Grammars.{grammar_layout, read_grammar, read_lists};

use crate::production::Production;
use crate::symbol::Symbol;
use entries::entry::Entry;
use entries::file::{File, read_file};
use entries::section::entry_in;
use entries::sizes::Sizes;
use machine::fault::Fault;

const MOST_STARTS: usize = 254;

const MOST_TERMINALS: usize = 254;

const MOST_PRODUCTIONS: usize = 512;

const MOST: Sizes = Sizes {
    first: MOST_STARTS,
    second: MOST_TERMINALS,
    third: MOST_PRODUCTIONS,
};

// The header of three counts, and the largest sections.
pub(crate) const LONGEST: usize = 6 + MOST_STARTS + MOST_TERMINALS + 12 * MOST_PRODUCTIONS;

// A view of bytes that were read; a start symbol or a left side may still be a terminal.
#[derive(Clone, Copy)]
pub struct Sections<'a> {
    pub(crate) bytes: &'a [u8],
    pub(crate) starts: &'a [u8],
    pub(crate) terminals: &'a [u8],
    pub(crate) productions: &'a [u8],
    ghost read: { Holds grammar_layout bytes.now starts.now terminals.now productions.now },
}

impl<'a> Sections<'a> {
    // The sections of the bytes, or the first fault.
    pub(crate) fn read(bytes: &'a [u8]) -> Result<Sections<'a>, Fault>
        ensures { MatchResult result (λ s. s.bytes ≡ bytes.entry) (λ f. read_grammar bytes.now ≡ Err f) }
    {
        let file = read_file::<Symbol, Symbol, Production>(bytes, MOST)?;
        Ok(Sections {
            bytes,
            starts: file.first,
            terminals: file.second,
            productions: file.third,
        })
    }

    pub fn sizes(&self) -> Sizes
        ensures first { result.first ≡ length (read_lists self.now.bytes.now).starts }
        ensures second { result.second ≡ length (read_lists self.now.bytes.now).terminals }
        ensures third { result.third ≡ length (read_lists self.now.bytes.now).productions }
    {
        Sizes {
            first: self.starts.len(),
            second: self.terminals.len(),
            third: self.productions.len() / Production::width(),
        }
    }

    // The rule at a place, or the rule of zeros where none stands.
    pub fn production(&self, place: usize) -> Production
        ensures { result ≡ slice_index_or (read_lists self.now.bytes.now).productions place zero_production }
    {
        entry_in(self.productions, place).unwrap_or(Production::ZERO)
    }
}
