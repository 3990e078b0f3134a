//! The views that bytes open to, so that one function serves every kind of file.
ghost use Rattle.std.specs.Prelude.{◌≡◌, ℕ, List, Result, MatchResult};
ghost use Rattle.machine.specs.declared.fault.Fault.{Fault};
ghost use Rattle.machine.specs.Lists.{Lists};
ghost use Rattle.tables.specs.Tables.{open_table};
ghost use Rattle.reports.specs.Openings.{open_grammar_machine};

use grammars::grammar::Grammar;
use machine::fault::Fault;
use machine::machine::Machine;
use tables::table::Table;

// A view of a file's bytes, which is the file's machine.
pub trait View<'a>: Machine + Copy {
    // the lists of the machine that the bytes show, or the fault that they have
    ghost opening: { List ℕ → Result Lists Fault };

    fn opened(bytes: &'a [u8]) -> Result<Self, Fault>
        ensures { MatchResult result (λ view. opening bytes.now ≡ Ok (Self.lists view)) (λ f. opening bytes.now ≡ Err f) };
}

impl<'a> View<'a> for Table<'a> {
    ghost opening = { open_table };

    fn opened(bytes: &'a [u8]) -> Result<Table<'a>, Fault> {
        Table::try_from(bytes)
    }
}

impl<'a> View<'a> for Grammar<'a> {
    ghost opening = { open_grammar_machine };

    fn opened(bytes: &'a [u8]) -> Result<Grammar<'a>, Fault> {
        Grammar::try_from(bytes)
    }
}
