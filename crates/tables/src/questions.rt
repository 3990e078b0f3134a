//! A table as a machine. Each answer is read off the bytes; the width takes one pass over them.
ghost use Rattle.std.specs.Prelude.{◌≡◌, ℕ, slice_index, refl};
ghost use Rattle.machine.specs.Lists.{Lists, Few, Limits, above, ends};
ghost use Rattle.tables.specs.Tables.{lists_of};
ghost use Rattle.tables.specs.Facts.{few_of, limits_of};

use crate::table::Table;
use entries::entry::Entry;
use entries::section::entry_in;
use machine::machine::Machine;
use machine::row::Row;

// The state at a place, or 0 where none stands.
fn state_at(states: &[u8], place: usize) -> u8
    ensures { result ≡ slice_index states.now place }
{
    states.get(place).copied().unwrap_or(0)
}

// One more than the largest of the states, or 0 where there is none.
fn above_states(states: &[u8]) -> usize
    ensures { result ≡ above states.now }
{
    states
        .iter()
        .copied()
        .max()
        .map_or(0, |state| usize::from(state) + 1)
}

impl Machine for Table<'_> {
    ghost shown = { λ t. t.bytes.now };

    ghost layout = { lists_of };

    ghost lists = { λ t. lists_of t.bytes.now };

    ghost laid = { λ t. refl };

    ghost few = { λ t. few_of t.bytes.now t.starts.now t.accepts.now t.rows.now t.lawful };

    ghost limits = { λ t. limits_of t.bytes.now t.starts.now t.accepts.now t.rows.now t.lawful };

    fn width(&self) -> usize {
        let states = above_states(self.starts).max(above_states(self.accepts));
        let rows = (0..self.row_count())
            .map(|place| {
                let row = self.row(place);
                usize::from(row.from.max(row.to)) + 1
            })
            .max()
            .unwrap_or(0);
        states.max(rows)
    }

    fn start_count(&self) -> usize {
        self.starts.len()
    }

    fn start(&self, place: usize) -> u8 {
        state_at(self.starts, place)
    }

    fn accept_count(&self) -> usize {
        self.accepts.len()
    }

    fn accept(&self, place: usize) -> u8 {
        state_at(self.accepts, place)
    }

    fn row_count(&self) -> usize {
        self.rows.len() / Row::width()
    }

    fn row(&self, place: usize) -> Row {
        entry_in(self.rows, place).unwrap_or(Row::ZERO)
    }
}
