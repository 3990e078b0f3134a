//! The line of a row.
ghost use Rattle.std.specs.Prelude.{Some};
ghost use Rattle.reports.specs.Texts.{row_text};

use crate::numbers::Numbers;
use machine::row::Row;
use std::fmt;

// A row, with the place by which the machine is asked for it.
#[derive(Clone, Copy)]
pub(crate) struct PlacedRow {
    pub(crate) place: usize,
    pub(crate) row: Row,
}

impl fmt::Display for PlacedRow {
    ghost output = { λ r. Some (row_text r.place r.row) };

    fn fmt<W: fmt::Write>(&self, f: &mut fmt::Formatter<W>) -> fmt::Result {
        let PlacedRow { place, row } = *self;
        let Row {
            from,
            letter,
            to,
            popped,
            pushed,
        } = row;
        let pop = Numbers(popped.symbols());
        let push = Numbers(pushed.symbols());
        writeln!(
            f,
            "row {place} from {from} letter {letter} to {to} pop{pop} push{push}"
        )
    }
}
