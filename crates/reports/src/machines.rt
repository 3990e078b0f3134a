//! The text of a machine: how much it has, its starts, its accepting states and its rows.
ghost use Rattle.std.specs.Prelude.{◌≡◌, ◌++◌, IfOk, string_bytes, OnOk};
ghost use Rattle.reports.specs.Texts.{rows_text, machine_text};

use crate::numbers::Numbers;
use crate::rows::PlacedRow;
use machine::machine::Machine;
use std::alloc::{AllocError, Global};

// Appends the lines of all rows, in the machine's order.
fn put_rows<M: Machine>(text: &mut String, m: &M) -> Result<(), AllocError>
    ensures { OnOk result (string_bytes text.new ≡ string_bytes text.old ++ rows_text 0 (M.lists m.now).rows) }
{
    for place in 0..m.row_count() {
        let row = m.row(place);
        write!(text, "{}", PlacedRow { place, row })?;
    }
    Ok(())
}

// The whole text of a machine. The first line says how many of each to expect.
pub fn machine_text<M: Machine>(heap: Global, m: &M) -> Result<String, AllocError>
    ensures { IfOk result (λ t. string_bytes t ≡ machine_text (M.lists m.now)) }
{
    let (starting, accepting) = (m.start_count(), m.accept_count());
    let (rows, width) = (m.row_count(), m.width());
    let starts: Vec<u8> = (0..starting).map(|place| m.start(place)).collect(heap)?;
    let accepts: Vec<u8> = (0..accepting).map(|place| m.accept(place)).collect(heap)?;
    let mut text = String::new(heap);
    writeln!(
        text,
        "starts {starting} accepting {accepting} rows {rows} width {width}"
    )?;
    writeln!(text, "start{}", Numbers(&starts))?;
    writeln!(text, "accept{}", Numbers(&accepts))?;
    put_rows(&mut text, m)?;
    Ok(text)
}
