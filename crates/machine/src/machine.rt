//! The machine interface: what every kind of machine tells, and the facts that it owes.
ghost use Rattle.std.specs.Prelude.{◌≡◌, ℕ, List, length, slice_index, slice_index_or};
ghost use Rattle.machine.specs.Rows.{zero_row};
ghost use Rattle.machine.specs.Lists.{Lists, Few, Limits, width_of};

use crate::row::Row;

// A kind of machine. Its meaning is three lists, and every answer is read off them; entries may repeat and
// stand in any order. No question refuses anything, and none changes the machine.
pub trait Machine {
    // the bytes that the machine shows, and the lists that its layout defines for bytes
    ghost shown: { Self → List ℕ };

    ghost layout: { List ℕ → Lists };

    // the starts, the accepting states and the rows
    ghost lists: { Self → Lists };

    // One more than the largest state in the lists, or 0 where they are all empty.
    fn width(&self) -> usize
        ensures { result ≡ width_of (lists self.now) };

    fn start_count(&self) -> usize
        ensures { result ≡ length (lists self.now).starts };

    // The start at a place, or 0 where none stands.
    fn start(&self, place: usize) -> u8
        ensures { result ≡ slice_index (lists self.now).starts place };

    fn accept_count(&self) -> usize
        ensures { result ≡ length (lists self.now).accepts };

    // The accepting state at a place, or 0 where none stands.
    fn accept(&self, place: usize) -> u8
        ensures { result ≡ slice_index (lists self.now).accepts place };

    fn row_count(&self) -> usize
        ensures { result ≡ length (lists self.now).rows };

    // The row at a place, or the row of zeros where none stands.
    fn row(&self, place: usize) -> Row
        ensures { result ≡ slice_index_or (lists self.now).rows place zero_row };

    // the lists are those that the layout defines
    ghost laid: { (m : Self) → lists m ≡ layout (shown m) };

    // at most 256 starts, 256 accepting states and 1,024 rows
    ghost few: { (m : Self) → Few (lists m) };

    // every state, letter, symbol and word keeps its limits
    ghost limits: { (m : Self) → Limits (lists m) };
}
