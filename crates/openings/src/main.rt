//! Opens tables. Each line of the input is the bytes of a table in hexadecimal, in lower case and with nothing
//! between the digits. For each line one line is written: `opens` and the numbers of starts, accepting states and
//! rows and the width, or `refused` and the number, the section and the place of the fault, or `not hexadecimal`.
//! All the lines are opened into one and the same view. tools/opening_cases.py makes the lines and the answers.
#![tactic(auto)]

use hexadecimal::decoding;
use machine::fault::Fault;
use machine::machine::Machine;
use std::alloc::{AllocError, Global};
use std::io;
use std::io::{BufRead, BufReader};
use tables::table::Table;

// The bytes that a line writes out; none where a digit is bad or the last one stands alone.
fn decoded(heap: Global, line: &str) -> Result<Option<Vec<u8>>, AllocError> {
    decoding::decoded(heap, line.as_bytes())
}

// All lines of the input, decoded: the view borrows their bytes.
fn cases(rt: &HostRuntime) -> io::Result<Vec<Option<Vec<u8>>>> {
    let heap = rt.alloc();
    let mut cases = Vec::new(heap);
    for line in BufReader::new(heap, rt.stdin())?.lines(heap) {
        cases.push(decoded(heap, line?.as_str())?)?;
    }
    Ok(cases)
}

// Writes what came of an opening; an opened table is asked through the view.
fn tell(rt: &HostRuntime, table: &Table<'_>, outcome: Result<(), Fault>) -> io::Result<()> {
    match outcome {
        Ok(()) => {
            let (starts, accepts) = (table.start_count(), table.accept_count());
            let (rows, width) = (table.row_count(), table.width());
            println!(rt; "opens {starts} {accepts} {rows} {width}")
        }
        Err(fault) => println!(rt; "{fault}"),
    }
}

// Opens each case into the view, and tells what came of it.
fn open_each<'a>(
    rt: &HostRuntime,
    table: &mut Table<'a>,
    cases: &'a [Option<Vec<u8>>],
) -> io::Result<()> {
    for case in cases {
        match case {
            Some(bytes) => {
                let outcome = table.open(bytes.as_slice());
                tell(rt, table, outcome)?;
            }
            None => println!(rt; "not hexadecimal")?,
        }
    }
    Ok(())
}

fn main(rt: HostRuntime) -> io::Result<()> {
    let cases = cases(&rt)?;
    let mut table = Table::empty();
    open_each(&rt, &mut table, cases.as_slice())
}

#[cfg(test)]
mod tests {
    use super::*;
    use machine::fault::Rule;
    use machine::row::Row;
    use std::test::Fail;

    // One start, one accepting state and six rows.
    fn sample() -> &'static str {
        concat!(
            "000100",
            "000101",
            "0006",
            "00000100000000000000000000000000000000000000000000",
            "00280000010000000000000000000001000000000000000000",
            "00290001000100000000000000000000000000000000000000",
            "01000101000200000000000000000000000000000000000000",
            "01000202000101000000000000000000000000000000000000",
            "03000100000000000000000000000000000000000000000000"
        )
    }

    #[test]
    fn every_question_is_answered(rt: HostRuntime) -> Result<(), Fail> {
        let bytes = decoded(rt.alloc(), sample())?.ok_or("not hexadecimal")?;
        let mut table = Table::empty();
        table.open(bytes.as_slice())?;
        assert_eq!(rt; table.start_count(), 1);
        assert_eq!(rt; table.start(0), 0);
        assert_eq!(rt; table.start(1), 0);
        assert_eq!(rt; table.accept_count(), 1);
        assert_eq!(rt; table.accept(0), 1);
        assert_eq!(rt; table.accept(1), 0);
        assert_eq!(rt; table.row_count(), 6);
        assert_eq!(rt; table.row(1).letter, 40);
        assert_eq!(rt; table.row(1).pushed.len, 1);
        assert_eq!(rt; table.row(1).pushed.symbols, [1, 0, 0, 0, 0, 0, 0, 0, 0, 0]);
        assert_eq!(rt; table.width(), 4);
        Ok(())
    }

    #[test]
    fn past_the_rows_is_the_row_of_zeros(rt: HostRuntime) -> Result<(), Fail> {
        let bytes = decoded(rt.alloc(), sample())?.ok_or("not hexadecimal")?;
        let mut table = Table::empty();
        table.open(bytes.as_slice())?;
        let Row {
            from,
            letter,
            to,
            popped,
            pushed,
        } = table.row(6);
        assert_eq!(rt; (from, letter, to), (0, 0, 0));
        assert_eq!(rt; (popped.len, popped.symbols), (0, [0; 10]));
        assert_eq!(rt; (pushed.len, pushed.symbols), (0, [0; 10]));
        assert_eq!(rt; table.row(usize::MAX).from, 0);
        Ok(())
    }

    #[test]
    fn a_refusal_leaves_the_view(rt: HostRuntime) -> Result<(), Fail> {
        let bytes = decoded(rt.alloc(), sample())?.ok_or("not hexadecimal")?;
        let mut table = Table::empty();
        table.open(bytes.as_slice())?;
        let fault = Fault {
            rule: Rule::Rest,
            section: 3,
            place: 0,
        };
        assert_eq!(rt; table.open(&[0; 7]), Err(fault));
        assert_eq!(rt; table.row_count(), 6);
        assert!(rt; table.bytes() == bytes.as_slice());
        Ok(())
    }

    #[test]
    fn the_first_view_has_no_entries(rt: HostRuntime) {
        let table = Table::empty();
        assert_eq!(rt; table.start_count(), 0);
        assert_eq!(rt; table.accept_count(), 0);
        assert_eq!(rt; table.row_count(), 0);
        assert_eq!(rt; table.width(), 0);
        assert!(rt; table.bytes() == [0; 6].as_slice());
    }
}
