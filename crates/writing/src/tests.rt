//! A small table at every output length, and each fault of a put.
use crate::stages::{RowsStage, StartsStage};
use crate::table::write_table;
use machine::fault::{Fault, Rule};
use machine::machine::Machine;
use machine::row::{Row, Word};
use std::process::Abort;
use std::test::Fail;
use tables::table::Table;

const STARTS: [u8; 2] = [0, 3];

const ACCEPTS: [u8; 1] = [1];

const SIZE: usize = 59;

fn row(from: u8, letter: u8) -> Row {
    Row {
        from,
        letter,
        to: 1,
        popped: Word::EMPTY,
        pushed: Word::EMPTY,
    }
}

// What the small table comes to in an output of so many bytes.
fn expected(room: usize) -> Result<usize, Fault> {
    match room {
        0..=6 => Err(Rule::Output.at(1, 0)),
        7 => Err(Rule::Output.at(1, 1)),
        8 => Err(Rule::Output.at(2, 0)),
        9..=33 => Err(Rule::Output.at(3, 0)),
        34..=58 => Err(Rule::Output.at(3, 1)),
        _ => Ok(SIZE),
    }
}

// The bytes open as the small table.
fn check_small(rt: &impl Abort, bytes: &[u8]) -> Result<(), Fail> {
    let mut table = Table::empty();
    table.open(bytes)?;
    assert_eq!(rt;
        (table.start_count(), table.accept_count(), table.row_count()),
        (2, 1, 2)
    );
    assert_eq!(rt;
        (table.start(0), table.start(1), table.accept(0)),
        (0, 3, 1)
    );
    assert_eq!(rt; (table.row(0).letter, table.row(1).from), (5, 3));
    Ok(())
}

// Writes the small table, and opens what was written.
fn check_output(rt: &impl Abort, out: &mut [u8]) -> Result<(), Fail> {
    let written = write_table(&STARTS, &ACCEPTS, &[row(0, 5), row(3, 0)], out);
    assert_eq!(rt; written, expected(out.len()));
    match written {
        Ok(size) => check_small(rt, &out[..size]),
        Err(_) => Ok(()),
    }
}

#[test]
fn every_output_length(rt: HostRuntime) -> Result<(), Fail> {
    for room in 0..70 {
        let mut out = [9; 70];
        check_output(&rt, &mut out[..room])?;
        assert_eq!(rt; out[room], 9);
    }
    Ok(())
}

#[test]
fn nothing_into_five_bytes(rt: HostRuntime) {
    let mut out = [9; 5];
    assert_eq!(rt;
        write_table(&[], &[], &[], &mut out),
        Err(Rule::Output.at(0, 0))
    );
    assert_eq!(rt; out, [9; 5]);
}

#[test]
fn a_refused_put_leaves_no_trace(rt: HostRuntime) -> Result<(), Fail> {
    let mut out = [9; 70];
    let mut starts = StartsStage::begin();
    starts.put(&mut out, 4)?;
    assert_eq!(rt; starts.put(&mut out, 4), Err(Rule::Order.at(1, 1)));
    assert_eq!(rt; starts.put(&mut out, 3), Err(Rule::Order.at(1, 1)));
    starts.put(&mut out, 5)?;
    let mut accepts = starts.next(&mut out);
    accepts.put(&mut out, 7)?;
    let mut rows = accepts.next(&mut out);
    let mut bad = row(0, 0);
    bad.popped.len = 11;
    assert_eq!(rt; rows.put(&mut out, bad), Err(Rule::Limits.at(3, 0)));
    assert_eq!(rt; rows.finish(&mut out), 9);
    assert_eq!(rt;
        &out[..10],
        b"\x00\x02\x04\x05\x00\x01\x07\x00\x00\x09".as_slice()
    );
    Ok(())
}

// As many rows as there may be, in their order.
fn put_most(rows: &mut RowsStage, out: &mut [u8]) -> Result<(), Fault> {
    for from in 0..4 {
        for letter in 0..=255 {
            rows.put(out, row(from, letter))?;
        }
    }
    Ok(())
}

#[test]
fn a_section_at_its_limit(rt: HostRuntime) -> Result<(), Fail> {
    let mut out = [9; 26118];
    let mut rows = StartsStage::begin().next(&mut out).next(&mut out);
    put_most(&mut rows, &mut out)?;
    assert_eq!(rt; rows.put(&mut out, row(4, 0)), Err(Rule::Count.at(3, 1024)));
    assert_eq!(rt; rows.finish(&mut out), 25606);
    Ok(())
}
