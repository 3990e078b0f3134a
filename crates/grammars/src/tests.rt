//! What a small grammar answers, and what the check of the terminals refuses.
use crate::grammar::Grammar;
use machine::fault::{Fault, Rule};
use machine::machine::Machine;
use std::test::Fail;

// The start symbol 1, the terminal 10, and the rules 1 → nothing, 1 → 3, 1 → 10 1, 2 → 10.
const SAMPLE: &[u8] = b"\x00\x01\x01\x00\x01\x0a\x00\x04\
    \x01\x00\x00\x00\x00\x00\x00\x00\x00\x00\x00\x00\
    \x01\x01\x03\x00\x00\x00\x00\x00\x00\x00\x00\x00\
    \x01\x02\x0a\x01\x00\x00\x00\x00\x00\x00\x00\x00\
    \x02\x01\x0a\x00\x00\x00\x00\x00\x00\x00\x00\x00";

// The start symbols 1, 5 and 10, and the terminals 5 and 10.
const TERMINAL_START: &[u8] = b"\x00\x03\x01\x05\x0a\x00\x02\x05\x0a\x00\x00";

// The start symbol 1, the terminal 2, and the rules 1 → nothing, 2 → nothing, 2 → 1.
const TERMINAL_LEFT: &[u8] = b"\x00\x01\x01\x00\x01\x02\x00\x03\
    \x01\x00\x00\x00\x00\x00\x00\x00\x00\x00\x00\x00\
    \x02\x00\x00\x00\x00\x00\x00\x00\x00\x00\x00\x00\
    \x02\x01\x01\x00\x00\x00\x00\x00\x00\x00\x00\x00";

fn terminal_at(section: u8, place: usize) -> Fault {
    Rule::Terminal.at(section, place)
}

#[test]
fn a_grammar_is_a_machine(rt: HostRuntime) -> Result<(), Fail> {
    let mut grammar = Grammar::empty();
    grammar.open(SAMPLE)?;
    assert_eq!(rt; (grammar.row_count(), grammar.width()), (7, 3));
    assert_eq!(rt; grammar.row(0).pushed.len, 2);
    assert_eq!(rt;
        grammar.row(0).pushed.symbols,
        [1, 255, 0, 0, 0, 0, 0, 0, 0, 0]
    );
    let last = grammar.row(6);
    assert_eq!(rt; (last.to, last.popped.len), (2, 1));
    assert_eq!(rt; last.popped.symbols, [255, 0, 0, 0, 0, 0, 0, 0, 0, 0]);
    let past = grammar.row(7);
    assert_eq!(rt; (past.from, past.to, past.popped.len), (0, 0, 0));
    Ok(())
}

#[test]
fn the_first_terminal_is_told(rt: HostRuntime) {
    let mut grammar = Grammar::empty();
    assert_eq!(rt; grammar.open(TERMINAL_START), Err(terminal_at(1, 1)));
    assert_eq!(rt; grammar.open(TERMINAL_LEFT), Err(terminal_at(3, 1)));
}

#[test]
fn a_refusal_leaves_the_view(rt: HostRuntime) -> Result<(), Fail> {
    let mut grammar = Grammar::empty();
    grammar.open(SAMPLE)?;
    assert_eq!(rt; grammar.open(TERMINAL_LEFT), Err(terminal_at(3, 1)));
    assert_eq!(rt; grammar.row_count(), 7);
    assert!(rt; grammar.bytes() == SAMPLE);
    Ok(())
}
