//! Marks the rows of many tables and grammars. Each line of the input is `table` or `grammar`, a space, and the bytes of
//! the file in hexadecimal, in lower case and with nothing between the digits. For each line is written what `marktable`
//! prints of those bytes, or the line `unread` where the line is of another form.
#![tactic(auto)]

use hexadecimal::decoding::decoded;
use listing::opened::file_marks_text;
use std::alloc::{AllocError, Global};
use std::io::{BufRead, BufReader};

// The text for a line; none where it cannot be read.
fn answer(heap: Global, line: &str) -> Result<Option<Vec<u8>>, AllocError> {
    let Some((name, digits)) = line.split_once(' ') else {
        return Ok(None);
    };
    let (Ok(kind), Some(bytes)) = (name.parse(), decoded(heap, digits.as_bytes())?) else {
        return Ok(None);
    };
    Ok(Some(file_marks_text(heap, kind, &bytes)?))
}

fn run(rt: &HostRuntime) -> anyhow::Result<()> {
    let heap = rt.alloc();
    for line in BufReader::new(heap, rt.stdin())?.lines(heap) {
        match answer(heap, line?.as_str())? {
            Some(text) => rt.write_all(&text)?,
            None => println!(rt; "unread")?,
        }
    }
    Ok(())
}

fn main(rt: HostRuntime) -> anyhow::Result<()> {
    run(&rt)
}
