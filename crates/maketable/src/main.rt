//! Writes the table that the text on standard input tells, in the form in which `tableinfo` prints one; or a line that
//! says why not. No table begins with the bytes of such a line.
#![tactic(auto)]

use anyhow::anyhow;
use reports::faults::fault_text;
use std::io::Read;
use texts::lists::Entries;
use texts::reading::read_text;
use texts::unread::Unread;
use writing::table::write_table;

// The longest table has so many bytes.
const LONGEST: usize = 26118;

fn write(rt: &HostRuntime, entries: &Entries) -> anyhow::Result<()> {
    let mut out = [0; LONGEST];
    match write_table(&entries.starts, &entries.accepts, &entries.rows, &mut out) {
        Ok(size) => rt.write_all(&out[..size])?,
        Err(fault) => rt.print(fault_text(rt.alloc(), fault)?.as_str())?,
    }
    Ok(())
}

fn run(rt: &HostRuntime) -> anyhow::Result<()> {
    let mut text = Vec::new(rt.alloc());
    rt.stdin().read_to_end(&mut text)?;
    match read_text(rt.alloc(), &text) {
        Ok(entries) => write(rt, &entries)?,
        Err(Unread::Line(line)) => println!(rt; "unread {line}")?,
        Err(Unread::Memory) => return Err(anyhow!("no memory for the entries")),
    }
    Ok(())
}

fn main(rt: HostRuntime) -> anyhow::Result<()> {
    run(&rt)
}
