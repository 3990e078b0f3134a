//! Marks the rows of the table on standard input with a fixed scratch, and prints their listing; or says why not.
//! It reads no more than decides, however long the input is.
#![tactic(auto)]

use listing::opened::rowmarks_text;
use reports::inputs::first_bytes;
use reports::kinds::Kind;

fn run(rt: &HostRuntime) -> anyhow::Result<()> {
    let bytes = first_bytes(rt.alloc(), rt.stdin(), Kind::Table.enough_bytes())?;
    let text = rowmarks_text(rt.alloc(), &bytes)?;
    rt.write_all(&text)?;
    Ok(())
}

fn main(rt: HostRuntime) -> anyhow::Result<()> {
    run(&rt)
}
