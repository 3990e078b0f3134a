//! Marks the rows of the table on standard input, or of the machine of the grammar where the argument says so, and prints
//! their listing; or says why it is none. It reads no more than decides, however long the input is.
#![tactic(auto)]

use listing::opened::file_marks_text;
use reports::inputs::first_bytes;
use reports::kinds::Kind;
use std::env;

fn run(rt: &HostRuntime) -> anyhow::Result<()> {
    let kind = match env::args(rt)?.nth(1) {
        Some(name) => name.as_str().parse()?,
        None => Kind::Table,
    };
    let bytes = first_bytes(rt.alloc(), rt.stdin(), kind.enough_bytes())?;
    let text = file_marks_text(rt.alloc(), kind, &bytes)?;
    rt.write_all(&text)?;
    Ok(())
}

fn main(rt: HostRuntime) -> anyhow::Result<()> {
    run(&rt)
}
