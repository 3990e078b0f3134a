//! Shows the machine of the table on standard input, or of the grammar where the argument says so; or says why it is none.
//! It reads no more than decides, however long the input is.
#![tactic(auto)]

use reports::inputs::first_bytes;
use reports::kinds::Kind;
use reports::opened::file_text;
use std::env;

fn run(rt: &HostRuntime) -> anyhow::Result<()> {
    let kind = match env::args(rt)?.nth(1) {
        Some(name) => name.as_str().parse()?,
        None => Kind::Table,
    };
    let bytes = first_bytes(rt.alloc(), rt.stdin(), kind.enough_bytes())?;
    let text = file_text(rt.alloc(), kind, &bytes)?;
    rt.print(text.as_str())?;
    Ok(())
}

fn main(rt: HostRuntime) -> anyhow::Result<()> {
    run(&rt)
}
