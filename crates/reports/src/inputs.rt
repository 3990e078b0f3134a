//! Reading no more of an input than decides.
ghost use Rattle.std.specs.Prelude.{◌≡◌, IfOk, IfSome, take};

use std::alloc::Global;
use std::io;
use std::io::Read;

// The first bytes that the reader gives, so many at most.
pub fn first_bytes<R: Read + Drop>(heap: Global, reader: R, most: usize) -> io::Result<Vec<u8>>
    ensures { IfOk result (λ v. IfSome (R.remaining reader) (λ bs. v.items ≡ take most bs)) }
{
    let mut bytes = Vec::new(heap);
    reader.take(most as u64).read_to_end(&mut bytes)?;
    Ok(bytes)
}
