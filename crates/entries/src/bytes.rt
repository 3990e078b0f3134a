//! Putting bytes into an output, from a place on. It takes as many steps as there are bytes.
ghost use Rattle.entries.specs.Outputs.{Wrote};

// Puts the bytes there, or nothing where they do not fit; answers whether they fit.
pub fn put_bytes(out: &mut [u8], at: usize, bytes: &[u8]) -> bool
    ensures { Wrote bytes.now at out.old out.new result }
{
    let Some(end) = at.checked_add(bytes.len()) else {
        return false;
    };
    if end > out.len() {
        return false;
    }
    out[at..end].copy_from_slice(bytes);
    true
}
