//! The bytes that digits write out.
ghost use Rattle.std.specs.Prelude.{◌≡◌, ◌<◌, IfSome, IfOk, vec_items};
ghost use Rattle.std.specs.Option.{option_map};
ghost use Rattle.hexadecimal.specs.Digits.{digit_of, byte_of, bytes_of};

use std::alloc::{AllocError, Global};

fn digit(character: u8) -> Option<u8>
    ensures value { result ≡ digit_of character }
    ensures small { IfSome result (λ d. d < 16) }
{
    match character {
        b'0'..=b'9' => Some(character - b'0'),
        b'a'..=b'f' => Some(character - b'a' + 10),
        _ => None,
    }
}

fn byte(high: u8, low: u8) -> Option<u8>
    ensures { result ≡ byte_of (digit_of high) (digit_of low) }
{
    let upper = digit(high)?;
    let lower = digit(low)?;
    Some(16 * upper + lower)
}

// None where a digit is bad or the last one stands alone.
pub fn decoded(heap: Global, digits: &[u8]) -> Result<Option<Vec<u8>>, AllocError>
    ensures { IfOk result (λ o. option_map vec_items o ≡ bytes_of digits.now) }
{
    let (pairs, alone) = digits.as_chunks::<2>();
    if !alone.is_empty() {
        return Ok(None);
    }
    let mut bytes = Vec::new(heap);
    for [high, low] in pairs {
        let Some(next) = byte(*high, *low) else {
            return Ok(None);
        };
        bytes.push(next)?;
    }
    Ok(Some(bytes))
}
