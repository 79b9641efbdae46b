// Words that are bytes, two hexadecimal digits to each.
ghost use Rattle.std.specs.Prelude.{◌≡◌, ◌<◌, IfOk, Some, vec_items, string_bytes};
ghost use Rattle.std.specs.Option.{option_map};
ghost use Rattle.script.specs.Hexadecimal.{digit_byte, byte_of, pairs_of, bytes_of, digits_of, hex_of, HexLaws};

use std::alloc::{AllocError, Global};

// The byte that two digits stand for.
fn byte_value(high: u8, low: u8) -> Option<u8>
    ensures { result ≡ byte_of high low }
{
    let high = char::from(high).to_digit(16)?;
    let low = char::from(low).to_digit(16)?;
    Some((16 * high + low) as u8)
}

// The bytes that an even number of digits stands for.
fn decode_pairs(heap: Global, digits: &[u8]) -> Result<Option<Vec<u8>>, AllocError>
    ensures { IfOk result (λ o. option_map vec_items o ≡ pairs_of digits.now) }
{
    let (pairs, rest) = digits.as_chunks::<2>();
    let mut bytes = Vec::new(heap);
    for [high, low] in pairs {
        let Some(byte) = byte_value(*high, *low) else {
            return Ok(None);
        };
        bytes.push(byte)?;
    }
    // Asked last, so that want of memory is answered first, as ever.
    if !rest.is_empty() {
        return Ok(None);
    }
    Ok(Some(bytes))
}

// The bytes that a word stands for: two digits to each, or `-` for no bytes.
#[tactic(auto, using(crate::proofs::Pairs::hex_laws))]
pub fn decode_hex(heap: Global, word: &[u8]) -> Result<Option<Vec<u8>>, AllocError>
    ensures bytes { IfOk result (λ o. option_map vec_items o ≡ bytes_of word.now) }
    ensures laws { HexLaws }
{
    match word {
        [] => Ok(None),
        [b'-'] => Ok(Some(Vec::new(heap))),
        _ => decode_pairs(heap, word),
    }
}

// The digit of a value, in lower case.
fn digit(value: u8) -> char
    requires { value < 16 }
    ensures value { result ≡ digit_byte value }
    ensures ascii { result < 128 }
{
    char::from_digit(u32::from(value), 16).unwrap()
}

// The digits of bytes, in lower case. A push for each: a `write!` for each byte took half as much time again to rewrite a report.
fn encode_pairs(heap: Global, bytes: &[u8]) -> Result<String, AllocError>
    ensures { IfOk result (λ s. string_bytes s ≡ digits_of bytes.now) }
{
    let mut digits = String::new(heap);
    for byte in bytes {
        digits.push(digit(*byte / 16))?;
        digits.push(digit(*byte % 16))?;
    }
    Ok(digits)
}

// The word for bytes: their digits in lower case, or `-` for no bytes.
#[tactic(auto, using(crate::proofs::Pairs::hex_laws))]
pub fn encode_hex(heap: Global, bytes: &[u8]) -> Result<String, AllocError>
    ensures word { IfOk result (λ s. string_bytes s ≡ hex_of bytes.now) }
    ensures back { bytes_of (hex_of bytes.now) ≡ Some bytes.now }
    ensures laws { HexLaws }
{
    match bytes {
        [] => String::from_str(heap, "-"),
        _ => encode_pairs(heap, bytes),
    }
}
