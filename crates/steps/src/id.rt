// Rust's parse::<u64> on the bytes of an integer: a leading `+` is allowed, a `-` is not. std's is of a str, whose making would look at each byte once more; `number::digits` is of 32 bits, and means another number of bytes that are no decimal digits.
ghost use Rattle.std.specs.Prelude.{◌≡◌, ◌^◌, cond, ltb};
ghost use Rattle.parser.specs.Definitions.{decimal, is_id};
ghost use Rattle.steps.specs.Into.{is_id_at};
ghost use Rattle.steps.specs.Packed.{unpacked_loc};

use crate::packed;
use crate::packed::Range;

// The number of the digits, if it is below 2 to the 64th.
#[tactic(auto, using(crate::proofs::Digits::turns))]
fn number(digits: &[u8]) -> Option<u64>
    ensures { result ≡ cond (ltb (decimal 0 digits.now) (2 ^ 64)) (Some (decimal 0 digits.now)) None }
{
    let mut value: u64 = 0;
    for &digit in digits {
        let one = digit.saturating_sub(b'0');
        value = value.checked_mul(10)?.checked_add(one as u64)?;
    }
    Some(value)
}

fn is_id(bytes: &[u8]) -> bool
    ensures { result ≡ is_id bytes.now }
{
    if bytes.is_empty() {
        return false;
    }
    match bytes[0] {
        b'-' => false,
        b'+' => number(&bytes[1..]).is_some(),
        _ => number(bytes).is_some(),
    }
}

// Whether the token at this place is an id.
pub fn is_id_at(text: &[u8], loc: Range) -> bool
    ensures { result ≡ is_id_at text.now (unpacked_loc loc) }
{
    let start = packed::index_of(loc.start) as usize;
    let end = packed::index_of(loc.end) as usize;
    if text.len() < end {
        return false;
    }
    if end < start {
        return false;
    }
    is_id(&text[start..end])
}
