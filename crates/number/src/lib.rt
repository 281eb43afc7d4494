// The value of a number token.
#![tactic(auto)]

ghost use Rattle.std.specs.Prelude.{◌≡◌, ◌<◌, pos, neg_ℤ};
ghost use Rattle.std.proofs.Math.IntN.{suc_ℤ};
ghost use Rattle.number.specs.Value.{digit, digits, integer, hex, sized, fitted};

// The number of a digit, decimal or hexadecimal: `A` and `a` are 10.
#[tactic(auto, unfolding(crate::specs::Value::digit))]
pub fn digit(byte: u8) -> u32
    ensures { result ≡ digit byte }
{
    let number = match byte {
        ..b'0' => 0,
        b'0'..b'A' => byte - b'0',
        b'A'..b'a' => byte - b'A' + 10,
        b'a'.. => byte - b'a' + 10,
    };
    u32::from(number)
}

// The number of digits at a base, if it is at most the most.
#[tactic(auto, using(crate::proofs::DigitLaws::turns), unfolding(crate::specs::Value::sized))]
pub fn digits(bytes: &[u8], base: u32, most: u32) -> Option<u32>
    requires { 0 < base }
    ensures { result ≡ sized most (digits base 0 bytes.now) }
{
    let mut value: u32 = 0;
    for &byte in bytes {
        value = value.checked_mul(base)?.checked_add(digit(byte))?;
    }
    (value <= most).then_some(value)
}

// The number of digits at a base.
#[tactic(auto, using(crate::proofs::Bits::positives))]
fn positive(bytes: &[u8], base: u32) -> Option<i32>
    requires { 0 < base }
    ensures { result ≡ fitted (pos (digits base 0 bytes.now)) }
{
    let size = digits(bytes, base, i32::MAX.unsigned_abs())?;
    Some(size as i32)
}

// The number of decimal digits behind a minus.
#[tactic(auto, using(crate::proofs::Bits::negatives))]
fn negative(bytes: &[u8]) -> Option<i32>
    ensures { result ≡ fitted (neg_ℤ (pos (digits 10 0 bytes.now))) }
{
    let size = digits(bytes, 10, i32::MIN.unsigned_abs())?;
    0i32.checked_sub_unsigned(size)
}

// The value of an integer token, with its sign.
#[tactic(auto, using(crate::proofs::Bits::integers))]
pub fn integer(bytes: &[u8]) -> Option<i32>
    ensures { result ≡ fitted (integer bytes.now) }
{
    match bytes {
        [b'-', size @ ..] => negative(size),
        [b'+', size @ ..] => positive(size, 10),
        size => positive(size, 10),
    }
}

// The value of a hexadecimal token, unsigned.
#[tactic(auto, using(crate::proofs::Bits::hexes))]
pub fn hex(bytes: &[u8]) -> Option<i32>
    ensures { result ≡ fitted (hex bytes.now) }
{
    match bytes {
        [_, _, size @ ..] => positive(size, 16),
        _ => Some(0),
    }
}

// The number behind a number.
#[tactic(auto, using(crate::proofs::Bits::fitted_as))]
pub fn successor(number: i32) -> Option<i32>
    ensures { result ≡ fitted (suc_ℤ number) }
{
    number.checked_add(1)
}
