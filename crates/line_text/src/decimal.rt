//! Numbers in decimal digits.
ghost use Rattle.std.specs.Prelude.{◌≡◌, ◌^◌, ◌&&◌, ◌*◌, ◌+◌, ◌-◌, ◌<◌, ◌≤◌, length, nat_le, nat_lt, IfSome, position, if◌then◌else◌, Some, None};
ghost use Rattle.std.specs.List.{list_all};
ghost use Rattle.line_text.specs.declared.decimal.TheConstants.{MAX_WHOLE};
ghost use Rattle.line_text.specs.Decimal.{decimal_of, fraction_digits, is_digit, is_point, millionths_of, value_of, whole_digits, whole_of, with_digit};

/// The largest number of digits of a whole number.
const MAX_DIGITS: usize = 9;

/// The factor that turns a fraction into millionths, by its number of digits.
const SCALES: [u64; 7] = [1_000_000, 100_000, 10_000, 1_000, 100, 10, 1];

/// The largest whole part of a decimal.
const MAX_WHOLE: u64 = 1_000_000;

/// The number with one more digit, or `None` if the byte is not a digit or the number doesn't fit.
fn with_byte(number: u64, byte: u8) -> Option<u64>
    ensures { result ≡ (if is_digit byte && nat_lt (with_digit number byte) (2 ^ 64)
        then Some (with_digit number byte) else None) }
{
    if !byte.is_ascii_digit() {
        return None;
    }
    number.checked_mul(10)?.checked_add(u64::from(byte - b'0'))
}

/// The number that these digits spell, 0 if there are no digits. `None` if a byte is not a digit or
/// the number has more than 64 bits.
fn digits(bytes: &[u8]) -> Option<u64>
    ensures bound { IfSome result (λ n. n < 10 ^ length bytes.now) }
    ensures value { result ≡ (if list_all is_digit bytes.now && nat_lt (value_of bytes.now) (2 ^ 64)
        then Some (value_of bytes.now) else None) }
{
    let mut number = 0;
    for byte in bytes {
        number = with_byte(number, *byte)?;
    }
    Some(number)
}

/// A whole number: 1 to 9 digits.
pub fn whole_number(bytes: &[u8]) -> Option<u32>
    ensures { result ≡ whole_of bytes.now }
{
    if bytes.len() > MAX_DIGITS {
        return None;
    }
    decimal_u32(bytes)
}

/// A number of 32 bits: at least one digit, any number of leading zeros, no sign.
pub fn decimal_u32(bytes: &[u8]) -> Option<u32>
    ensures { result ≡ decimal_of 32 bytes.now }
{
    u32::try_from(decimal_u64(bytes)?).ok()
}

/// A number of 64 bits: at least one digit, any number of leading zeros, no sign.
pub fn decimal_u64(bytes: &[u8]) -> Option<u64>
    ensures { result ≡ decimal_of 64 bytes.now }
{
    if bytes.is_empty() {
        return None;
    }
    digits(bytes)
}

/// The index of the decimal point.
fn point(bytes: &[u8]) -> Option<usize>
    ensures { result ≡ position is_point bytes.now }
{
    bytes.iter().position(|byte| *byte == b'.')
}

/// The bytes before the point and those after it.
fn split_point(bytes: &[u8]) -> (&[u8], &[u8])
    ensures whole { result.0.now ≡ whole_digits bytes.now }
    ensures fraction { result.1.now ≡ fraction_digits bytes.now }
{
    match point(bytes) {
        Some(at) => (&bytes[..at], &bytes[at + 1..]),
        None => bytes.split_at(bytes.len()),
    }
}

/// The whole part of a decimal: any number of digits, at most a million.
fn whole_part(bytes: &[u8]) -> Option<u64>
    ensures value { result ≡ (if list_all is_digit bytes.now && nat_le (value_of bytes.now) MAX_WHOLE
        then Some (value_of bytes.now) else None) }
    ensures bound { IfSome result (λ n. n ≤ MAX_WHOLE) }
{
    match digits(bytes) {
        Some(whole) if whole <= MAX_WHOLE => Some(whole),
        _ => None,
    }
}

/// The fraction of a decimal, in millionths: at most six digits.
fn fraction_part(bytes: &[u8]) -> Option<u64>
    ensures value { result ≡ (if list_all is_digit bytes.now && nat_le (length bytes.now) 6
        then Some (value_of bytes.now * 10 ^ (6 - length bytes.now)) else None) }
    ensures bound { IfSome result (λ n. n < 1000000) }
{
    if bytes.len() >= SCALES.len() {
        return None;
    }
    match digits(bytes) {
        Some(fraction) => Some(fraction * SCALES[bytes.len()]),
        None => None,
    }
}

/// A decimal number, in millionths: digits with at most one point, at most six after it and at most
/// a million before it. `None` if the bytes have another form.
pub fn millionths(bytes: &[u8]) -> Option<u64>
    ensures { result ≡ millionths_of bytes.now }
{
    let (whole, fraction) = split_point(bytes);
    if whole.is_empty() && fraction.is_empty() {
        return None;
    }
    match (whole_part(whole), fraction_part(fraction)) {
        (Some(millions), Some(parts)) => Some(millions * 1_000_000 + parts),
        _ => None,
    }
}
