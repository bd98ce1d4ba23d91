//! The parts of a line, taken from its front one by one.
ghost use Rattle.std.specs.Prelude.{◌≡◌, drop, option_map, position};
ghost use Rattle.std.specs.List.{before_first, position_or_len};
ghost use Rattle.device_lines.specs.Words.{after_text, first_number, is_other, is_space, number_field, word_field};

use line_text::decimal_u32;

/// The bytes after a text; `None` if they don't begin with it.
pub(crate) fn after_text<'t>(text: &[u8], bytes: &'t [u8]) -> Option<&'t [u8]>
    ensures { option_map (λ rest. rest.now) result ≡ after_text text.now bytes.now }
{
    bytes.strip_prefix(text)
}

/// The index of the first byte that is not a digit.
fn digits_end(bytes: &[u8]) -> Option<usize>
    ensures { result ≡ position is_other bytes.now }
{
    bytes.iter().position(|byte| !byte.is_ascii_digit())
}

/// The index of the first space.
fn word_end(bytes: &[u8]) -> Option<usize>
    ensures { result ≡ position is_space bytes.now }
{
    bytes.iter().position(|byte| *byte == b' ')
}

/// The digits at the front, and the bytes after them.
fn split_digits(bytes: &[u8]) -> (&[u8], &[u8])
    ensures digits { result.0.now ≡ before_first is_other bytes.now }
    ensures rest { result.1.now ≡ drop (position_or_len is_other bytes.now) bytes.now }
{
    bytes.split_at(digits_end(bytes).unwrap_or(bytes.len()))
}

/// The bytes before the first space, and the bytes from there on.
pub(crate) fn split_word(bytes: &[u8]) -> (&[u8], &[u8])
    ensures word { result.0.now ≡ before_first is_space bytes.now }
    ensures rest { result.1.now ≡ drop (position_or_len is_space bytes.now) bytes.now }
{
    bytes.split_at(word_end(bytes).unwrap_or(bytes.len()))
}

/// The decimal number of 32 bits in the digits at the front, and the bytes after it.
pub(crate) fn first_number(bytes: &[u8]) -> Option<(u32, &[u8])>
    ensures { option_map (λ taken. (taken.0, taken.1.now)) result ≡ first_number bytes.now }
{
    let (digits, rest) = split_digits(bytes);
    Some((decimal_u32(digits)?, rest))
}

/// The number before a space, and the bytes after the space.
pub(crate) fn number_field(bytes: &[u8]) -> Option<(u32, &[u8])>
    ensures { option_map (λ taken. (taken.0, taken.1.now)) result ≡ number_field bytes.now }
{
    let (number, rest) = first_number(bytes)?;
    Some((number, after_text(b" ", rest)?))
}

/// The bytes before the first space, and those after it.
pub(crate) fn word_field(bytes: &[u8]) -> Option<(&[u8], &[u8])>
    ensures { option_map (λ taken. (taken.0.now, taken.1.now)) result ≡ word_field bytes.now }
{
    let (word, rest) = split_word(bytes);
    Some((word, after_text(b" ", rest)?))
}
