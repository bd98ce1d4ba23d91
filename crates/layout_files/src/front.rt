//! The front of a text.
ghost use Rattle.std.specs.Prelude.{◌≡◌, drop, position};
ghost use Rattle.std.specs.List.{before_first, position_or_len};
ghost use Rattle.layout_files.specs.Cursors.{is_word_end};
ghost use Rattle.layout_files.specs.Prelude.{is_no_digit};

/// The digits at the front, and the bytes after them.
pub(crate) fn split_digits(text: &[u8]) -> (&[u8], &[u8])
    ensures front { result.0.now ≡ before_first is_no_digit text.now }
    ensures back { result.1.now ≡ drop (position_or_len is_no_digit text.now) text.now }
{
    text.split_at(digits_end(text).unwrap_or(text.len()))
}

/// The index of the first byte that is not a digit.
fn digits_end(text: &[u8]) -> Option<usize>
    ensures { result ≡ position is_no_digit text.now }
{
    text.iter().position(|byte| !byte.is_ascii_digit())
}

/// The bytes before the first space or line end, and the bytes from there on.
pub(crate) fn split_word(text: &[u8]) -> (&[u8], &[u8])
    ensures front { result.0.now ≡ before_first is_word_end text.now }
    ensures back { result.1.now ≡ drop (position_or_len is_word_end text.now) text.now }
{
    text.split_at(word_end(text).unwrap_or(text.len()))
}

/// The index of the first space or line end.
fn word_end(text: &[u8]) -> Option<usize>
    ensures { result ≡ position is_word_end text.now }
{
    text.iter().position(|byte| *byte == b' ' || *byte == b'\n')
}
