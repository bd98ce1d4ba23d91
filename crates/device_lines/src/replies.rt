//! The kinds of lines in the operator's section.
ghost use Rattle.std.specs.Prelude.{◌≡◌, codes, is_some};
ghost use Rattle.device_lines.specs.Lines.{begins_with_digit, is_reply_word, is_silent, owner_count};
ghost use Rattle.device_lines.specs.Words.{after_text};

use crate::words::{after_text, split_word};
use line_text::{decimal_u32, is_word};

/// Returns whether the line is the heading of a section.
pub(crate) fn is_heading(line: &[u8]) -> bool
    ensures { result ≡ is_some (after_text (codes "== ") line.now) }
{
    after_text(b"== ", line).is_some()
}

/// The number of owners that follow, if this is the line `owners COUNT`.
pub(crate) fn owner_count(line: &[u8]) -> Option<u32>
    ensures { result ≡ owner_count line.now }
{
    decimal_u32(after_text(b"owners ", line)?)
}

/// Returns whether the line begins with a digit.
pub(crate) fn begins_with_digit(line: &[u8]) -> bool
    ensures { result ≡ begins_with_digit line.now }
{
    match line.first() {
        Some(byte) => byte.is_ascii_digit(),
        None => false,
    }
}

/// Returns whether the line is empty, or begins with the first word of a reply to the operator.
pub(crate) fn is_silent(line: &[u8]) -> bool
    ensures { result ≡ is_silent line.now }
{
    line.is_empty() || is_reply_word(split_word(line).0)
}

/// Returns whether replies to the operator begin with this word.
fn is_reply_word(word: &[u8]) -> bool
    ensures { result ≡ is_reply_word word.now }
{
    is_word(word, "ok")
        || is_word(word, "refused")
        || is_word(word, "advanced")
        || is_word(word, "finished")
        || is_word(word, "stale")
        || is_word(word, "gone")
        || is_word(word, "full")
        || is_word(word, "nomemory")
        || is_word(word, "none")
}
