//! The options of a device, and the words that name them.
ghost use Rattle.std.specs.Prelude.{◌≡◌, ◌==◌, option_map, position};
ghost use Rattle.device_file.specs.DeviceFiles.{begins_comment, is_no_value, is_option, is_text, is_value, name_in, text_in};

use line_text::{decimal_u32, is_blank, is_word};

/// Whether a word is an option of a device.
pub(crate) fn is_option(name: &[u8]) -> bool
    ensures { result ≡ is_option name.now }
{
    is_word(name, "--arch")
        || is_word(name, "--tracks")
        || is_word(name, "--columns")
        || is_word(name, "--rows")
        || is_word(name, "--pads")
        || is_word(name, "--workers")
        || is_word(name, "--tenant-memory")
}

/// Whether a text can be the value of an option: each but `--arch` has a number.
pub(crate) fn is_value(name: &[u8], text: &[u8]) -> bool
    ensures { result ≡ is_value name.now text.now }
{
    is_word(name, "--arch") || decimal_u32(text).is_some()
}

/// Whether a word begins a comment.
pub(crate) fn begins_comment(word: &[u8]) -> bool
    ensures { result ≡ begins_comment word.now }
{
    matches!(word, [b'#', ..])
}

/// Whether a word is no value: nothing, or the beginning of an option.
pub(crate) fn is_no_value(word: &[u8]) -> bool
    ensures { result ≡ is_no_value word.now }
{
    matches!(word, [] | [b'-', b'-', ..])
}

/// Whether a line has no control character.
pub(crate) fn is_text(line: &[u8]) -> bool
    ensures { result ≡ is_text line.now }
{
    line.iter()
        .all(|byte| is_blank(*byte) || (*byte > 32 && *byte != 127))
}

/// The index of the first `=`.
fn equals_at(word: &[u8]) -> Option<usize>
    ensures { result ≡ position (λ byte. byte == 61) word.now }
{
    word.iter().position(|byte| *byte == b'=')
}

/// The name of `--NAME=VALUE` and its value, or the whole word and no value.
pub(crate) fn split_value(word: &[u8]) -> (&[u8], Option<&[u8]>)
    ensures name { result.0.now ≡ name_in word.now }
    ensures text { option_map (λ text. text.now) result.1 ≡ text_in word.now }
{
    match equals_at(word) {
        Some(place) => (&word[..place], Some(&word[place + 1..])),
        None => (word, None),
    }
}
