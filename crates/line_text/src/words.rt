//! The words of a line.
ghost use Rattle.std.specs.Prelude.{◌≡◌, ◌<◌, ◌++◌, drop, not, position, OnOk, OnErr};
ghost use Rattle.std.specs.List.{before_first, position_or_len};
ghost use Rattle.std.specs.Str.{bytes_eq};
ghost use Rattle.line_text.specs.Words.{is_blank as is_blank_byte, texts, words_of};

use std::alloc::AllocError;

/// Whether the byte is a blank: a space, a tab or a CR.
pub fn is_blank(byte: u8) -> bool
    ensures { result ≡ is_blank_byte byte }
{
    matches!(byte, b' ' | b'\t' | b'\r')
}

/// The index of the first byte that is not a blank.
pub fn word_start(bytes: &[u8]) -> Option<usize>
    ensures { result ≡ position (λ b. not (is_blank_byte b)) bytes.now }
{
    bytes.iter().position(|byte| !is_blank(*byte))
}

/// The index of the first blank.
pub fn word_end(bytes: &[u8]) -> Option<usize>
    ensures { result ≡ position is_blank_byte bytes.now }
{
    bytes.iter().position(|byte| is_blank(*byte))
}

/// The bytes from the first one on that is not a blank.
pub fn skip_blanks(bytes: &[u8]) -> &[u8]
    ensures { result.now ≡ drop (position_or_len (λ b. not (is_blank_byte b)) bytes.now) bytes.now }
{
    &bytes[word_start(bytes).unwrap_or(bytes.len())..]
}

/// The bytes before the first blank, and the bytes from there on.
pub fn split_word(bytes: &[u8]) -> (&[u8], &[u8])
    ensures word { result.0.now ≡ before_first is_blank_byte bytes.now }
    ensures rest { result.1.now ≡ drop (position_or_len is_blank_byte bytes.now) bytes.now }
{
    bytes.split_at(word_end(bytes).unwrap_or(bytes.len()))
}

/// Whether the word has the bytes of this text.
pub fn is_word(word: &[u8], text: &str) -> bool
    ensures { result ≡ bytes_eq word.now text.now }
{
    word == text.as_bytes()
}

/// Appends the words of a line, which are separated by blanks. If memory runs out `words` is
/// unchanged.
pub fn append_words<'t>(words: &mut Vec<&'t [u8]>, line: &'t [u8]) -> Result<(), AllocError>
    ensures ok { OnOk result (texts words.new.items ≡ texts words.old.items ++ words_of line.now) }
    ensures err { OnErr result (words.new.items ≡ words.old.items) }
{
    let count = words.len();
    let mut rest = skip_blanks(line);
    while !rest.is_empty() {
        let (word, others) = split_word(rest);
        if let Err(failed) = words.push(word) {
            words.truncate(count);
            return Err(AllocError::from(failed));
        }
        rest = skip_blanks(others);
    }
    Ok(())
}
