//! Physical lines, split off from the front of a text.
ghost use Rattle.std.specs.Prelude.{◌≡◌, ◌<◌, ◌∷◌, length, not, position, drop, take, true, MatchOption, ◌==◌};
ghost use Rattle.std.specs.List.{position_or_len};
ghost use Rattle.line_text.specs.Lines.{is_not_ascii, physical_lines};
ghost use Rattle.line_text.specs.Physical.{IsContent, first_line, is_plain as is_plain_byte, later_lines};

use memchr::memchr;

/// Whether the byte ends no line, begins no comment and is allowed outside comments.
fn is_plain(byte: u8) -> bool
    ensures { result ≡ is_plain_byte byte }
{
    matches!(byte, b'$'..=b'~' | b' '..=b'"' | b'\t' | b'\r')
}

/// The index of the first byte that is not plain.
fn plain_end(text: &[u8]) -> Option<usize>
    ensures { result ≡ position (λ byte. not (is_plain_byte byte)) text.now }
{
    text.iter().position(|byte| !is_plain(*byte))
}

/// The plain bytes at the front, and the bytes after them.
fn split_plain(text: &[u8]) -> (&[u8], &[u8])
    ensures front { result.0.now ≡ take (position_or_len (λ byte. not (is_plain_byte byte))
        text.now) text.now }
    ensures back { result.1.now ≡ drop (position_or_len (λ byte. not (is_plain_byte byte)) text.now)
        text.now }
{
    text.split_at(plain_end(text).unwrap_or(text.len()))
}

/// The index of the first LF.
#[tactic(auto, using(crate::proofs::FirstPlaces::first_place))]
fn line_end(text: &[u8]) -> Option<usize>
    ensures { result ≡ position (λ byte. byte == 10) text.now }
{
    memchr(b'\n', text)
}

/// The first physical line of a text without its LF, and what follows it.
pub fn split_line(text: &[u8]) -> (&[u8], &[u8])
    ensures first { result.0.now ≡ first_line text.now }
    ensures later { result.1.now ≡ later_lines text.now }
    ensures lines { 0 < length text.now →
        physical_lines text.now ≡ result.0.now ∷ physical_lines result.1.now }
{
    match line_end(text) {
        Some(end) => (&text[..end], &text[end + 1..]),
        None => text.split_at(text.len()),
    }
}

/// The first physical line of a text without its comment, and what follows its LF. `None` if before
/// the comment there is a byte that is neither a blank nor a printing ASCII character.
pub(crate) fn split_content(text: &[u8]) -> Option<(&[u8], &[u8])>
    ensures { MatchOption result (is_not_ascii (first_line text.now) ≡ true)
        (λ parts. IsContent text.now parts.0.now parts.1.now) }
{
    let (content, after) = split_plain(text);
    let Some((stop, rest)) = after.split_first() else {
        return Some((content, after));
    };
    if *stop == b'\n' {
        return Some((content, rest));
    }
    if *stop == b'#' {
        let (_, later) = split_line(rest);
        return Some((content, later));
    }
    None
}
