//! How many bytes a reply has.
ghost use Rattle.std.specs.Prelude.{◌≡◌, ◌≤◌, ◌<◌, length, position, option_map, IfSome};
ghost use Rattle.printed_replies.specs.Lengths.{after_prefix, is_line_feed, kind_and_length, line_length, lines_length, owners_length, reply_length, session_length, told_bytes, told_file, told_owners};

use crate::asked::ReplyForm;
use line_text::{decimal_u64, word_end};
use memchr::memchr;

/// The index of the first line feed.
#[tactic(auto, using(crate::proofs::FirstPlaces::first_place))]
fn line_end(bytes: &[u8]) -> Option<usize>
    ensures { result ≡ position is_line_feed bytes.now }
{
    memchr(b'\n', bytes)
}

/// The length of the first line with its line feed.
pub(crate) fn line_length(bytes: &[u8]) -> Option<usize>
    ensures length { result ≡ line_length bytes.now }
    ensures within { IfSome result (λ n. (1 ≤ n) × (n ≤ length bytes.now)) }
{
    Some(line_end(bytes)? + 1)
}

/// The length of the first `count` lines.
fn lines_length(count: u64, bytes: &[u8]) -> Option<usize>
    ensures length { result ≡ lines_length count bytes.now }
    ensures within { IfSome result (λ n. n ≤ length bytes.now) }
{
    let mut left = count;
    let mut rest = bytes;
    while left > 0 {
        let (_, later) = rest.split_at(line_length(rest)?);
        rest = later;
        left -= 1;
    }
    Some(bytes.len() - rest.len())
}

/// The bytes after a prefix; `None` if they don't begin with it.
pub(crate) fn after_prefix<'a>(start: &[u8], bytes: &'a [u8]) -> Option<&'a [u8]>
    ensures { option_map (λ rest. rest.now) result ≡ after_prefix start.now bytes.now }
{
    bytes.strip_prefix(start)
}

/// The kind and the length of a file, from `KIND LENGTH`.
fn kind_and_length(words: &[u8]) -> Option<(&[u8], u64)>
    ensures { option_map (λ told. (told.0.now, told.1)) result ≡ kind_and_length words.now }
{
    let (kind, length) = match word_end(words) {
        Some(end) => (&words[..end], &words[end + 1..]),
        None => words.split_at(words.len()),
    };
    Some((kind, decimal_u64(length)?))
}

/// The kind and the length of the file that a line `text KIND LENGTH` announces.
pub(crate) fn told_file(line: &[u8]) -> Option<(&[u8], u64)>
    ensures { option_map (λ told. (told.0.now, told.1)) result ≡ told_file line.now }
{
    kind_and_length(after_prefix(b"text ", line)?)
}

/// The number of bytes that such a line announces.
fn told_bytes(line: &[u8]) -> u64
    ensures { result ≡ told_bytes (told_file line.now) }
{
    match told_file(line) {
        Some((_, length)) => length,
        None => 0,
    }
}

/// The number of lines that a line `owners COUNT` announces.
fn told_owners(line: &[u8]) -> u64
    ensures { result ≡ told_owners line.now }
{
    match after_prefix(b"owners ", line) {
        Some(count) => decimal_u64(count).unwrap_or(0),
        None => 0,
    }
}

/// The length of a line with the file that it announces.
fn session_length(bytes: &[u8]) -> Option<usize>
    ensures length { result ≡ session_length bytes.now }
    ensures within { IfSome result (λ n. n ≤ length bytes.now) }
{
    let line = line_length(bytes)?;
    let told = told_bytes(&bytes[..line - 1]);
    if told > (bytes.len() - line) as u64 {
        return None;
    }
    Some(line + told as usize)
}

/// The length of a line with the lines that it announces.
fn owners_length(bytes: &[u8]) -> Option<usize>
    ensures length { result ≡ owners_length bytes.now }
    ensures within { IfSome result (λ n. n ≤ length bytes.now) }
{
    let line = line_length(bytes)?;
    let count = told_owners(&bytes[..line - 1]);
    Some(line + lines_length(count, &bytes[line..])?)
}

/// The length of the reply of that form at the start of the bytes, while `live` tenancies are live.
pub(crate) fn reply_length(live: usize, form: ReplyForm, bytes: &[u8]) -> Option<usize>
    ensures length { result ≡ reply_length live form bytes.now }
    ensures within { IfSome result (λ n. n ≤ length bytes.now) }
{
    match form {
        ReplyForm::Silence => Some(0),
        ReplyForm::Line | ReplyForm::Admission | ReplyForm::Eviction => line_length(bytes),
        ReplyForm::Session => session_length(bytes),
        ReplyForm::Lines(count) => lines_length(u64::from(count), bytes),
        ReplyForm::Tenancies => lines_length(live as u64, bytes),
        ReplyForm::Owners => owners_length(bytes),
    }
}
