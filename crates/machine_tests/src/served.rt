//! Lines that came beside lines that were served.
use crate::day::{append_all, lines_in, push_line};
use crate::talk::{NAMES, is_blank_line};
use line_text::{skip_blanks, split_word};
use std::alloc::Global;
use tagged_lines::{owner_of, split_tag};

/// What a name says, one line after another.
#[derive(Clone, Copy)]
struct Saying {
    /// Whether a `wait` is written as `status`.
    is_even: bool,
    is_in_text: bool,
}

impl Saying {
    /// Appends a line of a name, but one without a word outside of texts.
    fn hear(&mut self, text: &mut Vec<u8>, said: &[u8]) -> bool {
        if self.is_in_text {
            self.is_in_text = said != b".".as_slice();
            return push_line(text, said);
        }
        if is_blank_line(said) {
            return true;
        }
        self.is_in_text = is_word_alone(said, b"upload") || is_word_alone(said, b"change");
        if self.is_even && is_wait(said) {
            return push_line(text, b"status");
        }
        push_line(text, said)
    }
}

/// Whether a line has that word and no other.
fn is_word_alone(said: &[u8], wanted: &[u8]) -> bool {
    let (word, after) = split_word(skip_blanks(said));
    word == wanted && is_blank_line(after)
}

/// Whether what a name says is a `wait`, outside of texts.
pub(crate) fn is_wait(said: &[u8]) -> bool {
    is_word_alone(said, b"wait")
}

/// The place of the name whose line that is.
pub(crate) fn name_of(line: &[u8]) -> Option<usize> {
    match owner_of(split_tag(line).0) {
        Some([b'@', name @ ..]) => NAMES.iter().position(|it| it.as_bytes() == name),
        _ => None,
    }
}

/// What the name of that place says in these lines. With `is_even` a `wait` is written as `status`.
pub(crate) fn said_in(alloc: Global, lines: &[u8], place: usize, is_even: bool) -> Option<Vec<u8>> {
    let mut text = Vec::new(alloc);
    let mut saying = Saying {
        is_even,
        is_in_text: false,
    };
    let lines = lines_in(alloc, lines)?;
    for line in lines.as_slice() {
        if name_of(line) == Some(place) && !saying.hear(&mut text, split_tag(line).1) {
            return None;
        }
    }
    Some(text)
}

/// Whether the name of that place said all that was served of it.
pub(crate) fn is_all_served(
    alloc: Global,
    input: &[u8],
    log: &[u8],
    place: usize,
    is_even: bool,
) -> bool {
    match (
        said_in(alloc, input, place, is_even),
        said_in(alloc, log, place, is_even),
    ) {
        (Some(said), Some(served)) => said.as_slice() == served.as_slice(),
        _ => false,
    }
}

/// Whether a line of the operator makes steps by hand.
fn is_by_hand(line: &[u8]) -> bool {
    line.starts_with(b"op step ") || line.starts_with(b"op take ") || line.starts_with(b"op put ")
}

/// The lines of nobody's session. Of those that came, a line that makes steps by hand has no form;
/// among those that were served, such lines are those of workers, and are left out.
fn nobodys_lines(alloc: Global, lines: &[u8], are_served: bool) -> Option<Vec<u8>> {
    let mut text = Vec::new(alloc);
    let lines = lines_in(alloc, lines)?;
    for line in lines.as_slice() {
        let is_left_out = name_of(line).is_some() || (are_served && is_by_hand(line));
        let mark: &[u8] = if is_by_hand(line) { b"? " } else { b"" };
        if !is_left_out && !append_all(&mut text, &[mark, *line, b"\n"]) {
            return None;
        }
    }
    Some(text)
}

/// Whether all lines of nobody's session were served, each in its turn.
pub(crate) fn are_nobodys_served(alloc: Global, input: &[u8], log: &[u8]) -> bool {
    match (
        nobodys_lines(alloc, input, false),
        nobodys_lines(alloc, log, true),
    ) {
        (Some(came), Some(served)) => came.as_slice() == served.as_slice(),
        _ => false,
    }
}
