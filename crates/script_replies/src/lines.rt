//! The lines of a script that are acts.
ghost use Rattle.std.specs.Prelude.{◌≡◌, ◌+◌, ◌<◌, ◌++◌, ◌∷◌, ◌^◌, ℕ, List, IfOk, drop, length, map};
ghost use Rattle.script_replies.specs.ScriptLines.{asked_from, begins_text, begins_text_by, is_skipped, is_skipped_by, lines_asked, numbered};
ghost use Rattle.script_replies.specs.Prelude.{begins_text as line_begins};

use line_text::{skip_blanks, split_line, split_word};
use script_text::is_name;
use sessions::{LineForm, is_point, line_form, without_cr};
use std::alloc::{AllocError, Global};

/// A line of a script that is an act, without its line end. The text of an upload isn't part of it.
#[derive(Clone, Copy)]
pub struct ScriptLine<'t> {
    /// Its number, as the program counts it.
    pub number: usize,
    pub text: &'t [u8],
}

/// Returns the lines of a script whose first line has that number, in order, without comments,
/// empty lines and the texts of uploads. In a script without a faulty line each of them is an act.
/// Fails with [`AllocError`] if memory runs out.
pub fn script_lines(
    alloc: Global,
    text: &[u8],
    number: usize,
) -> Result<Vec<ScriptLine<'_>>, AllocError>
    requires { number + length text.now < 2 ^ 64 }
    ensures { IfOk result (λ lines. map numbered lines.items ≡ lines_asked number text.now) }
{
    let mut lines = Vec::new(alloc);
    let mut number = number;
    let mut rest = text;
    let mut is_in_text = false;
    while !rest.is_empty() {
        let (line, later) = split_line(rest);
        is_in_text = take_line(&mut lines, number, is_in_text, line)?;
        number += 1;
        rest = later;
    }
    Ok(lines)
}

/// Adds a line if it is one of the lines to return. Returns whether the next one is in a text.
fn take_line<'t>(
    lines: &mut Vec<ScriptLine<'t>>,
    number: usize,
    is_in_text: bool,
    line: &'t [u8],
) -> Result<bool, AllocError>
    ensures { IfOk result (λ within. (rest : List (List ℕ)) →
        map numbered lines.new.items ++ asked_from (number + 1) within rest
        ≡ map numbered lines.old.items ++ asked_from number is_in_text (line.now ∷ rest)) }
{
    let text = without_cr(line);
    if is_in_text {
        return Ok(!is_point(text));
    }
    if is_skipped(text) {
        return Ok(false);
    }
    lines.push(ScriptLine { number, text })?;
    Ok(begins_text(text))
}

/// Whether a line has no words, or is a comment.
fn is_skipped(line: &[u8]) -> bool
    ensures { result ≡ is_skipped line.now }
{
    let (first, _) = split_word(skip_blanks(line));
    is_skipped_by(first)
}

/// Whether a line with this first word is skipped.
fn is_skipped_by(first: &[u8]) -> bool
    ensures { result ≡ is_skipped_by first.now }
{
    first.is_empty() || first[0] == b'#'
}

/// Whether a text follows a line.
fn begins_text(line: &[u8]) -> bool
    ensures { result ≡ begins_text line.now }
{
    let (first, rest) = split_word(skip_blanks(line));
    begins_text_by(first, after_blank(rest))
}

/// Whether a text follows a line with this first word and this rest.
fn begins_text_by(first: &[u8], rest: &[u8]) -> bool
    ensures { result ≡ begins_text_by first.now rest.now }
{
    if first.is_empty() {
        return false;
    }
    if first[0] != b'@' || !is_name(&first[1..]) {
        return false;
    }
    let form = line_form(rest);
    let begins = begins(&form);
    drop(form);
    begins
}

/// Whether a session's line of this form begins a text.
fn begins(form: &LineForm) -> bool
    ensures { result ≡ line_begins form.now }
{
    match form {
        LineForm::Begins(_) => true,
        LineForm::Asks(_) => false,
    }
}

/// The bytes after the blank that they begin with.
fn after_blank(bytes: &[u8]) -> &[u8]
    ensures { result.now ≡ drop 1 bytes.now }
{
    match bytes.split_first() {
        Some((_, rest)) => rest,
        None => bytes,
    }
}
