//! What a line asks.
ghost use Rattle.std.specs.Prelude.{◌≡◌, ◌<◌, ◌^◌, Ok, codes, length, map, IfOk};
ghost use Rattle.std.specs.List.{list_all};
ghost use Rattle.std.specs.Str.{bytes_eq};
ghost use Rattle.live_lines.specs.Prelude.{is_blank as is_blank_byte, named_act, script_of, tag_of};
ghost use Rattle.live_lines.specs.Live.{HasTag, asked_by, asked_of, asks, are_echoed, begins_comment, is_echo, is_echoed, is_passed, is_short, operator_asks, words_ask};

use line_text::{is_blank, is_word};
use script_text::{Act, OperatorLine, ScriptError, is_name, read_script};
use std::alloc::{AllocError, Global};
use tagged_lines::{owner_of, split_tag};

/// The most bytes that a line of the operator may have; a longer one has no form. More than that
/// are kept of a line, so no line is taken for another one because its end was cut off.
pub const MAX_OPERATOR_LINE: usize = 1_048_576;

/// The most bytes of the words that `op echo` may have.
pub const MAX_ECHO: usize = 64;

/// What a line asks.
#[derive(Clone, Copy)]
pub enum LineRequest<'l> {
    /// It is a comment, or has no word.
    Nothing,
    NoForm,
    /// That the operator is answered these words: 1 to 64 printing ASCII characters and blanks.
    Echoes(&'l [u8]),
    /// How full the service is.
    Figures,
    Operates(OperatorLine<&'l [u8]>),
    /// The tag, the name in it, and what the line says.
    Says(&'l [u8], &'l [u8], &'l [u8]),
}

/// What a line asks.
pub fn asked_of(alloc: Global, line: &[u8]) -> Result<LineRequest<'_>, AllocError>
    requires { length line.now < 2 ^ 63 }
    ensures asks { IfOk result (λ asked. asks asked ≡ asked_of line.now) }
    ensures tag { IfOk result (HasTag (tag_of line.now)) }
{
    if is_passed(line) {
        return Ok(LineRequest::Nothing);
    }
    let (tag, rest) = split_tag(line);
    match owner_of(tag) {
        Some(owner) => asked_by(alloc, owner, line, tag, rest),
        None => Ok(LineRequest::NoForm),
    }
}

/// What a line asks, from its tag's owner, the line, its tag, and what it says.
fn asked_by<'l>(
    alloc: Global,
    owner: &'l [u8],
    line: &'l [u8],
    tag: &'l [u8],
    rest: &'l [u8],
) -> Result<LineRequest<'l>, AllocError>
    requires { length line.now < 2 ^ 63 }
    ensures asks { IfOk result (λ asked. asks asked ≡ asked_by owner.now line.now rest.now) }
    ensures tag { IfOk result (HasTag tag.now) }
{
    match owner {
        [b'@', name @ ..] => {
            if is_name(name) {
                Ok(LineRequest::Says(tag, name, rest))
            } else {
                Ok(LineRequest::NoForm)
            }
        }
        _ => {
            if is_word(owner, "op") && is_short(line) {
                words_ask(alloc, line, rest)
            } else {
                Ok(LineRequest::NoForm)
            }
        }
    }
}

/// Whether a line is passed over: it is a comment, or has no word.
fn is_passed(line: &[u8]) -> bool
    ensures { result ≡ is_passed line.now }
{
    begins_comment(line) || has_no_word(line)
}

fn begins_comment(line: &[u8]) -> bool
    ensures { result ≡ begins_comment line.now }
{
    match line {
        [first, ..] => *first == b'#',
        [] => false,
    }
}

fn has_no_word(line: &[u8]) -> bool
    ensures { result ≡ list_all is_blank_byte line.now }
{
    line.iter().all(|byte| is_blank(*byte))
}

/// Whether a line isn't too long for one of the operator.
fn is_short(line: &[u8]) -> bool
    ensures { result ≡ is_short line.now }
{
    line.len() <= MAX_OPERATOR_LINE
}

/// What a line of the operator asks, which says that.
fn words_ask<'l>(
    alloc: Global,
    line: &'l [u8],
    said: &'l [u8],
) -> Result<LineRequest<'l>, AllocError>
    requires { length line.now < 2 ^ 63 }
    ensures { IfOk result (λ asked. asks asked ≡ words_ask line.now said.now (script_of 1 line.now)) }
{
    if is_echo(line, said) {
        let (_, words) = split_tag(said);
        return Ok(LineRequest::Echoes(words));
    }
    if is_figures(line) {
        return Ok(LineRequest::Figures);
    }
    operator_asks(alloc, line)
}

/// Whether a line is just `op figures`.
fn is_figures(line: &[u8]) -> bool
    ensures { result ≡ bytes_eq line.now (codes "op figures") }
{
    is_word(line, "op figures")
}

/// Whether a line has the tag `op` without an id, and says `echo`, one blank, and words that may be
/// echoed.
fn is_echo(line: &[u8], said: &[u8]) -> bool
    ensures { result ≡ is_echo line.now said.now }
{
    let (tag, _) = split_tag(line);
    let (verb, words) = split_tag(said);
    is_word(tag, "op") && is_word(verb, "echo") && are_echoed(words)
}

fn are_echoed(words: &[u8]) -> bool
    ensures { result ≡ are_echoed words.now }
{
    !words.is_empty() && words.len() <= MAX_ECHO && are_echo_bytes(words)
}

fn are_echo_bytes(words: &[u8]) -> bool
    ensures { result ≡ list_all is_echoed words.now }
{
    words.iter().all(|byte| is_echoed(*byte))
}

/// Whether a byte is a printing ASCII character or a blank.
fn is_echoed(byte: u8) -> bool
    ensures { result ≡ is_echoed byte }
{
    (b' '..=b'~').contains(&byte)
}

/// What a line of the operator asks that a script may have.
fn operator_asks(alloc: Global, line: &[u8]) -> Result<LineRequest<'_>, AllocError>
    requires { length line.now < 2 ^ 63 }
    ensures { IfOk result (λ asked. asks asked ≡ operator_asks (script_of 1 line.now)) }
{
    match read_script(alloc, line, 1) {
        Ok(script) => Ok(sole_operation(script.into_acts())),
        Err(ScriptError::NoMemory) => Err(AllocError),
        Err(ScriptError::Fault(_)) => Ok(LineRequest::NoForm),
    }
}

/// What these acts ask, if they are one act of the operator.
fn sole_operation<'l>(acts: Vec<Act<&'l [u8]>>) -> LineRequest<'l>
    ensures { asks result ≡ operator_asks (Ok (map named_act acts.entry.items)) }
{
    match acts.as_slice() {
        [act] => match act {
            Act::Operator(line) => LineRequest::Operates(*line),
            Act::Session(_, _) => LineRequest::NoForm,
        },
        _ => LineRequest::NoForm,
    }
}
