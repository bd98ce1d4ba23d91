//! The forms of a script's lines.
ghost use Rattle.std.specs.Prelude.{◌≡◌, drop, option_map, IfOk};
ghost use Rattle.script_text.specs.Script.{form_by, form_in, named_form, named_operator, operator_form, session_form};
ghost use Rattle.script_text.specs.Threaded.{after_first_word};

use crate::act::Act;
use crate::name::is_name;
use crate::operator_line::{OperatorLine, operator_line};
use line_text::{append_words, is_word, skip_blanks, split_word};
use sessions::{LineForm, TextKind, line_form};
use std::alloc::AllocError;

/// The form of a script's line.
#[derive(Drop)]
pub(crate) enum Form<N> {
    Skipped,
    Faulty,
    Asks(Act<N>),
    /// The line begins a text of that kind, for that name's session.
    Begins(N, TextKind),
}

/// Returns the form of a line without its CR.
#[tactic(auto, unfolding(crate::specs::Script::form_in))]
pub(crate) fn form_of<'t>(
    words: &mut Vec<&'t [u8]>,
    line: &'t [u8],
) -> Result<Form<&'t [u8]>, AllocError>
    ensures { IfOk result (λ form. named_form form ≡ form_in line.now) }
{
    let (first, rest) = split_word(skip_blanks(line));
    form_by(words, first, after_blank(rest))
}

/// Returns a line's rest after its first word and one blank.
pub(crate) fn after_first_word(line: &[u8]) -> &[u8]
    ensures { result.now ≡ after_first_word line.now }
{
    let (_, rest) = split_word(skip_blanks(line));
    after_blank(rest)
}

/// The bytes after the blank that they begin with.
fn after_blank(bytes: &[u8]) -> &[u8]
    ensures { result.now ≡ drop 1 bytes.now }
{
    match bytes.split_first() {
        Some((_, rest)) => rest,
        None => bytes,
    }
}

/// Returns a line's form, by its first word, and by its rest after one blank.
fn form_by<'t>(
    words: &mut Vec<&'t [u8]>,
    first: &'t [u8],
    rest: &'t [u8],
) -> Result<Form<&'t [u8]>, AllocError>
    ensures { IfOk result (λ form. named_form form ≡ form_by first.now rest.now) }
{
    if first.is_empty() || first[0] == b'#' {
        return Ok(Form::Skipped);
    }
    if first[0] == b'@' {
        let name = &first[1..];
        if !is_name(name) {
            return Ok(Form::Faulty);
        }
        return Ok(session_form(name, line_form(rest)));
    }
    if !is_word(first, "op") {
        return Ok(Form::Faulty);
    }
    words.clear();
    append_words(words, rest)?;
    Ok(operator_form(operator_line(words)))
}

/// The form of a line of that name's session.
fn session_form<'t>(name: &'t [u8], line: LineForm) -> Form<&'t [u8]>
    ensures { named_form result ≡ session_form name.now line }
{
    match line {
        LineForm::Asks(line) => Form::Asks(Act::Session(name, line)),
        LineForm::Begins(kind) => Form::Begins(name, kind),
    }
}

/// The form of a line of the operator; faulty if it is missing.
fn operator_form<'t>(line: Option<OperatorLine<&'t [u8]>>) -> Form<&'t [u8]>
    ensures { named_form result ≡ operator_form (option_map named_operator line.entry) }
{
    match line {
        Some(line) => Form::Asks(Act::Operator(line)),
        None => Form::Faulty,
    }
}
