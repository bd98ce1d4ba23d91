ghost use Rattle.std.specs.Prelude.{◌≡◌, ◌≢◌, ◌∷◌, [], length, MatchOption};
ghost use Rattle.sessions.specs.Prelude.{words_of};
ghost use Rattle.sessions.specs.declared.line.LineForm.TheVariants.{Asks};
ghost use Rattle.sessions.specs.declared.line.SessionLine.TheVariants.{Refused};
ghost use Rattle.sessions.specs.declared.refusal.SessionRefusal.TheVariants.{UnknownCommand};
ghost use Rattle.sessions.specs.SessionLines.{filled_form, line_form, place_line, placing, text_command, verb_form};

use crate::refusal::SessionRefusal;
use line_text::{decimal_u32, decimal_u64, skip_blanks, split_word};
use tenant_slot::{Command, SharedText};

/// The most bytes of a session's line.
const MAX_SESSION_LINE: usize = 4096;

/// What a session's line asks. A command includes its text.
#[derive(Drop)]
pub enum SessionLine {
    /// The line has no words, and is answered nothing.
    Blank,
    Command(Command),
    /// Makes the steps of the running job, and then does what `status` does.
    Wait,
    Refused(SessionRefusal),
}

/// Which command a text is for.
#[derive(Clone, Copy, PartialEq, Eq)]
pub enum TextKind {
    Upload,
    Change,
}

impl TextKind {
    /// The command of this kind with that text.
    pub fn command(self, text: SharedText) -> Command
        ensures { result ≡ text_command self text }
    {
        match self {
            TextKind::Upload => Command::Upload(text),
            TextKind::Change => Command::Change(text),
        }
    }
}

/// The form of a session's line by itself.
#[derive(Drop)]
pub enum LineForm {
    Asks(SessionLine),
    /// The line begins a command whose text follows.
    Begins(TextKind),
}

/// What a session's line asks, without its end. Takes no memory.
pub fn line_form(line: &[u8]) -> LineForm
    ensures { result ≡ line_form line.now }
{
    match next_word(line) {
        None => LineForm::Asks(SessionLine::Blank),
        Some((verb, others)) => if line.len() > MAX_SESSION_LINE {
            unknown_form()
        } else {
            filled_form(verb, others)
        },
    }
}

/// The first word of a line, and what follows it. None if there is no word.
fn next_word(line: &[u8]) -> Option<(&[u8], &[u8])>
    ensures { MatchOption result (words_of line.now ≡ [])
        (λ parts. words_of line.now ≡ parts.0.now ∷ words_of parts.1.now) }
{
    let line = skip_blanks(line);
    if line.is_empty() {
        return None;
    }
    Some(split_word(line))
}

fn unknown_form() -> LineForm
    ensures { result ≡ Asks (Refused UnknownCommand) }
{
    LineForm::Asks(SessionLine::Refused(SessionRefusal::UnknownCommand))
}

/// What a line asks, by its first word and those after it.
fn filled_form(verb: &[u8], others: &[u8]) -> LineForm
    ensures { result ≡ filled_form verb.now (words_of others.now) }
{
    if verb == b"place".as_slice() {
        return LineForm::Asks(place_line(others));
    }
    match next_word(others) {
        None => verb_form(verb),
        Some(_) => unknown_form(),
    }
}

/// What a line asks, by the words after `place`.
fn place_line(words: &[u8]) -> SessionLine
    ensures { result ≡ place_line (words_of words.now) }
{
    match two_words(words) {
        Some((seed, effort)) => placing(decimal_u64(seed), decimal_u32(effort)),
        None => SessionLine::Refused(SessionRefusal::BadNumber),
    }
}

/// The words, if there are two.
fn two_words(words: &[u8]) -> Option<(&[u8], &[u8])>
    ensures { MatchOption result (length (words_of words.now) ≢ 2)
        (λ two. words_of words.now ≡ two.0.now ∷ two.1.now ∷ []) }
{
    let (first, others) = next_word(words)?;
    let (second, others) = next_word(others)?;
    match next_word(others) {
        None => Some((first, second)),
        Some(_) => None,
    }
}

fn placing(seed: Option<u64>, effort: Option<u32>) -> SessionLine
    ensures { result ≡ placing seed effort }
{
    match (seed, effort) {
        (Some(seed), Some(effort)) => SessionLine::Command(Command::Place { seed, effort }),
        _ => SessionLine::Refused(SessionRefusal::BadNumber),
    }
}

/// What a line of one word asks.
fn verb_form(verb: &[u8]) -> LineForm
    ensures { result ≡ verb_form verb.now }
{
    if verb == b"upload".as_slice() {
        return LineForm::Begins(TextKind::Upload);
    }
    if verb == b"change".as_slice() {
        return LineForm::Begins(TextKind::Change);
    }
    LineForm::Asks(if verb == b"pack".as_slice() {
        SessionLine::Command(Command::Pack)
    } else if verb == b"route".as_slice() {
        SessionLine::Command(Command::Route)
    } else if verb == b"cancel".as_slice() {
        SessionLine::Command(Command::Cancel)
    } else if verb == b"withdraw".as_slice() {
        SessionLine::Command(Command::Withdraw)
    } else if verb == b"status".as_slice() {
        SessionLine::Command(Command::Status)
    } else if verb == b"net".as_slice() {
        SessionLine::Command(Command::Net)
    } else if verb == b"placefile".as_slice() {
        SessionLine::Command(Command::PlaceFile)
    } else if verb == b"routefile".as_slice() {
        SessionLine::Command(Command::RouteFile)
    } else if verb == b"wait".as_slice() {
        SessionLine::Wait
    } else {
        SessionLine::Refused(SessionRefusal::UnknownCommand)
    })
}
