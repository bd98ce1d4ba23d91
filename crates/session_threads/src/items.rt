//! The items of a session's input, line by line.
ghost use Rattle.std.specs.Prelude.{◌≡◌, List, ℕ, IfSome, true};
ghost use Rattle.session_threads.specs.declared.items.Within.TheVariants.{LostText, Session, Text};
ghost use Rattle.session_threads.specs.Lines.{IsLine};
ghost use Rattle.session_threads.specs.Outcomes.{ComesTo, EndsItems, IsItem, is_item};

use crate::line::Line;
use sessions::{LineForm, PendingText, SessionLine, SessionRefusal};
use std::alloc::Global;
use std::mem;

/// The outcome of a line.
#[derive(Drop)]
pub enum LineOutcome {
    /// No item ends with it.
    Nothing,
    Item(SessionLine),
    /// Memory ran out for the item that ends with it.
    NoMemory,
}

/// Which text a line belongs to.
#[derive(Drop)]
enum Within {
    /// To no text.
    Session,
    /// The text of a command, so far.
    Text(PendingText),
    /// A text for which memory ran out.
    LostText,
}

/// Reads a session's lines, and returns the outcome of each.
#[derive(Drop)]
pub(crate) struct ItemReader {
    alloc: Global,
    within: Within,
}

impl ItemReader {
    /// A reader at the beginning of an input.
    pub(crate) fn new(alloc: Global) -> Self
        ensures { result.within ≡ Session }
    {
        ItemReader {
            alloc,
            within: Within::Session,
        }
    }

    /// Takes the next line.
    pub(crate) fn take_line(&mut self, line: &Line) -> LineOutcome
        ensures line { (bytes : List ℕ) → IsLine line.now bytes →
            ComesTo self.old.within bytes result self.new.within }
        ensures item { IsItem result }
    {
        let (within, outcome) = match mem::replace(&mut self.within, Within::Session) {
            Within::Session => begin(self.alloc, line),
            Within::Text(text) => go_on(self.alloc, text, line),
            Within::LostText => drop_line(line),
        };
        self.within = within;
        outcome
    }

    /// The item at the input's end, if there is one: the refusal of a text that doesn't end.
    pub(crate) fn finish(&self) -> Option<SessionLine>
        ensures ends { EndsItems self.now.within result }
        ensures item { IfSome result (λ item. is_item item ≡ true) }
    {
        match &self.within {
            Within::Session => None,
            Within::Text(_) | Within::LostText => {
                Some(SessionLine::Refused(SessionRefusal::UnfinishedUpload))
            }
        }
    }
}

/// Takes a line outside of texts. Takes no memory.
fn begin(alloc: Global, line: &Line) -> (Within, LineOutcome)
    ensures line { (bytes : List ℕ) → IsLine line.now bytes →
        ComesTo Session bytes result.1 result.0 }
    ensures item { IsItem result.1 }
{
    match line.form() {
        LineForm::Asks(SessionLine::Blank) => (Within::Session, LineOutcome::Nothing),
        LineForm::Asks(item) => (Within::Session, LineOutcome::Item(item)),
        LineForm::Begins(kind) => {
            let text = PendingText::new(alloc, kind);
            (Within::Text(text), LineOutcome::Nothing)
        }
    }
}

/// Takes a line of a text.
fn go_on(alloc: Global, text: PendingText, line: &Line) -> (Within, LineOutcome)
    ensures line { (bytes : List ℕ) → IsLine line.now bytes →
        ComesTo (Text text) bytes result.1 result.0 }
    ensures item { IsItem result.1 }
{
    if line.ends_text() {
        return match text.into_line(alloc) {
            Ok(item) => (Within::Session, LineOutcome::Item(item)),
            Err(_) => (Within::Session, LineOutcome::NoMemory),
        };
    }
    match line.content() {
        Some(content) => match text.with_line(content) {
            Ok(text) => (Within::Text(text), LineOutcome::Nothing),
            Err(_) => (Within::LostText, LineOutcome::Nothing),
        },
        None => {
            drop(text);
            (Within::LostText, LineOutcome::Nothing)
        }
    }
}

/// Takes a line of a text that is lost. The item that ends with the text ran out of memory.
fn drop_line(line: &Line) -> (Within, LineOutcome)
    ensures line { (bytes : List ℕ) → IsLine line.now bytes →
        ComesTo LostText bytes result.1 result.0 }
    ensures item { IsItem result.1 }
{
    if line.ends_text() {
        (Within::Session, LineOutcome::NoMemory)
    } else {
        (Within::LostText, LineOutcome::Nothing)
    }
}
