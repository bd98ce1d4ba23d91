//! A session's input, line by line.
ghost use Rattle.std.specs.Prelude.{◌≡◌, [], None, List, IfOk, IsSome, OnErr, is_some};
ghost use Rattle.sessions.specs.declared.line.SessionLine.{SessionLine};
ghost use Rattle.sessions.specs.Items.{items_of, with_item};
ghost use Rattle.sessions.specs.Reading.{FormGives, GivesItem, item_and, items_to_come};
ghost use Rattle.sessions.specs.SessionLines.{line_form};

use crate::line::{LineForm, SessionLine, line_form};
use crate::pending_text::{PendingText, is_point, without_cr};
use crate::refusal::SessionRefusal;
use line_text::split_line;
use std::alloc::{AllocError, Global};
use std::marker::Model;

/// Reads a session's input line by line, and returns the item of a line, if it has one. Its value
/// is the text that is being read, if there is one.
#[derive(Drop)]
pub struct SessionReader {
    alloc: Global,
    text: Option<PendingText>,
}

impl Model for SessionReader {
    ghost use Rattle.std.specs.Prelude.{Option};
    ghost use Rattle.sessions.specs.Reading.{TextSoFar};

    ghost Value = { Option TextSoFar };

    ghost view = { λ r. r.text };
}

impl SessionReader {
    /// A reader at the beginning of the input.
    pub fn new(alloc: Global) -> Self
        ensures { result ≡ None }
    {
        SessionReader { alloc, text: None }
    }

    /// Whether it is in a text.
    pub fn is_in_text(&self) -> bool
        ensures { result ≡ is_some self.now }
    {
        self.text.is_some()
    }

    /// Takes the next line, without its LF. Memory can run out within a text only: the text is lost
    /// then, and the next line is outside of texts.
    pub fn take_line(&mut self, line: &[u8]) -> Result<Option<SessionLine>, AllocError>
        ensures given { IfOk result (λ item. GivesItem self.old line.now item self.new) }
        ensures lost { OnErr result (IsSome self.old × (self.new ≡ None)) }
    {
        let line = without_cr(line);
        match self.text.take() {
            Some(text) => {
                if is_point(line) {
                    Ok(Some(text.into_line(self.alloc)?))
                } else {
                    self.text = Some(text.with_line(line)?);
                    Ok(None)
                }
            }
            None => Ok(self.begin(line)),
        }
    }

    /// Takes a line outside of texts, without its end.
    fn begin(&mut self, line: &[u8]) -> Option<SessionLine>
        requires { self.old ≡ None }
        ensures { FormGives (line_form line.now) result self.new }
    {
        match line_form(line) {
            LineForm::Asks(line) => unless_blank(line),
            LineForm::Begins(kind) => {
                self.text = Some(PendingText::new(self.alloc, kind));
                None
            }
        }
    }

    /// The item at the input's end, if there is one: the refusal of a text that doesn't end.
    pub fn finish(self) -> Option<SessionLine>
        ensures { item_and result [] ≡ items_to_come self [] }
    {
        let SessionReader { alloc: _, text } = self;
        match text {
            Some(text) => {
                drop(text);
                Some(SessionLine::Refused(SessionRefusal::UnfinishedUpload))
            }
            None => None,
        }
    }
}

/// A line, if it has words.
fn unless_blank(line: SessionLine) -> Option<SessionLine>
    ensures { (items : List SessionLine) → item_and result items ≡ with_item line items }
{
    match line {
        SessionLine::Blank => None,
        line => Some(line),
    }
}

/// The items of a session's whole input, in order. An error if memory runs out.
pub fn read_items(alloc: Global, input: &[u8]) -> Result<Vec<SessionLine>, AllocError>
    ensures { IfOk result (λ items. items.items ≡ items_of input.now) }
{
    let mut items = Vec::new(alloc);
    let mut reader = SessionReader::new(alloc);
    let mut rest = input;
    while !rest.is_empty() {
        let (line, after) = split_line(rest);
        if let Some(item) = reader.take_line(line)? {
            items.push(item)?;
        }
        rest = after;
    }
    if let Some(item) = reader.finish() {
        items.push(item)?;
    }
    Ok(items)
}
