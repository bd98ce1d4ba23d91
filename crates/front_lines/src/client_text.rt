//! What a client says, separated into commands.
ghost use Rattle.std.specs.Prelude.{◌≡◌, ◌++◌, IfOk, OnOk};
ghost use Rattle.front_lines.specs.Commands.{after_outside, after_within, form_of, is_end, item_in, item_of, item_operator, item_outside, item_within, pushed, state_after};
ghost use Rattle.front_lines.specs.Prelude.{with_feed};

use crate::refusal::Refusal;
use crate::speaker::Speaker;
use line_text::append_words;
use std::alloc::{AllocError, Global};
use std::marker::Model;
use std::mem;
use tagged_lines::push_line;

/// The most bytes of a line outside of netlists. With the longest tag and its LF a line has at most
/// 4,096 bytes, which a pipe takes at once.
pub const MAX_COMMAND: usize = 4_000;

/// The most bytes of a netlist up to its last line, with the line that begins it, LFs and CRs. A
/// netlist that a service accepts has at most 1,048,576 bytes without CRs.
pub const MAX_TEXT: usize = 2_101_248;

/// The most bytes of a line of the operator. With its marks it has at most 4,096 bytes.
pub const MAX_OPERATOR: usize = 1_000;

/// Where a client is.
#[derive(Clone, Copy, PartialEq, Eq)]
pub enum Stage {
    /// Its next line is a command.
    Outside,
    /// Its next line is one of a netlist.
    Within,
    /// Its next line is one of a netlist that is too long already.
    TooLong,
    /// It is the operator: each of its lines is a command.
    Lines,
}

/// What a line completes.
#[derive(Drop)]
pub enum Taken {
    Nothing,
    /// A command: its lines, each ended by LF.
    Command(Vec<u8>),
    Refused(Refusal),
}

/// What a line outside of netlists is.
#[derive(Clone, Copy, PartialEq, Eq)]
pub(crate) enum Form {
    /// It has no words.
    Blank,
    /// It begins a netlist.
    Begins,
    /// It is a command.
    Whole,
}

/// A client's text: where it is, and the lines so far of the netlist that it is in.
#[derive(Drop)]
pub struct ClientText {
    alloc: Global,
    stage: Stage,
    text: Vec<u8>,
}

impl Model for ClientText {
    ghost use Rattle.front_lines.specs.Commands.{ClientState};

    ghost Value = { ClientState };

    ghost view = { λ t. record { stage = t.stage; text = t.text.items } };
}

/// Whether a line ends a netlist.
fn is_end(line: &[u8]) -> bool
    ensures { result ≡ is_end line.now }
{
    line == b".".as_slice() || line == b".\r".as_slice()
}

/// What a line outside of netlists is.
fn form_of(alloc: Global, line: &[u8]) -> Result<Form, AllocError>
    ensures { IfOk result (λ form. form ≡ form_of line.now) }
{
    let mut words = Vec::new(alloc);
    append_words(&mut words, line)?;
    match words.as_slice() {
        [] => Ok(Form::Blank),
        [word] if *word == b"upload".as_slice() || *word == b"change".as_slice() => {
            Ok(Form::Begins)
        }
        _ => Ok(Form::Whole),
    }
}

impl ClientText {
    ghost use Rattle.front_lines.specs.Commands.{begins_as};

    /// A client that has said nothing.
    pub fn new(alloc: Global, speaker: &Speaker) -> Self
        ensures { result ≡ begins_as speaker.now }
    {
        let stage = match speaker {
            Speaker::Tenant(_) => Stage::Outside,
            Speaker::Operator(_) => Stage::Lines,
        };
        ClientText {
            alloc,
            stage,
            text: Vec::new(alloc),
        }
    }

    /// Whether the client is within a netlist.
    pub fn is_within(&self) -> bool {
        matches!(self.stage, Stage::Within | Stage::TooLong)
    }

    /// Takes the client's next line, without its LF.
    ///
    /// # Errors
    /// `AllocError` if memory runs out. The client can't be served any more then.
    pub fn take_line(&mut self, line: &[u8]) -> Result<Taken, AllocError>
        ensures state { OnOk result (self.new ≡ state_after self.old line.now) }
        ensures item { IfOk result (λ taken. item_in taken ≡ item_of self.old line.now) }
    {
        match self.stage {
            Stage::Outside => self.take_outside(line),
            Stage::Within => self.take_within(line),
            Stage::TooLong => Ok(self.take_too_long(line)),
            Stage::Lines => take_operator(self.alloc, line),
        }
    }

    /// Takes a line outside of netlists.
    fn take_outside(&mut self, line: &[u8]) -> Result<Taken, AllocError>
        requires { self.old.stage ≡ Stage.Outside }
        ensures state { OnOk result (self.new ≡ after_outside self.old.text line.now) }
        ensures item { IfOk result (λ taken. item_in taken ≡ item_outside line.now) }
    {
        if line.len() > MAX_COMMAND {
            return Ok(Taken::Refused(Refusal::LineTooLong));
        }
        match form_of(self.alloc, line)? {
            Form::Blank => Ok(Taken::Nothing),
            Form::Begins => {
                self.text.clear();
                push_line(&mut self.text, line)?;
                self.stage = Stage::Within;
                Ok(Taken::Nothing)
            }
            Form::Whole => whole_line(self.alloc, line),
        }
    }

    /// Takes a line of a netlist.
    fn take_within(&mut self, line: &[u8]) -> Result<Taken, AllocError>
        requires { self.old.stage ≡ Stage.Within }
        ensures state { OnOk result (self.new ≡ after_within self.old.text line.now) }
        ensures item { IfOk result (λ taken. item_in taken ≡ item_within self.old.text line.now) }
    {
        if is_end(line) {
            push_line(&mut self.text, line)?;
            self.stage = Stage::Outside;
            return Ok(Taken::Command(mem::replace(&mut self.text, Vec::new(self.alloc))));
        }
        if self.text.len() + line.len() >= MAX_TEXT {
            self.text.clear();
            self.stage = Stage::TooLong;
        } else {
            push_line(&mut self.text, line)?;
        }
        Ok(Taken::Nothing)
    }

    /// Takes a line of a netlist that is too long.
    fn take_too_long(&mut self, line: &[u8]) -> Taken
        requires { self.old.stage ≡ Stage.TooLong }
        ensures state { self.new ≡ state_after self.old line.now }
        ensures item { item_in result ≡ item_of self.old line.now }
    {
        if is_end(line) {
            self.stage = Stage::Outside;
            return Taken::Refused(Refusal::TextTooLong);
        }
        Taken::Nothing
    }
}

/// What a line of the operator completes.
fn take_operator(alloc: Global, line: &[u8]) -> Result<Taken, AllocError>
    ensures { IfOk result (λ taken. item_in taken ≡ item_operator line.now) }
{
    if line.len() > MAX_OPERATOR {
        return Ok(Taken::Refused(Refusal::LineTooLong));
    }
    if line == b"end".as_slice() {
        return Ok(Taken::Refused(Refusal::EndsInput));
    }
    if form_of(alloc, line)? == Form::Blank {
        return Ok(Taken::Nothing);
    }
    whole_line(alloc, line)
}

/// The command of one line.
fn whole_line(alloc: Global, line: &[u8]) -> Result<Taken, AllocError>
    ensures { IfOk result (λ taken. item_in taken ≡ pushed line.now) }
{
    let mut text = Vec::new(alloc);
    push_line(&mut text, line)?;
    Ok(Taken::Command(text))
}
