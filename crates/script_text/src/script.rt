//! A script, read whole into its acts.
ghost use Rattle.std.specs.Prelude.{◌≡◌, ◌+◌, ◌<◌, ◌^◌, ◌++◌, ◌∷◌, [], length, IfOk, OnOk, map};
ghost use Rattle.script_text.specs.Prelude.{Gives};
ghost use Rattle.script_text.specs.Script.{script_of, named_act};

use crate::act::Act;
use crate::form::{Form, form_of};
use crate::texts::{cut_text, kept_text};
use line_text::{Text, TextError, split_line};
use sessions::{SessionLine, SessionRefusal, TextKind, without_cr};
use std::alloc::{AllocError, Global};
use std::marker::Model;
use tenant_slot::SharedText;

/// Why a script has no acts: memory ran out, or the number of its first faulty line.
pub type ScriptError = TextError<usize>;

/// The acts of a script's lines, in order. Its value is their list.
#[derive(Drop)]
pub struct Script<'t> {
    acts: Vec<Act<&'t [u8]>>,
}

impl<'t> Model for Script<'t> {
    ghost use Rattle.std.specs.Prelude.{List, ℕ, map};
    ghost use Rattle.script_text.specs.declared.act.Act.{Act};
    ghost use Rattle.script_text.specs.Script.{named_act};

    ghost Value = { List (Act (List ℕ)) };

    ghost view = { λ a. map named_act a.acts.items };
}

impl<'t> Script<'t> {
    /// The acts, in the script's order.
    pub fn into_acts(self) -> Vec<Act<&'t [u8]>>
        ensures { map named_act result.items ≡ self.entry }
    {
        let Script { acts } = self;
        acts
    }
}

/// A script that is being read.
#[derive(Drop)]
struct Reader<'t> {
    alloc: Global,
    /// The number of the next line.
    number: usize,
    rest: &'t [u8],
    acts: Vec<Act<&'t [u8]>>,
    words: Vec<&'t [u8]>,
}

/// Reads the acts of a script whose first line has that number. Fails with the number of the first
/// faulty line, or if memory runs out.
pub fn read_script(alloc: Global, text: &[u8], number: usize) -> Result<Script<'_>, ScriptError>
    requires { number + length text.now < 2 ^ 64 }
    ensures { Gives (script_of number text.now) result }
{
    let mut reader = Reader::new(alloc, text, number);
    while !reader.rest.is_empty() {
        reader.read_line()?;
    }
    Ok(Script { acts: reader.acts })
}

impl<'t> Reader<'t> {
    ghost use Rattle.script_text.specs.Reading.{Reads, ReadsText};

    fn new(alloc: Global, text: &'t [u8], number: usize) -> Self
        ensures number { result.number ≡ number }
        ensures rest { result.rest ≡ text.entry }
        ensures acts { result.acts.items ≡ [] }
    {
        Reader {
            alloc,
            number,
            rest: text,
            acts: Vec::new(alloc),
            words: Vec::new(alloc),
        }
    }

    /// Reads the next line, with the text that follows it.
    fn read_line(&mut self) -> Result<(), ScriptError>
        requires some { 0 < length self.old.rest.now }
        requires counted { self.old.number + length self.old.rest.now < 2 ^ 64 }
        ensures { Reads self.old result self.new }
    {
        let number = self.number;
        let (line, rest) = split_line(self.rest);
        self.number += 1;
        self.rest = rest;
        match form_of(&mut self.words, without_cr(line))? {
            Form::Skipped => Ok(()),
            Form::Faulty => Err(ScriptError::Fault(number)),
            Form::Asks(act) => Ok(push(&mut self.acts, act)?),
            Form::Begins(name, kind) => {
                let line = self.read_text(kind)?;
                Ok(push(&mut self.acts, Act::Session(name, line))?)
            }
        }
    }

    /// Reads the text at the start of the rest. If the text doesn't end, nothing is left.
    #[tactic(auto, using(crate::proofs::AheadLemmas::text_of_bytes))]
    fn read_text(&mut self, kind: TextKind) -> Result<SessionLine, AllocError>
        requires { self.old.number + length self.old.rest.now < 2 ^ 64 }
        ensures { IfOk result (λ line. ReadsText self.old kind line self.new) }
    {
        let Some(cut) = cut_text(self.rest, self.number) else {
            self.rest = &self.rest[self.rest.len()..];
            return Ok(SessionLine::Refused(SessionRefusal::UnfinishedUpload));
        };
        self.number = cut.number;
        self.rest = cut.rest;
        let text = Text::new(kept_text(self.alloc, cut.ahead)?);
        let text = SharedText::new(self.alloc, text)?;
        Ok(SessionLine::Command(kind.command(text)))
    }
}

fn push<'t>(acts: &mut Vec<Act<&'t [u8]>>, act: Act<&'t [u8]>) -> Result<(), AllocError>
    ensures { OnOk result (acts.new.items ≡ acts.old.items ++ act.entry ∷ []) }
{
    match acts.push(act) {
        Ok(()) => Ok(()),
        Err(failed) => Err(AllocError::from(failed)),
    }
}
