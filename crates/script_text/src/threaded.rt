//! A script as threads run it.
ghost use Rattle.std.specs.Prelude.{◌≡◌, ◌+◌, ◌<◌, ◌^◌, length, map, IfOk, OnOk};
ghost use Rattle.script_text.specs.Threaded.{AreApart, GivesThreaded, is_by_hand, nothing_said, parts_of, said_by, threaded_of};
ghost use Rattle.script_text.specs.Script.{named_operator};

use crate::act::Act;
use crate::form::{Form, after_first_word, form_of};
use crate::inputs::{SessionInput, Sessions};
use crate::operator_line::OperatorLine;
use crate::script::ScriptError;
use line_text::split_line;
use sessions::{is_point, without_cr};
use std::alloc::{AllocError, Global};

/// A script as threads run it.
#[derive(Drop)]
pub struct ThreadedScript<'t> {
    /// The operator's lines before the first session's line.
    pub ahead: Vec<OperatorLine<&'t [u8]>>,
    /// The input of each name's session, in the order of their first lines.
    pub sessions: Vec<SessionInput<'t>>,
    /// The operator's other lines.
    pub rest: Vec<OperatorLine<&'t [u8]>>,
}

/// Reads a script as threads run it; its first line has that number. Fails with the number of the
/// first faulty line, or if memory runs out. A line that takes, steps or puts a job by hand is
/// faulty.
pub fn read_threaded<'t>(
    alloc: Global,
    text: &'t [u8],
    number: usize,
) -> Result<ThreadedScript<'t>, ScriptError>
    requires { number + length text.now < 2 ^ 64 }
    ensures gives { GivesThreaded (threaded_of number text.now) result }
    ensures apart { IfOk result (λ script. AreApart (map said_by script.sessions.items)) }
{
    let mut reader = ThreadedReader::new(alloc);
    let mut rest = text;
    let mut number = number;
    while !rest.is_empty() {
        let (line, after) = split_line(rest);
        reader.hear(number, line)?;
        number += 1;
        rest = after;
    }
    Ok(reader.into_script())
}

/// A script that is being read.
#[derive(Drop)]
struct ThreadedReader<'t> {
    words: Vec<&'t [u8]>,
    ahead: Vec<OperatorLine<&'t [u8]>>,
    sessions: Sessions<'t>,
    rest: Vec<OperatorLine<&'t [u8]>>,
    /// The name whose text the next line belongs to, if it belongs to one.
    within: Option<&'t [u8]>,
}

impl<'t> ThreadedReader<'t> {
    ghost use Rattle.std.specs.Prelude.{None};
    ghost use Rattle.script_text.specs.Names.{AreNamed};
    ghost use Rattle.script_text.specs.Threaded.{heard_so_far};
    ghost use Rattle.script_text.specs.Threaded.Within.{Script};
    ghost use Rattle.script_text.specs.Threads.{AddsOperator, Hears, HearsForm, heard_by, parts_read};

    fn new(alloc: Global) -> Self
        ensures heard { heard_by result ≡ heard_so_far nothing_said Script }
        ensures named { AreNamed result.sessions }
    {
        ThreadedReader {
            words: Vec::new(alloc),
            ahead: Vec::new(alloc),
            sessions: Sessions::new(alloc),
            rest: Vec::new(alloc),
            within: None,
        }
    }

    /// Reads the next line, which has that number.
    fn hear(&mut self, number: usize, line: &'t [u8]) -> Result<(), ScriptError>
        requires { AreNamed self.old.sessions }
        ensures { Hears self.old number line.now result self.new }
    {
        let Some(name) = self.within else {
            let form = form_of(&mut self.words, without_cr(line))?;
            return self.hear_form(number, form, line);
        };
        self.sessions.add(name, line)?;
        if is_point(without_cr(line)) {
            self.within = None;
        }
        Ok(())
    }

    /// Reads a line of that form, outside of texts.
    fn hear_form(
        &mut self,
        number: usize,
        form: Form<&'t [u8]>,
        line: &[u8],
    ) -> Result<(), ScriptError>
        requires named { AreNamed self.old.sessions }
        requires within { self.old.within ≡ None }
        ensures { HearsForm self.old number form.entry line.now result self.new }
    {
        match form {
            Form::Skipped => Ok(()),
            Form::Faulty => Err(ScriptError::Fault(number)),
            Form::Asks(Act::Operator(asked)) => {
                if is_by_hand(&asked) {
                    return Err(ScriptError::Fault(number));
                }
                Ok(self.add_operator(asked)?)
            }
            Form::Asks(Act::Session(name, _)) => Ok(
                self.sessions.add(name, after_first_word(line))?,
            ),
            Form::Begins(name, _) => {
                self.sessions.add(name, after_first_word(line))?;
                self.within = Some(name);
                Ok(())
            }
        }
    }

    /// Adds a line of the operator: before the sessions, or to the other lines once there is a
    /// session.
    fn add_operator(&mut self, line: OperatorLine<&'t [u8]>) -> Result<(), AllocError>
        ensures { OnOk result (AddsOperator self.old (named_operator line.entry) self.new) }
    {
        if self.sessions.is_empty() {
            self.ahead.push(line)?;
        } else {
            self.rest.push(line)?;
        }
        Ok(())
    }

    /// What was read.
    fn into_script(self) -> ThreadedScript<'t>
        ensures { parts_of result ≡ parts_read self.entry }
    {
        let ThreadedReader {
            words,
            ahead,
            sessions,
            rest,
            within: _,
        } = self;
        drop(words);
        ThreadedScript {
            ahead,
            sessions: sessions.into_said(),
            rest,
        }
    }
}

/// Returns whether the line takes, steps or puts a job by hand.
fn is_by_hand(line: &OperatorLine<&[u8]>) -> bool
    ensures { result ≡ is_by_hand (named_operator line.now) }
{
    matches!(
        line,
        OperatorLine::Step(..) | OperatorLine::Take(_) | OperatorLine::Put(_)
    )
}
