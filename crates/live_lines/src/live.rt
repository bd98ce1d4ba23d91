//! A live service takes lines, and answers each before the next one.
ghost use Rattle.std.specs.Prelude.{◌≡◌, ◌<◌, ◌^◌, ◌∷◌, ◌++◌, [], length, codes, decimal, OnOk, is_ok};
ghost use Rattle.std.specs.Io.KnownBytes.{Appends};
ghost use Rattle.live_lines.specs.Prelude.{named_operator, answer_told, output_of, tag_of, tagged_text, session_refusal_text, UnfinishedUpload, Run, give_backs};
ghost use Rattle.live_lines.specs.Live.{asked_of as what_asks, count_text, for_name, is_open as is_open_line, told_by};

mod lending;

use crate::asked::{LineRequest, asked_of};
use crate::counted::count_lines;
use crate::figures::push_figures;
use crate::lasting::Lasting;
use crate::said::{LastName, Said};
use crate::trouble::Trouble;
use itoa::Buffer;
use line_text::{Failed, MemorySink, Sink, write_slices};
use operator::{HeldJobs, Operator};
use script_text::OperatorLine;
use service_core::Service;
use sessions::{Answer, SessionLine, SessionRefusal, answer, write_session_refusal};
use std::alloc::{AllocError, Global};
use strips::DeviceGraph;
use tagged_lines::{write_answer, write_at_once};

/// A live service: the core, the operator's names and jobs, and the text that each name's session
/// is in.
pub struct Live<'g> {
    alloc: Global,
    graph: &'g DeviceGraph,
    core: Service,
    operator: Operator<'static>,
    jobs: HeldJobs<'g>,
    lasting: Lasting,
    said: Said,
}

impl<'g> Live<'g> {
    ghost use Rattle.live_lines.specs.Ends.{Ends};
    ghost use Rattle.live_lines.specs.Live.{IsSteady, TakesItem, TakesLine, TakesOperator, TellsFigures, stage_of, state_of};
    ghost use Rattle.live_lines.specs.Said.{IsEven, no_texts, texts_of};

    /// A service that has taken no line. The core must have admitted no tenancy.
    pub fn new(alloc: Global, graph: &'g DeviceGraph, core: Service) -> Self
        requires { core.histories ≡ [] }
        ensures steady { IsSteady result }
        ensures state { state_of result ≡ record {
          stage = record { names = []; jobs = []; service = core; graph = graph.now };
          texts = no_texts;
        } }
    {
        Live {
            alloc,
            graph,
            core,
            operator: Operator::new(alloc),
            jobs: HeldJobs::new(alloc),
            lasting: Lasting::new(alloc),
            said: Said::new(alloc),
        }
    }

    /// Takes a line, and writes its reply, each line of it with its tag. The tag of the operator's
    /// lines is `op`, that of a name's session `@NAME` or `@NAME/ID`. If the tag of an item's last
    /// line has an id, a line `done @NAME/ID` follows the reply. A comment or a line without a word
    /// has no reply. A line without a form changes nothing, and its reply is its number with the
    /// tag `?`. Nor do `op echo WORDS` and `op figures` change anything: the reply is these words,
    /// or how full the service is.
    ///
    /// # Errors
    /// `NoMemory` if it runs out of memory, and `Failed` if the writer fails. The service takes no
    /// line after that.
    pub fn take_line<W: Sink>(
        &mut self,
        writer: &mut W,
        number: u64,
        line: &[u8],
    ) -> Result<(), Trouble>
        requires short { length line.now < 2 ^ 63 }
        requires steady { IsSteady self.old }
        ensures steady { OnOk result (IsSteady self.new) }
        ensures takes { OnOk result (TakesLine (state_of self.old) number (tag_of line.now)
            (what_asks line.now) (W.contents writer.old) (W.contents writer.new)
            (state_of self.new)) }
    {
        match asked_of(self.alloc, line)? {
            LineRequest::Nothing => Ok(()),
            LineRequest::NoForm => self.take_no_form(writer, number),
            LineRequest::Echoes(words) => self.write_to_operator(writer, false, words),
            LineRequest::Figures => self.take_figures(writer, number),
            LineRequest::Operates(line) => self.take_operator(writer, line),
            LineRequest::Says(tag, name, rest) => match self.said.hear(name, rest)? {
                Some(item) => self.take_item(writer, tag, name, item),
                None => Ok(()),
            },
        }
    }

    /// Writes the number of a line that has no form.
    fn take_no_form<W: Sink>(&self, writer: &mut W, number: u64) -> Result<(), Trouble>
        ensures { OnOk result (Appends (W.contents writer.old) (W.contents writer.new)
            (tagged_text (codes "?") (decimal number))) }
    {
        let mut digits = Buffer::new();
        let digits = digits.format(number).as_bytes();
        Ok(write_at_once(self.alloc, writer, b"?", digits)?)
    }

    /// Writes how full the service is, to a line of that number.
    fn take_figures<W: Sink>(&self, writer: &mut W, number: u64) -> Result<(), Trouble>
        requires { IsSteady self.now }
        ensures { OnOk result (TellsFigures (stage_of self.now) number (W.contents writer.old)
            (W.contents writer.new)) }
    {
        let mut reply = MemorySink::new(self.alloc);
        push_figures(&mut reply, &self.core, &self.operator, number)?;
        self.write_to_operator(writer, true, reply.as_bytes())
    }

    /// Does what a line of the operator asks, and writes the reply.
    fn take_operator<W: Sink>(
        &mut self,
        writer: &mut W,
        line: OperatorLine<&[u8]>,
    ) -> Result<(), Trouble>
        requires { IsSteady self.old }
        ensures steady { OnOk result (IsSteady self.new) }
        ensures said { self.new.said ≡ self.old.said }
        ensures takes { OnOk result (TakesOperator (stage_of self.old) (named_operator line.entry)
            (W.contents writer.old) (W.contents writer.new) (stage_of self.new)) }
    {
        let is_open = is_open(&line);
        let line = self.lasting.line(line)?;
        let mut reply = MemorySink::new(self.alloc);
        self.operator.serve(&mut self.core, self.graph, &mut self.jobs, line, &mut reply)?;
        self.write_to_operator(writer, is_open, reply.as_bytes())
    }

    /// Writes a reply to the operator. If the number of its lines is open, a line with that number
    /// comes first.
    fn write_to_operator<W: Sink>(
        &self,
        writer: &mut W,
        is_open: bool,
        reply: &[u8],
    ) -> Result<(), Trouble>
        ensures { OnOk result (Appends (W.contents writer.old) (W.contents writer.new)
            (output_of (told_by is_open reply.now))) }
    {
        if is_open {
            self.write_count(writer, reply)?;
        }
        Ok(write_at_once(self.alloc, writer, b"op", reply)?)
    }

    /// Writes the number of lines of a reply.
    fn write_count<W: Sink>(&self, writer: &mut W, reply: &[u8]) -> Result<(), Trouble>
        ensures { OnOk result (Appends (W.contents writer.old) (W.contents writer.new)
            (tagged_text (codes "op") (count_text reply.now))) }
    {
        let mut digits = Buffer::new();
        let digits = digits.format(count_lines(reply)).as_bytes();
        let mut text = MemorySink::new(self.alloc);
        match write_slices(&mut text, &[b"lines ", digits]) {
            Ok(()) => Ok(write_at_once(self.alloc, writer, b"op", text.as_bytes())?),
            Err(_) => Err(Trouble::NoMemory),
        }
    }

    /// Serves an item of that name's session, and writes the reply.
    fn take_item<W: Sink>(
        &mut self,
        writer: &mut W,
        tag: &[u8],
        name: &[u8],
        item: SessionLine,
    ) -> Result<(), Trouble>
        requires steady { IsSteady self.old }
        ensures steady { OnOk result (IsSteady self.new) }
        ensures said { self.new.said ≡ self.old.said }
        ensures takes { OnOk result (TakesItem (stage_of self.old) tag.now name.now item
            (W.contents writer.old) (W.contents writer.new) (stage_of self.new)) }
    {
        let id = self.operator.last_id(name);
        let mut reply = MemorySink::new(self.alloc);
        match check_written(answer(&mut self.core, self.graph, id, item, &mut reply)) {
            Ok(()) => Ok(write_answer(self.alloc, writer, tag, reply.as_bytes())?),
            Err(error) => Err(Trouble::from(error)),
        }
    }

    /// Ends the input: answers `line 3 UnfinishedUpload` to each name whose text has no end, from
    /// the last name to the first. The core stays unchanged.
    ///
    /// # Errors
    /// `NoMemory` if it runs out of memory, and `Failed` if the writer fails.
    pub fn end<W: Sink>(&mut self, writer: &mut W) -> Result<(), Trouble>
        requires { IsSteady self.old }
        ensures { OnOk result (Ends (state_of self.old) (W.contents writer.old)
            (W.contents writer.new)) }
    {
        loop {
            match self.said.end_last() {
                LastName::Missing => return Ok(()),
                LastName::Finished => {}
                LastName::Unfinished(name) => refuse_text(self.alloc, writer, name)?,
            }
        }
    }

    /// Takes the service apart. Jobs that the operator holds are given back first, the last one
    /// first.
    pub fn into_parts(self) -> (Service, Operator<'static>, Said)
        ensures core { Run (stage_of self.entry).service (give_backs (stage_of self.entry).jobs)
            result.0 }
        ensures names { result.1 ≡ (stage_of self.entry).names }
        ensures texts { texts_of result.2 ≡ (state_of self.entry).texts }
        ensures even { IsSteady self.entry → IsEven result.2 }
    {
        let Live {
            alloc: _,
            graph: _,
            mut core,
            operator,
            jobs,
            lasting,
            said,
        } = self;
        jobs.give_back(&mut core);
        drop(lasting);
        (core, operator, said)
    }

    /// Ends the service. Jobs that the operator holds are given back first.
    pub fn close(self) {
        let Live {
            alloc: _,
            graph: _,
            mut core,
            operator,
            jobs,
            lasting,
            said,
        } = self;
        jobs.give_back(&mut core);
        drop((core, operator, lasting, said));
    }
}

/// Whether the number of lines of the reply is open.
fn is_open(line: &OperatorLine<&[u8]>) -> bool
    ensures { result ≡ is_open_line (named_operator line.now) }
{
    matches!(line, OperatorLine::List | OperatorLine::Step(..))
}

/// Whether the reply was written. It is not if memory ran out.
fn check_written(answered: (Answer, Result<(), Failed>)) -> Result<(), AllocError>
    ensures { is_ok result ≡ is_ok answered.1 }
{
    let (answer, written) = answered;
    drop(answer);
    match written {
        Ok(()) => Ok(()),
        Err(_) => Err(AllocError),
    }
}

/// Answers a name whose text has no end.
fn refuse_text<W: Sink>(alloc: Global, writer: &mut W, name: &[u8]) -> Result<(), Trouble>
    ensures { OnOk result (Appends (W.contents writer.old) (W.contents writer.new)
        (output_of (for_name name.now (session_refusal_text UnfinishedUpload) ∷ []))) }
{
    let mut tag = MemorySink::new(alloc);
    if write_slices(&mut tag, &[b"@", name]).is_err() {
        return Err(Trouble::NoMemory);
    }
    let mut reply = MemorySink::new(alloc);
    if write_session_refusal(&mut reply, SessionRefusal::UnfinishedUpload).is_err() {
        return Err(Trouble::NoMemory);
    }
    Ok(write_at_once(alloc, writer, tag.as_bytes(), reply.as_bytes())?)
}
