//! A session on a thread of its own.
ghost use Rattle.std.specs.Prelude.{◌≡◌, IfSome, Some, true};
ghost use Rattle.std.specs.Io.KnownBytes.{prepend_known};
ghost use Rattle.session_threads.specs.Prelude.{Writes, Wait};
ghost use Rattle.session_threads.specs.Outcomes.{IsItem, is_item};
ghost use Rattle.session_threads.specs.Told.{AnswersCommand, AnswersItem, NotesBy};
ghost use Rattle.session_threads.specs.WholeSession.{EndsInput, EndsReading, Finishes, IsSession, KeepsNoneAhead, Serves, ServesLine, TellsItem, Turns, WholeSession, Wrote, new_transcript};

use crate::context::Context;
use crate::items::{ItemReader, LineOutcome};
use crate::line::Line;
use crate::lines::{LineEnd, LineReader};
use crate::told::{last_place, write_told};
use crate::waiting::wait_turn;
use job_queue::{Pass, Ready};
use line_text::{Failed, Sink, Source};
use sessions::SessionLine;
use shared_core::{Begun, Lease, Shared};
use std::alloc::{AllocGlobal, Global};
use std::sync::Wait;
use std::sync::ledger::Ledger;
use tenant_slot::{Command, Reply, StateName};
use transcripts::{ItemAnswer, SessionEnd, Transcript};

/// Runs a session: reads its input, asks the core what each item asks, and writes the answers. The
/// transcript has the answer to each item, in order, or counts it if it ran out of memory. The
/// answers were written, or a beginning of them if the writer failed, and they answer what the
/// input asks. A command whose reply couldn't be written keeps its receipt.
pub fn run_session<C: Begun, P: Ledger, S: Source, W: Sink, R: Wait + AllocGlobal>(
    context: Context<'_, R, C, P>,
    pass: Pass,
    lease: Lease<C>,
    reader: &mut S,
    writer: &mut W,
) -> Transcript<C>
    requires of { pass.of ≡ context.ready.now }
    requires new { lease.made ≡ 0 }
    ensures session { IsSession lease.id (S.remaining reader.old) (S.remaining reader.new)
        (λ text end. Wrote W.contents W.has_failed writer.old writer.new text end) result }
    ensures reader { IfSome result.end (λ end.
        EndsReading (S.remaining reader.new) (S.has_failed reader.new) end) }
{
    let mut session = Session::new(context.rt.alloc(), pass, lease);
    let end = session.read_all(context, reader, writer);
    session.end(context.rt, context.shared, context.ready, end)
}

/// A session: the right to push to the ready queue, and its transcript.
#[derive(Drop)]
pub struct Session<C: Begun> {
    pass: Pass,
    transcript: Transcript<C>,
}

impl<C: Begun> Session<C> {
    /// A session of that lease, which has made no entry yet.
    pub fn new(alloc: Global, pass: Pass, lease: Lease<C>) -> Self
        requires { lease.made ≡ 0 }
        ensures pass { result.pass ≡ pass }
        ensures transcript { result.transcript ≡ new_transcript lease.id }
    {
        Session {
            pass,
            transcript: Transcript::new(alloc, lease),
        }
    }

    /// Ends the session so. A number that was given up is pushed first.
    pub fn end<P: Ledger, R: Wait>(
        self,
        rt: &R,
        shared: &Shared<C, P>,
        ready: &Ready,
        end: SessionEnd,
    ) -> Transcript<C>
        requires { self.pass.of ≡ ready.now }
        ensures { result ≡ record self.transcript { end = Some end } }
    {
        let mut session = self;
        session.push_ready(rt, shared, ready);
        let Session {
            pass: _,
            mut transcript,
        } = session;
        transcript.finish(end);
        transcript
    }

    /// Serves the items of an input.
    fn read_all<P: Ledger, S: Source, W: Sink, R: Wait + AllocGlobal>(
        &mut self,
        context: Context<'_, R, C, P>,
        reader: &mut S,
        writer: &mut W,
    ) -> SessionEnd
        requires { self.old.pass.of ≡ context.ready.now }
        ensures of { self.new.pass.of ≡ self.old.pass.of }
        ensures session { WholeSession self.old.transcript.id (S.remaining reader.old)
            (S.remaining reader.new)
            (λ text end. Wrote W.contents W.has_failed writer.old writer.new text end)
            self.old.transcript result self.new.transcript }
        ensures reader { EndsReading (S.remaining reader.new) (S.has_failed reader.new) result }
    {
        let alloc = context.rt.alloc();
        let mut lines = LineReader::new(alloc);
        let mut items = ItemReader::new(alloc);
        for _ in context.rt.forever() {
            let turn = self.turn(context, &mut lines, &mut items, reader, writer);
            if let Some(end) = turn {
                return end;
            }
        }
        unreachable!()
    }

    /// Reads a line and serves it. Returns how the session ended, if it did.
    fn turn<P: Ledger, S: Source, W: Sink, R: Wait>(
        &mut self,
        context: Context<'_, R, C, P>,
        lines: &mut LineReader,
        items: &mut ItemReader,
        reader: &mut S,
        writer: &mut W,
    ) -> Option<SessionEnd>
        requires { self.old.pass.of ≡ context.ready.now }
        ensures of { self.new.pass.of ≡ self.old.pass.of }
        ensures turn { Turns self.old.transcript.id
            (prepend_known lines.old.input (S.remaining reader.old))
            (prepend_known lines.new.input (S.remaining reader.new))
            items.old.within items.new.within (λ text end.
            Wrote W.contents W.has_failed writer.old writer.new text end) self.old.transcript result
            self.new.transcript }
        ensures ahead { IfSome result (λ end. KeepsNoneAhead end lines.new.input) }
        ensures reader { IfSome result (λ end.
            EndsReading (S.remaining reader.new) (S.has_failed reader.new) end) }
    {
        let Ok(end) = lines.read_line(context.rt, reader) else {
            return Some(SessionEnd::ReaderFailed);
        };
        let line = &lines.line;
        match end {
            LineEnd::Input => Some(self.end_input(context, line, items, writer)),
            LineEnd::LineFeed => match self.serve_line(context, line, items, writer) {
                Ok(()) => None,
                Err(_) => Some(SessionEnd::WriterFailed),
            },
        }
    }

    /// Serves a line: takes it into the items, and answers the item that ends with it, if any.
    fn serve_line<P: Ledger, W: Sink, R: Wait>(
        &mut self,
        context: Context<'_, R, C, P>,
        line: &Line,
        items: &mut ItemReader,
        writer: &mut W,
    ) -> Result<(), Failed>
        requires { self.old.pass.of ≡ context.ready.now }
        ensures of { self.new.pass.of ≡ self.old.pass.of }
        ensures told { ServesLine self.old.transcript.id items.old.within items.new.within line.now
            (λ text. Writes W.contents W.has_failed writer.old writer.new text result)
            self.old.transcript self.new.transcript }
    {
        let outcome = items.take_line(line);
        self.serve(context.rt, context.shared, context.ready, outcome, writer)
    }

    /// Serves the last line, if it has bytes, and the item at the input's end.
    fn end_input<P: Ledger, W: Sink, R: Wait>(
        &mut self,
        context: Context<'_, R, C, P>,
        line: &Line,
        items: &mut ItemReader,
        writer: &mut W,
    ) -> SessionEnd
        requires { self.old.pass.of ≡ context.ready.now }
        ensures of { self.new.pass.of ≡ self.old.pass.of }
        ensures told { EndsInput self.old.transcript.id items.old.within line.now
            (λ text end. Wrote W.contents W.has_failed writer.old writer.new text end)
            self.old.transcript result self.new.transcript }
    {
        if line.is_empty() {
            return self.finish(context, items, writer);
        }
        match self.serve_line(context, line, items, writer) {
            Ok(()) => self.finish(context, items, writer),
            Err(_) => SessionEnd::WriterFailed,
        }
    }

    /// Serves the item at the input's end, if there is one.
    fn finish<P: Ledger, W: Sink, R: Wait>(
        &mut self,
        context: Context<'_, R, C, P>,
        items: &ItemReader,
        writer: &mut W,
    ) -> SessionEnd
        requires { self.old.pass.of ≡ context.ready.now }
        ensures of { self.new.pass.of ≡ self.old.pass.of }
        ensures told { Finishes self.old.transcript.id
            items.now.within (λ text end.
            Wrote W.contents W.has_failed writer.old writer.new text end) self.old.transcript result
            self.new.transcript }
    {
        match items.finish() {
            Some(item) => match self.answer(
                context.rt,
                context.shared,
                context.ready,
                item,
                writer,
            ) {
                Ok(()) => SessionEnd::Ended,
                Err(_) => SessionEnd::WriterFailed,
            },
            None => SessionEnd::Ended,
        }
    }

    /// Serves the outcome of a line, and writes the answer.
    pub fn serve<P: Ledger, W: Sink, R: Wait>(
        &mut self,
        rt: &R,
        shared: &Shared<C, P>,
        ready: &Ready,
        outcome: LineOutcome,
        writer: &mut W,
    ) -> Result<(), Failed>
        requires of { self.old.pass.of ≡ ready.now }
        requires item { IsItem outcome }
        ensures of { self.new.pass.of ≡ self.old.pass.of }
        ensures told { Serves self.old.transcript.id outcome
            (λ text. Writes W.contents W.has_failed writer.old writer.new text result)
            self.old.transcript self.new.transcript }
    {
        match outcome {
            LineOutcome::Nothing => Ok(()),
            LineOutcome::Item(item) => self.answer(rt, shared, ready, item, writer),
            LineOutcome::NoMemory => {
                self.push_ready(rt, shared, ready);
                self.transcript.count_no_memory();
                write_told(writer, None)
            }
        }
    }

    /// Answers an item, and writes the answer. A number that was given up is pushed first.
    fn answer<P: Ledger, W: Sink, R: Wait>(
        &mut self,
        rt: &R,
        shared: &Shared<C, P>,
        ready: &Ready,
        item: SessionLine,
        writer: &mut W,
    ) -> Result<(), Failed>
        requires of { self.old.pass.of ≡ ready.now }
        requires item { is_item item ≡ true }
        ensures of { self.new.pass.of ≡ self.old.pass.of }
        ensures told { TellsItem self.old.transcript.id item
            (λ text. Writes W.contents W.has_failed writer.old writer.new text result)
            self.old.transcript self.new.transcript }
    {
        self.push_ready(rt, shared, ready);
        if self.note(rt, shared, ready, item) {
            write_told(writer, last_place(self.transcript.items()))
        } else {
            write_told(writer, None)
        }
    }

    /// Answers an item, and notes the answer. Returns whether it has one; if not it ran out of
    /// memory.
    fn note<P: Ledger, R: Wait>(
        &mut self,
        rt: &R,
        shared: &Shared<C, P>,
        ready: &Ready,
        item: SessionLine,
    ) -> bool
        requires of { self.old.pass.of ≡ ready.now }
        requires item { is_item item ≡ true }
        ensures of { self.new.pass.of ≡ self.old.pass.of }
        ensures noted { NotesBy (AnswersItem self.old.transcript.id item) self.old.transcript result
            self.new.transcript }
    {
        match item {
            SessionLine::Blank => unreachable!(),
            SessionLine::Refused(refusal) => self.transcript.refuse(refusal),
            SessionLine::Command(command) => self.ask(rt, shared, ready, command),
            SessionLine::Wait => self.wait(rt, shared),
        }
    }

    /// Asks the core a command. If it began a job, the slot's number is marked and pushed.
    fn ask<P: Ledger, R: Wait>(
        &mut self,
        rt: &R,
        shared: &Shared<C, P>,
        ready: &Ready,
        command: Command,
    ) -> bool
        requires { self.old.pass.of ≡ ready.now }
        ensures of { self.new.pass.of ≡ self.old.pass.of }
        ensures noted { NotesBy (AnswersCommand self.old.transcript.id command) self.old.transcript
            result self.new.transcript }
    {
        let has_place = self.transcript.enter(&mut *shared.core.lock(rt), command);
        if has_place && self.began_job() {
            self.push_ready(rt, shared, ready);
        }
        has_place
    }

    /// Whether the last item's command began a job.
    fn began_job(&self) -> bool {
        match last_place(self.transcript.items()) {
            Some(ItemAnswer::Receipt(receipt)) => begins_job(receipt.reply()),
            _ => false,
        }
    }

    /// Marks and pushes the slot's number, if there is a step to take whose number is nobody's. If
    /// the queue refuses the number it is nobody's again, until the session's next item.
    fn push_ready<P: Ledger, R: Wait>(&mut self, rt: &R, shared: &Shared<C, P>, ready: &Ready)
        requires { self.old.pass.of ≡ ready.now }
        ensures of { self.new.pass.of ≡ self.old.pass.of }
        ensures transcript { self.new.transcript ≡ self.old.transcript }
    {
        let marked = shared.core.lock(rt).mark_ready(self.transcript.id());
        let Some(slot) = marked else {
            return;
        };
        if ready.push(rt, &mut self.pass, slot).is_err() {
            let _holder = shared.core.lock(rt).unmark_number(slot);
            shared.changed.notify_all();
        }
    }

    /// Waits until no step of the tenancy will follow, and asks the core its status in that turn
    /// under the lock. Returns whether the wait has an answer in the transcript. It has none if
    /// memory ran out for the answer, or if nobody has the number of a step that is left because
    /// memory ran out.
    fn wait<P: Ledger, R: Wait>(&mut self, rt: &R, shared: &Shared<C, P>) -> bool
        ensures of { self.new.pass.of ≡ self.old.pass.of }
        ensures noted { NotesBy (AnswersItem self.old.transcript.id Wait) self.old.transcript result
            self.new.transcript }
    {
        for _ in rt.forever() {
            let mut core = shared.core.lock(rt);
            match wait_turn(&mut *core, &mut self.transcript) {
                Some(has_place) => return has_place,
                None => drop(shared.changed.wait(rt, core)),
            }
        }
        unreachable!()
    }
}

/// Whether a reply reports that a job began.
fn begins_job(reply: &Reply) -> bool {
    matches!(
        reply,
        Reply::Accepted(StateName::Packing | StateName::Placing | StateName::Routing)
    )
}
