//! Serves lines, and gathers what is to be kept and what is to be told.
ghost use Rattle.std.specs.Prelude.{◌≡◌, ◌<◌, ◌+◌, ◌^◌, ◌++◌, [], false, true, List, ℕ, length, IfOk, OnOk};
ghost use Rattle.std.specs.List.{AllByRecursion, repeat};
ghost use Rattle.live_machine.specs.Prelude.{physical_lines, Step, is_name, IsGivenBack, last_id, with_feed, asked_of, Operates, AnswersLine, ClosesTexts, is_ready, state_in};
ghost use Rattle.live_machine.specs.Held.{Held, IsSaidBy};
ghost use Rattle.live_machine.specs.Machine.{IsLine, Serves, ServesAll, ServesNobodys, ServesSaid, TellsLost, is_busy, is_by_hand, must_wait};
ghost use Rattle.live_machine.specs.Parts.{PutsIf, TellsLostItems, state_with};
ghost use Rattle.live_machine.specs.Workers.{NeedNotWait, without_workers};

use crate::made_lines::{formless_line, is_nomemory, lost_text, says_wait, status_line, step_line};
use crate::running::has_job;
use crate::stop::Stop;
use job_state::{AnyJob, Back};
use line_service::Answers;
use line_text::split_line;
use live_input::LiveLines;
use std::alloc::{AllocError, Global};
use std::mem;
use tagged_lines::split_tag;

/// Serves lines, and gathers what is to be kept and what is to be told.
pub(crate) struct LineServer<'g> {
    alloc: Global,
    lines: LiveLines<'g>,
    next: u64,
    log: Vec<u8>,
    told: Vec<u8>,
}

impl<'g> LineServer<'g> {
    /// Serves the lines of that live service, the next one of which has that number.
    pub(crate) fn new(alloc: Global, lines: LiveLines<'g>, next: u64) -> Self
        ensures lines { result.lines ≡ lines.entry }
        ensures next { result.next ≡ next }
        ensures log { result.log.items ≡ [] }
        ensures told { result.told.items ≡ [] }
    {
        LineServer {
            alloc,
            lines,
            next,
            log: Vec::new(alloc),
            told: Vec::new(alloc),
        }
    }

    /// The live service.
    pub(crate) fn lines(&self) -> &LiveLines<'g>
        ensures { result.now ≡ self.now.lines }
    {
        &self.lines
    }

    /// The number of bytes that are to be kept.
    pub(crate) fn to_keep(&self) -> usize
        ensures { result ≡ length self.now.log.items }
    {
        self.log.len()
    }

    /// The number of bytes that are to be told.
    pub(crate) fn to_tell(&self) -> usize
        ensures { result ≡ length self.now.told.items }
    {
        self.told.len()
    }

    /// Answers a line and keeps it. Returns the reply.
    fn answer(&mut self, line: &[u8]) -> Result<Vec<u8>, Stop>
        requires short { length line.now < 2 ^ 63 }
        requires ready { is_ready self.old.lines }
        ensures ready { OnOk result (is_ready self.new.lines) }
        ensures answers { IfOk result (λ reply. AnswersLine (state_in self.old.lines) self.old.next
            line.now reply.items (state_in self.new.lines)) }
        ensures next { OnOk result (self.new.next ≡ self.old.next + 1) }
        ensures log { OnOk result (self.new.log.items ≡ self.old.log.items ++ with_feed line.now) }
        ensures told { self.new.told ≡ self.old.told }
    {
        if self.next == u64::MAX {
            return Err(Stop::TooManyLines);
        }
        self.log.reserve(line.len() + 1)?;
        let reply = self.lines.answer(self.next, line)?;
        push_line(&mut self.log, line)?;
        self.next += 1;
        Ok(reply)
    }

    /// Serves a line.
    pub(crate) fn serve(&mut self, line: &[u8]) -> Result<(), Stop>
        requires is_line { IsLine line.now }
        requires hand { is_by_hand (asked_of line.now) ≡ false }
        requires wait { NeedNotWait (without_workers (state_in self.old.lines)) (asked_of line.now) line.now }
        requires ready { is_ready self.old.lines }
        ensures ready { OnOk result (is_ready self.new.lines) }
        ensures serves { OnOk result ((held : List Held) →
            Serves (state_with self.old held) line.now (state_with self.new held)) }
    {
        let reply = self.answer(line)?;
        self.told.extend_from_slice(reply.as_slice())?;
        Ok(())
    }

    /// Whether a job of that name's tenancy runs, wherever its next step is.
    pub(crate) fn is_busy(&self, name: &[u8]) -> bool
        ensures { result
            ≡ is_busy (without_workers (state_in self.now.lines)) name.now }
    {
        let live = self.lines.live();
        has_job(live.service(), live.names().last_id(name))
    }

    /// Whether the next step of that name's job can be taken now.
    pub(crate) fn has_step(&self, name: &[u8]) -> bool
        ensures { result ≡ is_busy (state_in self.now.lines) name.now }
    {
        let live = self.lines.live();
        live.service().has_step(live.names().last_id(name))
    }

    /// The last id that the name was given, or 0.
    pub(crate) fn last_id(&self, name: &[u8]) -> u32
        ensures { result ≡ last_id (state_in self.now.lines).stage.names name.now }
    {
        self.lines.live().names().last_id(name)
    }

    /// Whether that line of a name is a `wait` that can't be answered yet.
    pub(crate) fn must_wait(&self, name: &[u8], line: &[u8]) -> bool
        requires { is_ready self.now.lines }
        ensures { result ≡ must_wait (without_workers (state_in self.now.lines)) name.now line.now }
    {
        !self.lines.live().is_in_text(name) && says_wait(line) && self.is_busy(name)
    }

    /// Serves a line of a name; or, if it is a `wait` that can't be answered yet, a line that says
    /// `status`.
    pub(crate) fn serve_said(&mut self, name: &[u8], line: &[u8]) -> Result<(), Stop>
        requires said { IsSaidBy name.now line.now }
        requires ready { is_ready self.old.lines }
        ensures ready { OnOk result (is_ready self.new.lines) }
        ensures serves { OnOk result ((held : List Held) →
            ServesSaid (must_wait (without_workers (state_in self.old.lines)) name.now line.now)
            name.now line.now (state_with self.old held) (state_with self.new held)) }
    {
        if self.must_wait(name, line) {
            return self.serve_status(name, line);
        }
        self.serve(line)
    }

    /// Serves a line that says `status`, in the place of a line of that name, with its tag.
    fn serve_status(&mut self, name: &[u8], line: &[u8]) -> Result<(), Stop>
        requires said { IsSaidBy name.now line.now }
        requires ready { is_ready self.old.lines }
        ensures ready { OnOk result (is_ready self.new.lines) }
        ensures serves { OnOk result ((held : List Held) → ServesSaid true name.now line.now
            (state_with self.old held) (state_with self.new held)) }
    {
        let (tag, _) = split_tag(line);
        let status = status_line(self.alloc, tag)?;
        self.serve(status.as_slice())
    }

    /// Serves lines of a name, each ended by LF.
    pub(crate) fn serve_lines(&mut self, name: &[u8], lines: &[u8]) -> Result<(), Stop>
        requires said { AllByRecursion (IsSaidBy name.now) (physical_lines lines.now) }
        requires ready { is_ready self.old.lines }
        ensures ready { OnOk result (is_ready self.new.lines) }
        ensures serves { OnOk result ((held : List Held) →
            ServesAll name.now (physical_lines lines.now) (state_with self.old held)
            (state_with self.new held)) }
    {
        let mut rest = lines;
        while !rest.is_empty() {
            let (line, after) = split_line(rest);
            self.serve_said(name, line)?;
            rest = after;
        }
        Ok(())
    }

    /// Tells a name that memory ran out for an item.
    pub(crate) fn tell_lost(&mut self, name: &[u8]) -> Result<(), Stop>
        ensures lines { self.new.lines ≡ self.old.lines }
        ensures tells { OnOk result ((held : List Held) →
            TellsLost (state_with self.old held) name.now (state_with self.new held)) }
    {
        self.tell_lost_items(name, 1)
    }

    /// Answers that many items of a name: memory ran out for them.
    pub(crate) fn tell_lost_items(&mut self, name: &[u8], count: u64) -> Result<(), Stop>
        ensures lines { self.new.lines ≡ self.old.lines }
        ensures tells { OnOk result ((held : List Held) →
            TellsLostItems count (state_with self.old held) name.now (state_with self.new held)) }
    {
        let text = lost_text(self.alloc, name)?;
        push_times(&mut self.told, text.as_slice(), count)?;
        Ok(())
    }

    /// Serves a line without a form in the place of one that makes steps by hand.
    pub(crate) fn serve_formless(&mut self, line: &[u8]) -> Result<(), Stop>
        requires line { IsLine line.now }
        requires ready { is_ready self.old.lines }
        ensures ready { OnOk result (is_ready self.new.lines) }
        ensures serves { OnOk result ((held : List Held) →
            ServesNobodys true line.now (state_with self.old held)
            (state_with self.new held)) }
    {
        let formless = formless_line(self.alloc, line)?;
        self.serve(formless.as_slice())
    }

    /// Serves the line that makes one step of that name's job, which a worker made. Nobody is told.
    /// Returns whether memory sufficed; without it nothing changes.
    pub(crate) fn serve_step(&mut self, name: &[u8]) -> Result<bool, Stop>
        requires busy { is_busy (state_in self.old.lines) name.now ≡ true }
        requires ready { is_ready self.old.lines }
        ensures ready { OnOk result (is_ready self.new.lines) }
        ensures puts { IfOk result (λ is_made. (held : List Held) →
            PutsIf is_made name.now (state_with self.old held)
            (state_with self.new held)) }
    {
        match step_line(self.alloc, name)? {
            Some(line) => self.serve_step_line(name, line.as_slice()),
            None => Err(Stop::BadName),
        }
    }

    fn serve_step_line(&mut self, name: &[u8], line: &[u8]) -> Result<bool, Stop>
        requires busy { is_busy (state_in self.old.lines) name.now ≡ true }
        requires is_line { IsLine line.now }
        requires asks { asked_of line.now ≡ Operates (Step name.now 1) }
        requires ready { is_ready self.old.lines }
        ensures ready { OnOk result (is_ready self.new.lines) }
        ensures puts { IfOk result (λ is_made. (held : List Held) →
            PutsIf is_made name.now (state_with self.old held)
            (state_with self.new held)) }
    {
        if self.next == u64::MAX {
            return Err(Stop::TooManyLines);
        }
        self.log.reserve(line.len() + 1)?;
        let reply = self.lines.answer(self.next, line)?;
        if is_nomemory(reply.as_slice()) {
            return Ok(false);
        }
        push_line(&mut self.log, line)?;
        self.next += 1;
        Ok(true)
    }

    /// Takes the next step of that tenancy's job, if there is one to take. For all others nothing
    /// changes.
    pub(crate) fn take_job(&mut self, id: u32) -> Option<AnyJob>
        requires ready { is_ready self.old.lines }
        ensures ready { is_ready self.new.lines }
        ensures same { (held : List Held) → state_with self.new held ≡ state_with self.old held }
    {
        self.lines.take_job(id)
    }

    /// Gives a job back that was taken. For all others nothing changes.
    pub(crate) fn give_back(&mut self, back: Back)
        requires ready { is_ready self.old.lines }
        ensures ready { is_ready self.new.lines }
        ensures same { (held : List Held) → state_with self.new held ≡ state_with self.old held }
        ensures given { IsGivenBack (state_in self.old.lines).stage.service back
            (state_in self.new.lines).stage.service }
        ensures names { (state_in self.new.lines).stage.names
            ≡ (state_in self.old.lines).stage.names }
    {
        self.lines.give_back(back);
    }

    /// Ends the live service, and returns that text and the replies to texts that have no end.
    pub(crate) fn end(self, text: Vec<u8>) -> Result<Vec<u8>, Stop>
        requires { is_ready self.lines }
        ensures { IfOk result (λ reply. (closes : List ℕ)
            × (reply.items ≡ text.items ++ closes)
            × ClosesTexts (state_in self.entry.lines) closes) }
    {
        let LineServer {
            alloc: _,
            mut lines,
            next: _,
            log,
            told,
        } = self;
        drop((log, told));
        let closed = lines.end();
        lines.close();
        let closed = closed?;
        let mut text = text;
        text.extend_from_slice(closed.as_slice())?;
        Ok(text)
    }

    /// Ends the live service.
    pub(crate) fn close(self) {
        let LineServer {
            alloc: _,
            lines,
            next: _,
            log,
            told,
        } = self;
        drop((log, told));
        lines.close();
    }

    /// Takes what is to be kept, and what is to be told.
    pub(crate) fn drain(&mut self) -> (Vec<u8>, Vec<u8>)
        ensures lines { self.new.lines ≡ self.old.lines }
        ensures next { self.new.next ≡ self.old.next }
        ensures log { (result.0.items ≡ self.old.log.items) × (self.new.log.items ≡ []) }
        ensures told { (result.1.items ≡ self.old.told.items) × (self.new.told.items ≡ []) }
    {
        let log = mem::replace(&mut self.log, Vec::new(self.alloc));
        let told = mem::replace(&mut self.told, Vec::new(self.alloc));
        (log, told)
    }
}

/// Adds a line with LF.
fn push_line(text: &mut Vec<u8>, line: &[u8]) -> Result<(), AllocError>
    ensures { OnOk result (text.new.items ≡ text.old.items ++ with_feed line.now) }
{
    text.extend_from_slice(line)?;
    text.push(b'\n')?;
    Ok(())
}

/// Adds a text that many times.
fn push_times(told: &mut Vec<u8>, text: &[u8], count: u64) -> Result<(), AllocError>
    ensures { OnOk result (told.new.items ≡ told.old.items ++ repeat count text.now) }
{
    match text.len().checked_mul(count as usize) {
        Some(len) => told.reserve(len)?,
        None => return Err(AllocError),
    }
    for _ in 0..count {
        told.extend_from_slice(text)?;
    }
    Ok(())
}
