//! The lines of a log, served again, while workers make its steps.
ghost use Rattle.std.specs.Prelude.{◌≡◌, ◌≢◌, ◌+◌, ◌∷◌, [], ◌<◌, ◌^◌, false, IfErr, IfOk, OnErr, OnOk};
ghost use Rattle.live_threads.specs.Prelude.{is_ready, state_in, asked_of as what_asks, asks, without_workers, IsRetold, TellsPart, text_told, ahead_of, line_of, IsKept, kept_of};
ghost use Rattle.live_threads.specs.Replays.{HasReply, IsServable, PutsHeld, Replays, ServesLine, StopsLine, StopsReplay, moves_job, put_line};

mod jobs;

use crate::crew::Site;
use crate::outlet::Outlet;
use dialogue::{Dialogue, Replay};
use itoa::Buffer;
use line_feed::LineFeed;
use line_service::Answers;
use line_text::Source;
use live_input::LiveLines;
use live_lines::{LineRequest, asked_of};
use live_machine::{says_wait, workers_law};
use live_run::{Outcome, is_told};
use script_text::OperatorLine;
use std::alloc::{AllocError, AllocGlobal};
use std::mem;
use std::sync::Wait;

/// What a log leads to, beside the live service.
#[derive(Drop)]
pub(crate) struct Resumed {
    /// The number of the next line.
    pub(crate) next: u64,
    /// Lines that were served after those of the log, each with LF. They are to be kept.
    pub(crate) more: Vec<u8>,
}

/// A live service whose log is served again. Each running job's next step is handed to a worker at
/// once, and the line that makes it waits for it.
struct Replayed<'g, R> {
    site: Site<'g, R>,
    lines: LiveLines<'g>,
    /// The tenancies whose jobs are out with workers.
    out: Vec<u32>,
    /// How many jobs the operator has taken.
    taken: u32,
    /// The numbers of those that he holds.
    held: Vec<u32>,
    /// The number of the next line.
    next: u64,
}

/// Serves the lines of a log. The replies to those after the line `told` are written, the others
/// are dropped. Jobs that the operator holds afterwards are put, each by a line of its own: with
/// workers he can't put them. If it fails, the live service is closed.
pub(crate) fn replay<'g, P: Source + Drop, R: Wait + AllocGlobal, O: Outlet>(
    site: Site<'g, R>,
    lines: LiveLines<'g>,
    past: P,
    told: Option<u64>,
    outlet: &mut O,
) -> Result<(LiveLines<'g>, Resumed), Outcome>
    requires { is_ready lines }
    ensures ready { IfOk result (λ r. is_ready r.0) }
    ensures leads { IfOk result (λ r. Replays told (without_workers (state_in lines.entry))
        (P.remaining past) (O.view outlet.old) (without_workers (state_in r.0)) r.1.next
        r.1.more.items (O.view outlet.new)) }
    ensures none { IfErr result (λ outcome. outcome ≢ Outcome.Done) }
    ensures stops { OnErr result (StopsReplay told (without_workers (state_in lines.entry))
        (P.remaining past) (O.view outlet.old) (O.view outlet.new)) }
{
    let mut replayed = Replayed::new(site, lines);
    let served = replayed.serve_past(past, told, outlet);
    let (lines, next) = replayed.into_parts();
    match served {
        Ok(more) => Ok((lines, Resumed { next, more })),
        Err(outcome) => {
            lines.close();
            Err(outcome)
        }
    }
}

/// Writes the reply to the line of that number, if it is one of the later ones.
fn tell_reply<O: Outlet>(
    outlet: &mut O,
    told: Option<u64>,
    number: u64,
    reply: Vec<u8>,
) -> Result<(), Outcome>
    ensures told { OnOk result (IsRetold told (O.view outlet.old) (O.view outlet.new)
        (text_told told number reply.items)) }
    ensures none { IfErr result (λ outcome. outcome ≢ Outcome.Done) }
    ensures part { OnErr result (TellsPart told (O.view outlet.old) (O.view outlet.new)
        (text_told told number reply.items)) }
{
    if !is_told(told, number) {
        return Ok(());
    }
    match outlet.tell(reply.as_slice()) {
        Ok(()) => Ok(()),
        Err(device) => Err(Outcome::Stopped(device)),
    }
}

impl<'g, R: Wait + AllocGlobal> Replayed<'g, R> {
    /// A live service that has served no line of its log.
    fn new(site: Site<'g, R>, lines: LiveLines<'g>) -> Self
        ensures lines { result.lines ≡ lines.entry }
        ensures taken { result.taken ≡ 0 }
        ensures next { result.next ≡ 1 }
    {
        let alloc = site.rt.alloc();
        Replayed {
            site,
            lines,
            out: Vec::new(alloc),
            taken: 0,
            held: Vec::new(alloc),
            next: 1,
        }
    }

    /// The live service, and the number of the next line.
    fn into_parts(self) -> (LiveLines<'g>, u64)
        ensures lines { result.0 ≡ self.entry.lines }
        ensures next { result.1 ≡ self.entry.next }
    {
        let Replayed {
            site: _,
            lines,
            out,
            taken: _,
            held,
            next,
        } = self;
        drop((out, held));
        (lines, next)
    }

    /// Serves the lines of a log, and writes the replies to those after the line `told`. Returns
    /// lines that were served after them.
    fn serve_past<P: Source + Drop, O: Outlet>(
        &mut self,
        past: P,
        told: Option<u64>,
        outlet: &mut O,
    ) -> Result<Vec<u8>, Outcome>
        requires ready { is_ready self.old.lines }
        requires none { self.old.taken ≡ 0 }
        requires first { self.old.next ≡ 1 }
        ensures ready { OnOk result (is_ready self.new.lines) }
        ensures leads { IfOk result (λ more. Replays told (without_workers (state_in self.old.lines))
            (P.remaining past) (O.view outlet.old) (without_workers (state_in self.new.lines))
            self.new.next more.items (O.view outlet.new)) }
        ensures none { IfErr result (λ outcome. outcome ≢ Outcome.Done) }
        ensures stops { OnErr result (StopsReplay told (without_workers (state_in self.old.lines))
            (P.remaining past) (O.view outlet.old) (O.view outlet.new)) }
    {
        let mut source = Replay::new(past);
        match LineFeed::new(self.site.rt.alloc()) {
            Ok(mut feed) => self.serve_log(&mut feed, &mut source, told, outlet),
            Err(_) => Err(Outcome::NoMemory),
        }
    }

    /// Serves the lines of a dialogue up to its end, takes all jobs home, and puts those that the
    /// operator holds. Returns the lines that put them.
    fn serve_log<D: Dialogue, O: Outlet>(
        &mut self,
        feed: &mut LineFeed,
        source: &mut D,
        told: Option<u64>,
        outlet: &mut O,
    ) -> Result<Vec<u8>, Outcome>
        requires ready { is_ready self.old.lines }
        requires ahead { ahead_of feed.old ≡ [] }
        requires line { IsKept (line_of feed.old) [] }
        requires none { self.old.taken ≡ 0 }
        requires first { self.old.next ≡ 1 }
        ensures ready { OnOk result (is_ready self.new.lines) }
        ensures leads { IfOk result (λ more. Replays told (without_workers (state_in self.old.lines))
            (D.view source.old).remaining (O.view outlet.old) (without_workers (state_in self.new.lines))
            self.new.next more.items (O.view outlet.new)) }
        ensures none { IfErr result (λ outcome. outcome ≢ Outcome.Done) }
        ensures stops { OnErr result (StopsReplay told (without_workers (state_in self.old.lines))
            (D.view source.old).remaining (O.view outlet.old) (O.view outlet.new)) }
    {
        for _ in self.site.rt.forever() {
            if feed.take_piece() {
                self.serve(feed.line(), told, outlet)?;
                feed.begin_line();
                continue;
            }
            if feed.refill(source).is_err() {
                return Err(Outcome::LogUnreadable);
            }
            if feed.is_empty() {
                return self.finish();
            }
        }
        unreachable!()
    }

    /// Takes all jobs home, and puts those that the operator holds. Returns the lines that put
    /// them.
    fn finish(&mut self) -> Result<Vec<u8>, Outcome>
        requires { is_ready self.old.lines }
        ensures ready { OnOk result (is_ready self.new.lines) }
        ensures puts { IfOk result (λ more. PutsHeld (without_workers (state_in self.old.lines))
            self.old.next self.old.taken (without_workers (state_in self.new.lines))
            self.new.next more.items) }
        ensures none { IfErr result (λ outcome. outcome ≢ Outcome.Done) }
    {
        self.await_jobs();
        match self.put_held() {
            Ok(more) => Ok(more),
            Err(_) => Err(Outcome::NoMemory),
        }
    }

    /// Serves a line, cut to the bytes that are kept of it, and writes its reply if it is one of
    /// the later ones.
    fn serve<O: Outlet>(
        &mut self,
        line: &[u8],
        told: Option<u64>,
        outlet: &mut O,
    ) -> Result<(), Outcome>
        requires ready { is_ready self.old.lines }
        requires cut { kept_of line.now ≡ line.now }
        ensures ready { OnOk result (is_ready self.new.lines) }
        ensures serves { OnOk result (ServesLine told (without_workers (state_in self.old.lines))
            self.old.next self.old.taken line.now (O.view outlet.old)
            (without_workers (state_in self.new.lines)) self.new.next self.new.taken
            (O.view outlet.new)) }
        ensures none { IfErr result (λ outcome. outcome ≢ Outcome.Done) }
        ensures stops { OnErr result (StopsLine told (without_workers (state_in self.old.lines))
            self.old.next self.old.taken line.now (O.view outlet.old) (O.view outlet.new)) }
    {
        let number = self.next;
        if number == u64::MAX {
            return Err(Outcome::TooManyLines);
        }
        match self.answer(line) {
            Ok(reply) => tell_reply(outlet, told, number, reply),
            Err(_) => Err(Outcome::NoMemory),
        }
    }

    /// Answers a line, after the job that it may need has come home.
    fn answer(&mut self, line: &[u8]) -> Result<Vec<u8>, AllocError>
        requires ready { is_ready self.old.lines }
        requires cut { kept_of line.now ≡ line.now }
        requires next { self.old.next + 1 < 2 ^ 64 }
        ensures ready { OnOk result (is_ready self.new.lines) }
        ensures has_reply { IfOk result (λ reply.
            HasReply (without_workers (state_in self.old.lines)) self.old.next self.old.taken
            line.now reply.items (without_workers (state_in self.new.lines)) self.new.taken) }
        ensures next { OnOk result (self.new.next ≡ self.old.next + 1) }
    {
        workers_law();
        let asked = asked_of(self.site.rt.alloc(), line)?;
        self.await_needed(&asked, line);
        let reply = self.lines.answer(self.next, line)?;
        self.next += 1;
        let has_taken = reply.starts_with(b"op ok job ");
        match self.note(asked, has_taken) {
            Ok(()) => Ok(reply),
            Err(error) => {
                drop(reply);
                Err(error)
            }
        }
    }

    /// Waits until the job that a line may need is home.
    fn await_needed(&mut self, asked: &LineRequest<'_>, line: &[u8])
        requires ready { is_ready self.old.lines }
        requires asks { asks asked.now ≡ what_asks line.now }
        ensures ready { is_ready self.new.lines }
        ensures servable { self.old.taken ≡ 0 →
            IsServable (state_in self.new.lines) (what_asks line.now) line.now }
        ensures same { without_workers (state_in self.new.lines)
            ≡ without_workers (state_in self.old.lines) }
        ensures next { self.new.next ≡ self.old.next }
        ensures taken { self.new.taken ≡ self.old.taken }
    {
        match asked {
            LineRequest::Says(_, name, _) => {
                if says_wait(line) {
                    self.await_home(name);
                }
            }
            LineRequest::Operates(OperatorLine::Step(name, _) | OperatorLine::Take(name)) => {
                self.await_home(name);
            }
            LineRequest::Operates(_) | LineRequest::Echoes(_) => {}
            LineRequest::Nothing | LineRequest::NoForm | LineRequest::Figures => {}
        }
    }

    /// Notes which jobs the operator holds after a line, and has a worker make the next step of the
    /// job that the line may have made ready.
    fn note(&mut self, asked: LineRequest<'_>, has_taken: bool) -> Result<(), AllocError>
        requires ready { is_ready self.old.lines }
        ensures ready { OnOk result (is_ready self.new.lines) }
        ensures same { OnOk result (without_workers (state_in self.new.lines)
            ≡ without_workers (state_in self.old.lines)) }
        ensures next { self.new.next ≡ self.old.next }
        ensures taken { moves_job (asks asked.entry) ≡ false →
            OnOk result (self.new.taken ≡ self.old.taken) }
    {
        match asked {
            LineRequest::Operates(OperatorLine::Take(_)) => self.note_taken(has_taken),
            LineRequest::Operates(OperatorLine::Put(number)) => {
                self.held.retain(|held| *held != number);
                Ok(())
            }
            LineRequest::Says(_, name, _) | LineRequest::Operates(OperatorLine::Step(name, _)) => {
                self.order_step(name)
            }
            LineRequest::Operates(_) | LineRequest::Echoes(_) => Ok(()),
            LineRequest::Nothing | LineRequest::NoForm | LineRequest::Figures => Ok(()),
        }
    }

    /// Notes that the operator took a job, if he did.
    fn note_taken(&mut self, has_taken: bool) -> Result<(), AllocError>
        ensures lines { self.new.lines ≡ self.old.lines }
        ensures next { self.new.next ≡ self.old.next }
    {
        if !has_taken {
            return Ok(());
        }
        self.taken = self.taken.saturating_add(1);
        self.held.push(self.taken)?;
        Ok(())
    }

    /// Puts the jobs that the operator holds. Returns the lines that do so, each with LF. They are
    /// to be kept.
    fn put_held(&mut self) -> Result<Vec<u8>, AllocError>
        requires { is_ready self.old.lines }
        ensures ready { OnOk result (is_ready self.new.lines) }
        ensures puts { IfOk result (λ more. PutsHeld (without_workers (state_in self.old.lines))
            self.old.next self.old.taken (without_workers (state_in self.new.lines))
            self.new.next more.items) }
    {
        let alloc = self.site.rt.alloc();
        let mut more = Vec::new(alloc);
        if self.taken == 0 {
            return Ok(more);
        }
        let held = mem::replace(&mut self.held, Vec::new(alloc));
        for number in held {
            let line = self.put_job(number)?;
            more.extend_from_slice(line.as_slice())?;
        }
        Ok(more)
    }

    /// Puts the job of that number. Returns the line that does so, with LF.
    fn put_job(&mut self, number: u32) -> Result<Vec<u8>, AllocError>
        requires { is_ready self.old.lines }
        ensures ready { OnOk result (is_ready self.new.lines) }
        ensures line { IfOk result (λ line. line.items ≡ put_line number) }
    {
        if self.next == u64::MAX {
            return Err(AllocError);
        }
        let mut line = Vec::from_slice(self.site.rt.alloc(), b"op put ")?;
        line.extend_from_slice(Buffer::new().format(number).as_bytes())?;
        drop(self.lines.answer(self.next, line.as_slice())?);
        self.next += 1;
        line.push(b'\n')?;
        Ok(line)
    }
}
