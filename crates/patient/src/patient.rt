//! A script that is served until memory suffices for each of its lines.
ghost use Rattle.std.specs.Prelude.{◌+◌, ◌<◌, ◌^◌, length};

use crate::again::{TIMES, same_line};
use crate::held::{Held, give_back, put, take};
use crate::section::{Section, Sections};
use crate::start::{Start, make_start, script_of};
use itoa::Buffer;
use line_text::{MemorySink, write_slices};
use operator::{HeldJobs, Operator};
use script_text::{Act, OperatorLine, Script, cut_text};
use service_core::{NotServed, Service};
use sessions::{Answer, SessionLine, answer};
use std::alloc::Global;
use std::mem::replace;
use strips::DeviceGraph;

/// The contents of the script's sections at the end, if each of its lines was served in the end.
pub(crate) fn told_by(alloc: Global, script: &[u8]) -> Option<Vec<u8>>
    requires { length script.now < 2 ^ 32 }
{
    let cut = cut_text(script, 1)?;
    let start = make_start(alloc, cut.ahead)?;
    told_on(alloc, start, cut.rest, cut.number)
}

/// The contents of the script's sections at the end, on a given device.
fn told_on(alloc: Global, start: Start, text: &[u8], number: usize) -> Option<Vec<u8>>
    requires { number + length text.now < 2 ^ 64 }
{
    let Start { graph, core } = start;
    let mut patient = Patient {
        alloc,
        graph: &graph,
        core,
        operator: Operator::new(alloc),
    };
    let told = patient.section_text(text, number);
    drop(patient);
    drop(graph);
    told
}

/// A service whose calls are repeated.
#[derive(Drop)]
struct Patient<'t, 'g> {
    alloc: Global,
    graph: &'g DeviceGraph,
    core: Service,
    operator: Operator<'t>,
}

impl<'t> Patient<'t, '_> {
    /// The contents of a script's sections at the end.
    fn section_text(&mut self, text: &'t [u8], number: usize) -> Option<Vec<u8>>
        requires { number + length text.now < 2 ^ 64 }
    {
        let mut sections = Sections::new(self.alloc)?;
        let whole = match self.serve(text, number, &mut sections) {
            Some(()) => sections.whole_text(),
            None => None,
        };
        drop(sections);
        whole
    }

    /// Serves a script, and gives back a job that is held at its end.
    fn serve(&mut self, text: &'t [u8], number: usize, sections: &mut Sections<'t>) -> Option<()>
        requires { number + length text.now < 2 ^ 64 }
    {
        let script = script_of(self.alloc, text, number)?;
        let mut held = None;
        let is_served = self.serve_all(script, &mut held, sections);
        give_back(&mut self.core, held);
        is_served
    }

    /// Serves the lines of a script.
    fn serve_all(
        &mut self,
        script: Script<'t>,
        held: &mut Option<Held>,
        sections: &mut Sections<'t>,
    ) -> Option<()> {
        for act in script.into_acts() {
            match act {
                Act::Operator(line) => self.operate(line, held, sections)?,
                Act::Session(name, line) => self.answer(name, line, sections)?,
            }
        }
        Some(())
    }

    /// Answers a line of that name's session.
    fn answer(
        &mut self,
        name: &'t [u8],
        line: SessionLine,
        sections: &mut Sections<'t>,
    ) -> Option<()> {
        let id = self.operator.last_id(name);
        let section = sections.of(name)?;
        for _ in 0..TIMES {
            let start = section.bytes.len();
            let Ok(same) = same_line(&line) else {
                continue;
            };
            let (answer, written) = answer(&mut self.core, self.graph, id, same, section);
            let lacks_memory = matches!(&answer, Answer::Served(Err(NotServed::NoMemory)));
            drop(answer);
            if !lacks_memory {
                return written.ok();
            }
            section.bytes.truncate(start);
        }
        None
    }

    /// Executes a line of the operator.
    fn operate(
        &mut self,
        line: OperatorLine<&'t [u8]>,
        held: &mut Option<Held>,
        sections: &mut Sections<'t>,
    ) -> Option<()> {
        let section = sections.of(b"op")?;
        match line {
            OperatorLine::Step(name, count) => self.step(name, count, section),
            OperatorLine::Take(name) => self.take_job(name, held, section),
            OperatorLine::Put(_) => self.put_job(held, section),
            OperatorLine::Evict(name) => self.evict(name, section),
            OperatorLine::Admit(name, width) => self.admit(name, width, section),
            OperatorLine::Owners => self.tell_owners(section),
            OperatorLine::Move(..) | OperatorLine::List => None,
        }
    }

    /// Makes `count` steps of a tenancy's job, and writes the outcome of each.
    fn step(&mut self, name: &[u8], count: u32, section: &mut Section<'t>) -> Option<()> {
        let id = self.operator.last_id(name);
        for _ in 0..count {
            let word = self.step_outcome(id)?;
            write_slices(section, &[word, b"\n"]).ok()?;
        }
        Some(())
    }

    /// The outcome of the next step of that tenancy's job.
    fn step_outcome(&mut self, id: u32) -> Option<&'static [u8]> {
        match take(&mut self.core, id) {
            Some(taken) => put(&mut self.core, self.graph, taken),
            None => Some(b"none"),
        }
    }

    /// Takes a tenancy's job to be held, in place of the one that is held.
    fn take_job(
        &mut self,
        name: &[u8],
        held: &mut Option<Held>,
        section: &mut Section<'t>,
    ) -> Option<()> {
        let taken = take(&mut self.core, self.operator.last_id(name));
        give_back(&mut self.core, replace(held, taken));
        write_slices(section, &[b"ok job 1\n"]).ok()
    }

    /// Steps the held job, puts it, and writes the outcome.
    fn put_job(&mut self, held: &mut Option<Held>, section: &mut Section<'t>) -> Option<()> {
        let word = put(&mut self.core, self.graph, held.take()?)?;
        write_slices(section, &[word, b"\n"]).ok()
    }

    /// Evicts a tenancy.
    fn evict(&mut self, name: &[u8], section: &mut Section<'t>) -> Option<()> {
        self.core.evict(self.operator.last_id(name)).ok()?;
        write_slices(section, &[b"ok\n"]).ok()
    }

    /// Admits a tenancy, and writes its id and its offset.
    fn admit(&mut self, name: &'t [u8], width: u32, section: &mut Section<'t>) -> Option<()> {
        for _ in 0..TIMES {
            drop(self.ask(OperatorLine::Admit(name, width)));
            let id = self.operator.last_id(name);
            if let Some(offset) = self.core.offset(id) {
                let (mut ids, mut offsets) = (Buffer::new(), Buffer::new());
                let id = ids.format(id).as_bytes();
                let offset = offsets.format(offset).as_bytes();
                return write_slices(section, &[b"ok ", id, b" ", offset, b"\n"]).ok();
            }
        }
        None
    }

    /// Writes who owns what.
    fn tell_owners(&mut self, section: &mut Section<'t>) -> Option<()> {
        for _ in 0..TIMES {
            if let Some(reply) = self.ask(OperatorLine::Owners) {
                let written = write_slices(section, &[reply.as_bytes()]);
                drop(reply);
                return written.ok();
            }
        }
        None
    }

    /// The reply to a line of the operator, unless memory runs out.
    fn ask(&mut self, line: OperatorLine<&'t [u8]>) -> Option<MemorySink> {
        if !self.operator.is_of(&self.core) {
            return None;
        }
        let mut reply = MemorySink::new(self.alloc);
        let mut jobs = HeldJobs::new(self.alloc);
        let answered = self
            .operator
            .serve(&mut self.core, self.graph, &mut jobs, line, &mut reply);
        jobs.give_back(&mut self.core);
        match answered {
            Ok(()) => Some(reply),
            Err(_) => None,
        }
    }
}
