//! One tenancy: its commands, and its job, which leaves and comes back.
ghost use Rattle.std.specs.Prelude.{◌≡◌, All, AllPairs, Some, false, true};
ghost use Rattle.tenant_slot.specs.Prelude.{IsStripSize, Resource, IsEarlier, has, is_there};
ghost use Rattle.tenant_slot.specs.RoutedSet.{routed_set};
ghost use Rattle.tenant_slot.specs.SingleUser.{is_next, start};
ghost use Rattle.tenant_slot.specs.Answer.{Answers, IsAnswerTo, slot_after};
ghost use Rattle.tenant_slot.specs.Slot.{CanPut, GivesBack, IsAdvanceOf, IsOrigin, Puts, Serves, Takes, is_takeable};

mod commands;

use crate::answer::PreparedReply;
use crate::command::Command;
use crate::content::Content;
use crate::event::Advance;
use crate::not_served::NotAnswered;
use crate::origin::Origin;
use crate::reply::{Refusal, Reply, StateName, StepReply};
use crate::standing::Standing;
use arch_file::SharedArch;
use grid::Strip;
use job_state::{AnyJob, Back, Done, Sources};
use rr_graph::Resource;
use std::alloc::Global;
use std::marker::Model;
use strip_place::Kept;

/// The largest number of entries of one tenancy's journal.
pub const MAX_ENTRIES: u32 = 65_536;

/// One tenancy. Its value is its id, the state of the service for a single user, and whether the
/// running job's next step is here and was made already.
pub struct Slot {
    alloc: Global,
    id: u32,
    arch: SharedArch,
    strip: Strip,
    standing: Standing,
    entries: u32,
}

impl Model for Slot {
    ghost use Rattle.tenant_slot.specs.Slot.{SlotState};
    ghost use Rattle.tenant_slot.specs.Standing.{IsSlot, slot_state};

    ghost Value = { SlotState };

    ghost view = { λ s. slot_state s.id s.arch s.strip s.standing s.entries };

    ghost invariant = { λ s. IsSlot s.id s.arch s.strip s.standing s.entries };
}

impl Drop for Slot {
    fn drop(self) {
        let Slot {
            alloc: _,
            id: _,
            arch,
            strip: _,
            standing,
            entries: _,
        } = self;
        drop(arch);
        drop(standing);
    }
}

impl Slot {
    /// A tenancy as it is admitted, in the state Empty. Takes no memory.
    pub fn new(alloc: Global, id: u32, arch: SharedArch, strip: Strip) -> Self
        requires { IsStripSize strip }
        ensures { result ≡ record { id = id; state = start arch strip; here = Some false } }
    {
        Slot {
            alloc,
            id,
            arch,
            strip,
            standing: Standing {
                content: Content::Empty,
                running: None,
                kept: Kept::none(),
                seed: 0,
                effort: 0,
                generation: 0,
                steps: 0,
            },
            entries: 0,
        }
    }

    /// The id of the tenancy.
    pub fn id(&self) -> u32
        ensures { result ≡ self.now.id }
    {
        self.id
    }

    /// The name of the tenancy's state.
    pub fn state(&self) -> StateName
        ensures { result ≡ self.now.state.name }
    {
        self.standing.name()
    }

    /// Returns whether there is a step to take: a job runs, its next step isn't out, and the
    /// journal has space for an entry.
    pub fn has_step(&self) -> bool
        ensures { result ≡ is_takeable self.now }
    {
        self.entries < MAX_ENTRIES && self.standing.is_ready()
    }

    /// Computes the answer to a command. Nothing changes until the answer is accepted, so
    /// everything that takes memory comes first. Fails with [`NotAnswered`] if memory runs out or
    /// the journal is full.
    pub fn answer(&self, command: &Command) -> Result<PreparedReply, NotAnswered>
        ensures { Answers self.now command.now result }
    {
        if self.entries == MAX_ENTRIES {
            return Err(NotAnswered::JournalFull);
        }
        let lut_size = self.arch.arch().lut_size;
        let state = self.state();
        if !state.admits(command) {
            let refusal = Refusal::WrongState(state);
            return Ok(PreparedReply::without_change(lut_size, Reply::Refused(refusal)));
        }
        self.serve(command)
    }

    /// What the circuit occupies of its strip, in node order: in the state Routed the pins and
    /// wires of its routes and the pads of its blocks, each once; in the other states nothing.
    pub fn routed_resources(&self) -> &[Resource]
        ensures order { AllPairs IsEarlier result.now }
        ensures exact { (r : Resource) → has result.now r ≡ has (routed_set self.now.state) r }
        ensures there { All (λ r. is_there self.now.state.arch self.now.state.strip r ≡ true)
            result.now }
    {
        match &self.standing.content {
            Content::Routed(_, _, _, routing) => routing.resources(),
            _ => &[],
        }
    }

    /// Makes the answer's change, counts its entry and returns its reply. Takes no memory.
    pub fn accept(&mut self, answer: PreparedReply) -> Reply
        requires { IsAnswerTo self.old answer }
        ensures reply { result ≡ answer.reply }
        ensures slot { self.new ≡ slot_after self.old answer }
    {
        let PreparedReply { change, reply, .. } = answer;
        self.entries += 1;
        self.standing.accept(change);
        reply
    }

    /// Serves one command, exactly as the service for a single user does. Fails with
    /// [`NotAnswered`] if memory runs out or the journal is full; then nothing changes.
    pub fn command(&mut self, command: &Command) -> Result<Reply, NotAnswered>
        ensures { Serves self.old command.now result self.new }
    {
        let answer = self.answer(command)?;
        Ok(self.accept(answer))
    }

    /// Takes the running job's next step out; `None` if it is out already, no job runs, or the
    /// journal has no space for its entry. This call doesn't make the step: it is made exactly if
    /// it came back made. Takes no memory.
    pub fn take(&mut self) -> Option<AnyJob>
        ensures { Takes self.old result self.new }
    {
        if self.entries == MAX_ENTRIES {
            return None;
        }
        let job = self.standing.take()?;
        Some(job.leave())
    }

    /// Puts a step that was made: if it is the running job's next one, the job advances. It is an
    /// entry in either case. Takes no memory.
    pub fn put(&mut self, done: Done) -> (Advance, StepReply)
        requires { CanPut self.old done }
        ensures { Puts self.old done result.0 result.1 self.new }
    {
        self.put_from(done, Origin::Unknown)
    }

    /// Puts a step as `put` does, with what the caller knows of it. If it is known to be the
    /// running job's next one, its sources aren't compared, so the cost doesn't grow with the
    /// netlist. Takes no memory.
    pub fn put_from(&mut self, done: Done, origin: Origin) -> (Advance, StepReply)
        requires can { CanPut self.old done }
        requires origin { IsOrigin self.old done origin }
        ensures { Puts self.old done result.0 result.1 self.new }
    {
        let made = self.recorded_advance(&done, origin);
        let counts = self.is_next(made);
        let last = done.is_last();
        self.entries += 1;
        let reply = self.standing.put(done.park(), counts, last);
        (made, reply)
    }

    /// How a step that was made is recorded in the journal.
    fn recorded_advance(&self, done: &Done, origin: Origin) -> Advance
        requires { IsOrigin self.now done.now origin }
        ensures { IsAdvanceOf self.now.state done.now result }
    {
        match origin {
            Origin::Running => Advance {
                generation: done.generation(),
                number: done.number(),
                foreign: false,
            },
            Origin::Unknown => { self.advance_of(done.generation(), done.number(), done.sources()) }
        }
    }

    /// Takes back a job whose step wasn't made or couldn't be put. If the step is the running job's
    /// next one, it can be taken again; otherwise the job is dropped. Takes no memory.
    pub fn give_back(&mut self, back: Back)
        requires { back.step.id ≡ self.old.id }
        ensures { GivesBack self.old back self.new }
    {
        let made = self.advance_of(back.generation(), back.number(), back.sources());
        let runs = self.is_next(made);
        let job = back.park();
        if runs {
            self.standing.stand_ready(job);
        } else {
            drop(job);
        }
    }

    /// How a step of this tenancy, with that generation, number and sources, is recorded in the
    /// journal.
    fn advance_of(&self, generation: u32, number: u32, sources: &Sources) -> Advance
        ensures { IsAdvanceOf self.now.state
            (record {
              id = self.now.id;
              generation = generation;
              number = number;
              sources = sources.now;
            }) result }
    {
        Advance {
            generation,
            number,
            foreign: !self.standing.runs_on(sources),
        }
    }

    /// Returns whether a step that was made is the running job's next one.
    fn is_next(&self, made: Advance) -> bool
        ensures { result ≡ is_next self.now.state made }
    {
        made.generation == self.standing.generation
            && made.number == self.standing.steps + 1
            && !made.foreign
    }
}
