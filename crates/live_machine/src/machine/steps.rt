//! The steps that workers make, and the turns of names that are held.
ghost use Rattle.std.specs.Prelude.{◌≡◌, ◌≢◌, List, ℕ, None, IfOk, OnOk};
ghost use Rattle.live_machine.specs.Prelude.{name_of, state_in};
ghost use Rattle.live_machine.specs.declared.machine.steps.StepEnd.TheVariants.{Dropped, Made};
ghost use Rattle.live_machine.specs.Machine.{Happens};
ghost use Rattle.live_machine.specs.Machine.Call.{Drain};
ghost use Rattle.live_machine.specs.Parts.{Counts, EndsPut, EndsStep, HasTurns, IsReady, PutsStep, TakesTurn, machine_of};

use crate::machine::Machine;
use crate::stop::Stop;
use job_state::{AnyJob, Back, Done};
use std::alloc::AllocError;

/// The most items of a name that are served in one turn.
const MOST_ITEMS: u32 = 64;

/// The most bytes that are to be told before no more turns are taken.
pub const MOST_TOLD: usize = 16_777_216;

/// The number of times in a row that memory may run out for a step before a `wait` for it is given
/// up.
const TRIES: u32 = 16;

/// How the put of a step ended, or how a job was taken back.
#[derive(Clone, Copy, PartialEq, Eq)]
pub enum StepEnd {
    /// It was the next step of its tenancy's running job, and is made.
    Made,
    /// It was not, or nobody has the job any more.
    Dropped,
    /// Memory ran out, that many times in a row. After a pause the worker calls
    /// [`Machine::retry`].
    Again(u32),
    /// Memory ran out too often. A `wait` for the job is answered so.
    GivenUp,
}

impl Machine<'_> {
    /// Takes a step for a worker, if there is one to make. Nobody sees that it is taken: it counts
    /// once it is put.
    pub fn take(&mut self) -> Option<AnyJob>
        requires ready { IsReady self.old }
        ensures ready { IsReady self.new }
        ensures same { machine_of self.new ≡ machine_of self.old }
    {
        while let Some(id) = self.agenda.next() {
            if let Some(job) = self.server.take_job(id) {
                return Some(job);
            }
        }
        None
    }

    /// Puts a step that a worker made. If it is still the next one of its tenancy's running job,
    /// that is a line `op step NAME 1`; if not, it is dropped. Then the name has its turns, if it
    /// is held.
    ///
    /// # Errors
    /// Why the machine stops. It takes no call after that but `close`.
    pub fn put(&mut self, done: Done) -> Result<StepEnd, Stop>
        requires ready { IsReady self.old }
        ensures ready { OnOk result (IsReady self.new) }
        ensures puts { IfOk result (λ end. PutsStep end
            (name_of (machine_of self.old).live.stage.names done.id) (machine_of self.old)
            (machine_of self.new)) }
        ensures counts { (name : List ℕ) → Counts (state_in self.old.server.lines) done name →
            IfOk result (λ end. end ≢ Dropped) }
    {
        let id = done.id();
        match self.server.lines().live().names().name_of(id) {
            Some(name) => self.put_of(id, name, done),
            None => {
                self.server.give_back(done.into_back());
                Ok(StepEnd::Dropped)
            }
        }
    }

    /// Puts a step of a job of the tenancy with that id and name.
    fn put_of(&mut self, id: u32, name: &[u8], done: Done) -> Result<StepEnd, Stop>
        requires ready { IsReady self.old }
        ensures ready { OnOk result (IsReady self.new) }
        ensures puts { IfOk result (λ end. EndsPut end name.now (machine_of self.old)
            (machine_of self.new)) }
        ensures counts { Counts (state_in self.old.server.lines) done name.now →
            IfOk result (λ end. end ≢ Dropped) }
    {
        match self.put_step(name, done)? {
            Some(true) => {
                self.go_on(id, name)?;
                Ok(StepEnd::Made)
            }
            Some(false) => self.count_lack(id, name),
            None => {
                self.go_on(id, name)?;
                Ok(StepEnd::Dropped)
            }
        }
    }

    /// Puts a step of that name's tenancy. Returns whether memory sufficed for it; `None` if it
    /// isn't the next step.
    fn put_step(&mut self, name: &[u8], done: Done) -> Result<Option<bool>, Stop>
        requires ready { IsReady self.old }
        ensures ready { OnOk result (IsReady self.new) }
        ensures ends { IfOk result (λ end. EndsStep end name.now (machine_of self.old)
            (machine_of self.new)) }
        ensures counts { Counts (state_in self.old.server.lines) done name.now →
            IfOk result (λ end. end ≢ None) }
    {
        let had_step = self.server.has_step(name);
        self.server.give_back(done.into_back());
        if had_step || !self.server.has_step(name) {
            return Ok(None);
        }
        Ok(Some(self.server.serve_step(name)?))
    }

    /// Gives a name its turn after a step of its job was put.
    fn go_on(&mut self, id: u32, name: &[u8]) -> Result<(), Stop>
        requires ready { IsReady self.old }
        ensures ready { OnOk result (IsReady self.new) }
        ensures turns { OnOk result (HasTurns name.now (machine_of self.old)
            (machine_of self.new)) }
    {
        self.agenda.forget(id);
        let _is_behind = self.serve_turns(name)?;
        self.mark(name)
    }

    /// Takes a job back for whose step memory ran out.
    ///
    /// # Errors
    /// Why the machine stops. It takes no call after that but `close`.
    pub fn give_back(&mut self, back: Back) -> Result<StepEnd, Stop>
        requires ready { IsReady self.old }
        ensures ready { OnOk result (IsReady self.new) }
        ensures gives { IfOk result (λ end. PutsStep end
            (name_of (machine_of self.old).live.stage.names back.step.id) (machine_of self.old)
            (machine_of self.new)) }
        ensures unmade { IfOk result (λ end. end ≢ Made) }
    {
        let id = back.id();
        self.server.give_back(back);
        match self.server.lines().live().names().name_of(id) {
            Some(name) => self.give_back_of(id, name),
            None => Ok(StepEnd::Dropped),
        }
    }

    /// Counts that memory ran out for a job that was taken back, unless it was dropped.
    fn give_back_of(&mut self, id: u32, name: &[u8]) -> Result<StepEnd, Stop>
        requires ready { IsReady self.old }
        ensures ready { OnOk result (IsReady self.new) }
        ensures gives { IfOk result (λ end. EndsPut end name.now (machine_of self.old)
            (machine_of self.new)) }
        ensures unmade { IfOk result (λ end. end ≢ Made) }
    {
        if self.server.has_step(name) {
            return self.count_lack(id, name);
        }
        self.go_on(id, name)?;
        Ok(StepEnd::Dropped)
    }

    /// Counts one more time that memory ran out for a step of that tenancy. After the last one a
    /// `wait` of the name is given up.
    fn count_lack(&mut self, id: u32, name: &[u8]) -> Result<StepEnd, Stop>
        requires ready { IsReady self.old }
        ensures ready { OnOk result (IsReady self.new) }
        ensures ends { IfOk result (λ end. EndsPut end name.now (machine_of self.old)
            (machine_of self.new)) }
        ensures lacks { IfOk result (λ end. (end ≢ Made) × (end ≢ Dropped)) }
    {
        let tries = self.agenda.count(id)?;
        if tries < TRIES {
            return Ok(StepEnd::Again(tries));
        }
        self.agenda.forget(id);
        let _had_wait = self.give_up(name)?;
        let _is_behind = self.serve_turns(name)?;
        self.mark_waited(name)?;
        Ok(StepEnd::GivenUp)
    }

    /// Has the step of that tenancy's job made again, for which memory ran out.
    ///
    /// # Errors
    /// Why the machine stops. It takes no call after that but `close`.
    pub fn retry(&mut self, id: u32) -> Result<(), Stop>
        ensures server { self.new.server ≡ self.old.server }
        ensures held { self.new.held ≡ self.old.held }
    {
        self.agenda.mark(id)?;
        Ok(())
    }

    /// Notes that the job of that name's tenancy may have a step to take.
    pub(super) fn mark(&mut self, name: &[u8]) -> Result<(), Stop>
        ensures server { self.new.server ≡ self.old.server }
        ensures held { self.new.held ≡ self.old.held }
    {
        if self.server.has_step(name) {
            self.agenda.mark(self.server.last_id(name))?;
        }
        Ok(())
    }

    /// Notes that the job of that name's tenancy may have a step to take, if another `wait` of the
    /// name is for it.
    fn mark_waited(&mut self, name: &[u8]) -> Result<(), Stop>
        ensures server { self.new.server ≡ self.old.server }
        ensures held { self.new.held ≡ self.old.held }
    {
        if self.has_wait(name) {
            return self.mark(name);
        }
        Ok(())
    }

    /// Serves what a held name has said, up to 64 items and 16 MiB to be told. Returns whether more
    /// of it may be served.
    fn serve_turns(&mut self, name: &[u8]) -> Result<bool, Stop>
        requires ready { IsReady self.old }
        ensures ready { OnOk result (IsReady self.new) }
        ensures turns { OnOk result (HasTurns name.now (machine_of self.old)
            (machine_of self.new)) }
    {
        let mut served = 0;
        while served < MOST_ITEMS && self.server.to_tell() <= MOST_TOLD {
            if !self.serve_first(name)? {
                return Ok(false);
            }
            served += 1;
        }
        Ok(true)
    }

    /// Serves the next held name that can be served on, after the one that had the last turn.
    /// Returns whether there was one. With more than 16 MiB to be told none is served.
    ///
    /// # Errors
    /// Why the machine stops. It takes no call after that but `close`.
    pub fn turn(&mut self) -> Result<bool, Stop>
        requires ready { IsReady self.old }
        ensures ready { OnOk result (IsReady self.new) }
        ensures turns { IfOk result (λ went. TakesTurn went (machine_of self.old)
            (machine_of self.new)) }
    {
        if self.server.to_tell() > MOST_TOLD {
            return Ok(false);
        }
        match self.next_free()? {
            Some(name) => {
                let _is_behind = self.serve_turns(name.as_slice())?;
                self.mark(name.as_slice())?;
                Ok(true)
            }
            None => Ok(false),
        }
    }

    /// The next held name that can be served on. It has its turn.
    fn next_free(&mut self) -> Result<Option<Vec<u8>>, AllocError>
        ensures server { self.new.server ≡ self.old.server }
        ensures held { self.new.held ≡ self.old.held }
    {
        let mut free = self.free_from(self.agenda.after_turn());
        if free.is_none() {
            free = self.free_from(0);
        }
        match free {
            Some(place) => {
                self.agenda.note_turn(place);
                self.name_at(place)
            }
            None => Ok(None),
        }
    }

    /// The place of the first held name, from that place on, that can be served on.
    fn free_from(&self, first: usize) -> Option<usize> {
        for place in first..self.held.len() {
            if let Some(name) = self.held.name_at(place)
                && self.has_items(name)
                && !self.is_waiting(name)
            {
                return Some(place);
            }
        }
        None
    }

    /// A copy of the held name at that place.
    fn name_at(&self, place: usize) -> Result<Option<Vec<u8>>, AllocError> {
        match self.held.name_at(place) {
            Some(name) => Ok(Some(Vec::from_slice(self.alloc, name)?)),
            None => Ok(None),
        }
    }

    /// Takes what is to be kept, and what is to be told once that is kept.
    pub fn drain(&mut self) -> (Vec<u8>, Vec<u8>)
        ensures ready { IsReady self.old → IsReady self.new }
        ensures drains { Happens (machine_of self.old) (Drain (result.0).items (result.1).items)
            (machine_of self.new) }
    {
        self.server.drain()
    }
}
