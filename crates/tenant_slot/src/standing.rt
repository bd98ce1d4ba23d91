//! What a slot keeps between commands, so that it isn't computed again, and how it changes.
ghost use Rattle.std.specs.Prelude.{◌≡◌, ◌+◌, ◌<◌, ◌↔◌, IsTrue, None, Some, option_map, true};
ghost use Rattle.tenant_slot.specs.declared.slot.TheConstants.{MAX_ENTRIES};
ghost use Rattle.tenant_slot.specs.Content.{CanFinish, cut_back, finished_with};
ghost use Rattle.tenant_slot.specs.JobNames.{state_during};
ghost use Rattle.tenant_slot.specs.Standing.{RunsOn, accepted_in, is_ready, name_of, put_in, put_reply, ready_of, ready_with, without_ready};

use crate::content::{Content, Netlist};
use crate::reply::{StateName, StepReply};
use job_state::{JobKind, Parked, Sources};
use std::mem;
use strip_place::Kept;

/// The running job: its sources, and its next step unless that is out.
#[derive(Drop)]
pub(crate) struct Running {
    pub(crate) sources: Sources,
    pub(crate) ready: Option<Parked>,
}

/// What a slot keeps between commands.
#[derive(Drop)]
pub(crate) struct Standing {
    pub(crate) content: Content,
    pub(crate) running: Option<Running>,
    /// The places at which the next placing starts its blocks, by kind and name.
    pub(crate) kept: Kept,
    /// The seed of the last accepted placing, 0 before the first.
    pub(crate) seed: u64,
    /// The effort of the last accepted placing, 0 before the first.
    pub(crate) effort: u32,
    pub(crate) generation: u32,
    /// The number of steps that the running job has made, 0 if none runs.
    pub(crate) steps: u32,
}

/// The change that an accepted command makes.
#[derive(Drop)]
pub(crate) enum Change {
    /// A first netlist.
    Load(Netlist),
    /// Another netlist, and the places kept from the old one.
    Replace(Netlist, Kept),
    /// A packing or a routing starts from the content.
    Begin(Running),
    /// A placing starts from the packing, and older places and routes are given up.
    Place(Running),
    /// The running job is given up.
    Stop,
    Empty,
}

/// The name of the state in which a job of that kind runs.
fn name_during(kind: JobKind) -> StateName
    ensures { result ≡ state_during kind }
{
    match kind {
        JobKind::Packing => StateName::Packing,
        JobKind::Placing => StateName::Placing,
        JobKind::Routing => StateName::Routing,
    }
}

impl Standing {
    pub(crate) fn name(&self) -> StateName
        ensures { result ≡ name_of self.now.content self.now.running }
    {
        match &self.running {
            None => self.content.name(),
            Some(job) => name_during(job.sources.kind),
        }
    }

    /// Makes the change of an accepted command.
    pub(crate) fn accept(&mut self, change: Option<Change>)
        requires { self.old.generation < MAX_ENTRIES }
        ensures { self.new ≡ accepted_in self.old change }
    {
        match change {
            None => {}
            Some(Change::Load(netlist)) => self.rest_with(Content::Loaded(netlist)),
            Some(Change::Replace(netlist, kept)) => {
                self.rise();
                self.rest_with(Content::Loaded(netlist));
                self.keep(kept);
            }
            Some(Change::Begin(job)) => {
                self.rise();
                self.run(Some(job));
            }
            Some(Change::Place(job)) => {
                self.rise();
                self.place(job);
            }
            Some(Change::Stop) => {
                self.rise();
                self.run(None);
            }
            Some(Change::Empty) => {
                self.rise();
                self.rest_with(Content::Empty);
                self.keep(Kept::none());
            }
        }
    }

    /// Replaces the kept places.
    fn keep(&mut self, kept: Kept)
        ensures { self.new ≡ record self.old { kept = kept } }
    {
        drop(mem::replace(&mut self.kept, kept));
    }

    /// Begins a new generation.
    fn rise(&mut self)
        requires { self.old.generation < MAX_ENTRIES }
        ensures { self.new ≡ record self.old { generation = self.old.generation + 1; steps = 0 } }
    {
        self.generation += 1;
        self.steps = 0;
    }

    /// Replaces the running job by another, or by none. The old one is dropped by a call, since a
    /// drop in place would be proved again at each place.
    fn run(&mut self, job: Option<Running>)
        ensures { self.new ≡ record self.old { running = job } }
    {
        drop(mem::replace(&mut self.running, job));
    }

    /// Ends the running job, and sets the content.
    fn rest_with(&mut self, content: Content)
        ensures { self.new ≡ record self.old { content = content; running = None } }
    {
        self.stand(content);
        self.run(None);
    }

    /// Replaces the content.
    fn stand(&mut self, content: Content)
        ensures { self.new ≡ record self.old { content = content } }
    {
        drop(mem::replace(&mut self.content, content));
    }

    /// Starts a placing, and gives up places and routes.
    fn place(&mut self, job: Running)
        ensures { self.new ≡ record self.old {
          content = cut_back self.old.content;
          running = Some job;
          seed = job.sources.seed;
          effort = job.sources.effort;
        } }
    {
        self.seed = job.sources.seed;
        self.effort = job.sources.effort;
        let content = mem::replace(&mut self.content, Content::Empty);
        self.stand(content.cut_back());
        self.run(Some(job));
    }

    /// Returns whether the running job's next step is here.
    pub(crate) fn is_ready(&self) -> bool
        ensures { result ≡ is_ready self.now.running }
    {
        match &self.running {
            Some(job) => job.ready.is_some(),
            None => false,
        }
    }

    /// Returns whether a job runs that has these sources.
    pub(crate) fn runs_on(&self, sources: &Sources) -> bool
        ensures { IsTrue result ↔ RunsOn self.now.running sources.now }
    {
        match &self.running {
            Some(job) => job.sources.same(sources),
            None => false,
        }
    }

    /// Takes the running job's next step out.
    pub(crate) fn take(&mut self) -> Option<Parked>
        ensures job { result ≡ ready_of self.old.running }
        ensures out { self.new ≡ record self.old {
          running = option_map without_ready self.old.running;
        } }
    {
        match &mut self.running {
            Some(job) => job.ready.take(),
            None => None,
        }
    }

    /// Puts the running job's next step back here.
    pub(crate) fn stand_ready(&mut self, job: Parked)
        ensures { self.new ≡ record self.old {
          running = option_map (ready_with job) self.old.running;
        } }
    {
        match &mut self.running {
            Some(running) => drop(mem::replace(&mut running.ready, Some(job))),
            None => drop(job),
        }
    }

    /// Takes a job whose step was made, and which is before its next step or finished. If the step
    /// counts, the running job advances, or is over if the step was its last.
    pub(crate) fn put(&mut self, job: Parked, counts: bool, last: bool) -> StepReply
        requires begun { counts ≡ true → last ≡ true → CanFinish self.old.content job }
        requires few { self.old.steps < MAX_ENTRIES }
        ensures standing { self.new ≡ put_in self.old job counts last }
        ensures reply { result ≡ put_reply counts last }
    {
        if !counts {
            drop(job);
            return StepReply::Stale;
        }
        if !last {
            self.steps += 1;
            self.stand_ready(job);
            return StepReply::Advanced;
        }
        self.finish(job);
        StepReply::Finished
    }

    /// Ends the running job, which is finished.
    fn finish(&mut self, job: Parked)
        requires { CanFinish self.old.content job }
        ensures { self.new ≡ record self.old {
          content = finished_with self.old.content job;
          running = None;
          steps = 0;
        } }
    {
        self.steps = 0;
        self.run(None);
        let content = mem::replace(&mut self.content, Content::Empty);
        self.stand(content.finished_with(job));
    }
}
