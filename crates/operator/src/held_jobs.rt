ghost use Rattle.std.specs.Prelude.{◌≡◌, ◌≢◌, ◌+◌, ◌∷◌, [], List, None, length, option_map, IfOk, OnErr, Option};
ghost use Rattle.operator.specs.Prelude.{JobState, Call, Run, Take, Unfit, own_graph, StepsAndPuts};
ghost use Rattle.operator.specs.HeldJobs.{Holds, PutsHeld, give_backs, job_at, with_job, without_job};

use crate::held_job::HeldJob;
use service_core::Service;
use sessions::{StepOutcome, step_and_put, window_of};
use std::alloc::{AllocError, Global};
use std::marker::Model;
use strips::DeviceGraph;

/// Jobs that the operator took, numbered from 1 in the order in which they were taken, each with
/// its window on the device's graph. Its value is the list of the jobs, with `None` in place of one
/// that was put.
pub struct HeldJobs<'g> {
    jobs: Vec<Option<HeldJob<'g>>>,
}

impl<'g> Model for HeldJobs<'g> {
    ghost use Rattle.operator.specs.HeldJobs.{HeldList};

    ghost Value = { HeldList };

    ghost view = { λ h. h.jobs.items };
}

impl<'g> HeldJobs<'g> {
    /// Returns a list without jobs. Takes no memory.
    pub fn new(alloc: Global) -> Self
        ensures { result ≡ [] }
    {
        HeldJobs {
            jobs: Vec::new(alloc),
        }
    }

    /// Takes the next step of that tenancy's job, if there is one to take, and returns its number.
    /// A job that the graph doesn't fit is given back; the device's own graph fits each. If memory
    /// runs out, nothing is taken.
    pub fn take(
        &mut self,
        core: &mut Service,
        graph: &'g DeviceGraph,
        id: u32,
    ) -> Result<Option<usize>, AllocError>
        ensures taken { IfOk result (λ number. (job : Option JobState) × (calls : List Call)
            × Holds id job calls × Run core.old calls core.new × (self.new ≡ with_job self.old job)
            × (number ≡ option_map (λ _. length self.old + 1) job)
            × (graph.now ≡ own_graph core.old.device → job ≡ None → calls ≡ Take id None ∷ [])) }
        ensures stands { OnErr result ((core.new ≡ core.old) × (self.new ≡ self.old)) }
    {
        self.jobs.reserve(1)?;
        match core.take(id) {
            Some(job) => match window_of(core, graph, &job) {
                Some(window) => {
                    self.jobs.push(Some(HeldJob::new(job, window))).unwrap();
                    Ok(Some(self.jobs.len()))
                }
                None => {
                    core.give_back(job.into_back());
                    Ok(None)
                }
            },
            None => Ok(None),
        }
    }

    /// Steps the job of that number through its window and puts it, if it is held. Afterwards it
    /// isn't held any more.
    pub fn put(&mut self, core: &mut Service, number: u32) -> StepOutcome
        ensures jobs { self.new ≡ without_job self.old number }
        ensures put { (calls : List Call) × PutsHeld (job_at self.old number) calls result
            × Run core.old calls core.new }
        ensures fits { result ≢ Unfit }
    {
        match self.remove(number) {
            Some(held) => put_held(core, held),
            None => StepOutcome::Nothing,
        }
    }

    /// Removes the job of that number, if it is held.
    #[tactic(auto, using(crate::proofs::HeldLemmas::by_number))]
    fn remove(&mut self, number: u32) -> Option<HeldJob<'g>>
        ensures job { result ≡ job_at self.old number }
        ensures jobs { self.new ≡ without_job self.old number }
    {
        if number == 0 {
            return None;
        }
        if number as usize > self.jobs.len() {
            return None;
        }
        self.jobs[number as usize - 1].take()
    }

    /// Gives back all held jobs, the last one first.
    pub fn give_back(self, core: &mut Service)
        ensures { Run core.old (give_backs self.entry) core.new }
    {
        let HeldJobs { mut jobs } = self;
        while let Some(held) = jobs.pop() {
            if let Some(job) = held {
                core.give_back(job.into_job().into_back());
            }
        }
        jobs.destroy_empty();
    }
}

/// Steps a job that was held, and puts it.
fn put_held(core: &mut Service, held: HeldJob<'_>) -> StepOutcome
    ensures put { (calls : List Call) × StepsAndPuts held.entry calls result
        × Run core.old calls core.new }
    ensures fits { result ≢ Unfit }
{
    let HeldJob { job, window } = held;
    step_and_put(core, job, &window)
}
