//! A step that is out.
ghost use Rattle.std.specs.Prelude.{◌≡◌, OnOk};
ghost use Rattle.job_state.specs.JobValue.{basis_in};
ghost use Rattle.live_machine.specs.Parts.{IsReady};

use job_state::{AnyJob, Back, Done};
use live_machine::{Machine, StepEnd, Stop};
use sessions::window_of;
use strips::{DeviceGraph, Window};

/// A step that is out.
pub(crate) enum Hand {
    Taken(AnyJob),
    Made(Done),
    /// Memory ran out for it.
    Left(Back),
}

impl Drop for Hand {
    fn drop(self) {
        match self {
            Hand::Taken(job) => drop(job.into_back().park()),
            Hand::Made(done) => drop(done.park()),
            Hand::Left(back) => drop(back.park()),
        }
    }
}

impl Hand {
    /// The id of the tenancy.
    pub(crate) fn id(&self) -> u32 {
        match self {
            Hand::Taken(job) => job.id(),
            Hand::Made(done) => done.id(),
            Hand::Left(back) => back.id(),
        }
    }

    /// Makes the step, as a worker does. If its tenancy isn't live it isn't made.
    pub(crate) fn make(self, machine: &Machine<'_>, graph: &DeviceGraph) -> Hand {
        match self {
            Hand::Taken(job) => made_of(machine, graph, job),
            Hand::Made(done) => Hand::Made(done),
            Hand::Left(back) => Hand::Left(back),
        }
    }

    /// Puts the step, or gives it back if it isn't made.
    pub(crate) fn put(self, machine: &mut Machine<'_>) -> Result<StepEnd, Stop>
        requires ready { IsReady machine.old }
        ensures ready { OnOk result (IsReady machine.new) }
    {
        match self {
            Hand::Taken(job) => machine.give_back(job.into_back()),
            Hand::Made(done) => machine.put(done),
            Hand::Left(back) => machine.give_back(back),
        }
    }

    /// Gives the step back, made or not.
    pub(crate) fn give_back(self, machine: &mut Machine<'_>) -> Result<StepEnd, Stop>
        requires ready { IsReady machine.old }
        ensures ready { OnOk result (IsReady machine.new) }
    {
        match self {
            Hand::Taken(job) => machine.give_back(job.into_back()),
            Hand::Made(done) => machine.give_back(done.into_back()),
            Hand::Left(back) => machine.give_back(back),
        }
    }
}

/// The step of a job, made through its window.
fn made_of(machine: &Machine<'_>, graph: &DeviceGraph, job: AnyJob) -> Hand {
    match window_of(machine.lines().live().service(), graph, &job) {
        Some(window) => made_through(job, &window),
        None => Hand::Taken(job),
    }
}

fn made_through(job: AnyJob, window: &Window<'_>) -> Hand
    requires { window.now ≡ basis_in job.step.sources }
{
    match job.step(window) {
        Ok(done) => Hand::Made(done),
        Err(back) => Hand::Left(back),
    }
}
