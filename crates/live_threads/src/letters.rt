//! What goes from thread to thread: a step to make, and a step that was made.

use job_state::{AnyJob, Back, Done};

/// A job with a step to make, and the offset of its strip.
pub(crate) struct StepOrder {
    job: AnyJob,
    offset: Option<u32>,
}

impl Drop for StepOrder {
    fn drop(self) {
        let StepOrder { job, offset: _ } = self;
        drop(job.into_back().park());
    }
}

impl StepOrder {
    pub(crate) fn new(job: AnyJob, offset: Option<u32>) -> Self {
        StepOrder { job, offset }
    }

    pub(crate) fn into_parts(self) -> (AnyJob, Option<u32>) {
        let StepOrder { job, offset } = self;
        (job, offset)
    }
}

/// What a worker does next.
#[derive(Drop)]
pub(crate) enum Order {
    /// It makes a step.
    Make(StepOrder),
    /// It pauses before the step of that tenancy's job is made again, for which memory ran out that
    /// many times in a row.
    Pause(u32, u32),
}

/// A step that a worker made.
pub(crate) struct MadeStep {
    done: Done,
}

impl Drop for MadeStep {
    fn drop(self) {
        let MadeStep { done } = self;
        drop(done.park());
    }
}

impl MadeStep {
    pub(crate) fn new(done: Done) -> Self {
        MadeStep { done }
    }

    pub(crate) fn into_done(self) -> Done {
        let MadeStep { done } = self;
        done
    }
}

/// A job for whose step memory ran out.
pub(crate) struct LackingJob {
    back: Back,
}

impl Drop for LackingJob {
    fn drop(self) {
        let LackingJob { back } = self;
        drop(back.park());
    }
}

impl LackingJob {
    pub(crate) fn new(back: Back) -> Self {
        LackingJob { back }
    }

    pub(crate) fn into_back(self) -> Back {
        let LackingJob { back } = self;
        back
    }
}

/// What a worker did.
#[derive(Drop)]
pub(crate) enum StepLetter {
    /// It made a step.
    Made(MadeStep),
    /// Memory ran out for a step.
    NoMemory(LackingJob),
    /// It paused for that tenancy.
    Paused(u32),
}

/// How the input ended.
#[derive(Clone, Copy, PartialEq, Eq)]
pub(crate) enum InputEnd {
    /// All of it was read.
    Done,
    /// It can't be read any more.
    Failed,
    /// Memory ran out for its lines.
    NoMemory,
}
