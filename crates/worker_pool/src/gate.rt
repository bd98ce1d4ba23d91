use job_state::{AnyJob, Back, Done};

/// Is called before and after each step that a worker makes, while the core isn't locked.
pub trait Gate {
    /// The step is about to be made.
    fn before(&self, job: &AnyJob);

    /// The step was made, or ran out of memory.
    fn after(&self, stepped: &Result<Done, Back>);
}

/// A gate that lets each step through.
#[derive(Clone, Copy, PartialEq, Eq)]
pub struct Open;

impl Gate for Open {
    fn before(&self, _job: &AnyJob) {}

    fn after(&self, _stepped: &Result<Done, Back>) {}
}
