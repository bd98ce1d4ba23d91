use job_queue::Ready;
use shared_core::{Begun, Shared};
use std::sync::ledger::Ledger;

/// What a session runs in, with the other sessions and the workers.
#[derive_where(Clone, Copy)]
pub struct Context<'c, R, C: Begun, P: Ledger> {
    /// Lets a thread wait, and gives memory.
    pub rt: &'c R,
    /// The core under its lock.
    pub shared: &'c Shared<C, P>,
    /// The queue of the numbers that have a step to make.
    pub ready: &'c Ready,
}
