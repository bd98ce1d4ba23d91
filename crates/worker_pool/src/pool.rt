use job_queue::{Law, Lawless, Ready};
use shared_core::{Begun, Shared};
use std::sync::ledger::Ledger;
use strips::DeviceGraph;

/// What the workers of a pool share, and the sessions beside them.
#[derive_where(Clone, Copy)]
pub struct Pool<'p, R, C: Begun, P: Ledger, J: Law = Lawless> {
    /// Lets a thread wait and read the clock.
    pub rt: &'p R,
    /// The core under its lock.
    pub shared: &'p Shared<C, P>,
    /// The queue of the numbers that have a step to make.
    pub ready: &'p Ready<J>,
    /// The graph of the whole device.
    pub graph: &'p DeviceGraph,
}
