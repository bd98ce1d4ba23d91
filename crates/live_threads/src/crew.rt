//! What the threads of a service share.
use crate::letters::Order;
use crate::mailbox::Mailbox;
use crate::orders::Orders;
use std::alloc::{AllocError, Global};
use std::sync::Wait;
use strips::DeviceGraph;

/// What the threads of a service share: what workers do next, and what comes to the thread that
/// serves.
#[derive(Drop)]
pub(crate) struct Crew {
    pub(crate) orders: Orders,
    pub(crate) mailbox: Mailbox,
}

impl Crew {
    /// Takes no memory.
    pub(crate) fn new(alloc: Global) -> Self {
        Crew {
            orders: Orders::new(alloc),
            mailbox: Mailbox::new(alloc),
        }
    }

    /// Has a worker make a step.
    pub(crate) fn order<R: Wait>(&self, rt: &R, order: Order) -> Result<(), AllocError> {
        self.orders.open(rt).put(order)?;
        self.orders.wake(1);
        Ok(())
    }

    /// Says that the service is over.
    pub(crate) fn close<R: Wait>(&self, rt: &R) {
        self.orders.close(rt);
        self.mailbox.close(rt);
    }
}

/// What a thread of a service works with: the handle by which it waits, what it shares with the
/// others, the graph of the whole device, and what it says on standard error.
#[derive_where(Clone, Copy)]
pub(crate) struct Site<'s, H> {
    pub(crate) rt: &'s H,
    pub(crate) crew: &'s Crew,
    pub(crate) graph: &'s DeviceGraph,
    /// Whether the service says when it is ready.
    pub(crate) ready: bool,
    /// The most bytes that the texts of one tenancy may take, of which it warns.
    pub(crate) text_limit: u64,
}
