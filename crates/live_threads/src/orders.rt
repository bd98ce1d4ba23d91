//! What workers do next.
use crate::letters::Order;
use std::alloc::{AllocError, Global};
use std::collections::VecDeque;
use std::sync::{Condvar, Mutex, MutexGuard, Wait};

/// The orders that no worker has taken.
#[derive(Drop)]
pub(crate) struct Waiting {
    orders: VecDeque<Order>,
    is_over: bool,
}

impl Waiting {
    /// Puts an order at the end. An order that can't be put is dropped.
    pub(crate) fn put(&mut self, order: Order) -> Result<(), AllocError> {
        match self.orders.push_back(order) {
            Ok(()) => Ok(()),
            Err(failed) => {
                drop(failed);
                Err(AllocError)
            }
        }
    }
}

/// What workers do next. Each order is taken by one of them.
pub(crate) struct Orders {
    waiting: Mutex<Waiting>,
    /// Notified for each order, and when the service is over.
    work: Condvar,
}

impl Drop for Orders {
    fn drop(self) {
        let Orders { waiting, work: _ } = self;
        drop(waiting);
    }
}

impl Orders {
    /// Without orders. Takes no memory.
    pub(crate) fn new(alloc: Global) -> Self {
        Orders {
            waiting: Mutex::new(Waiting {
                orders: VecDeque::new(alloc),
                is_over: false,
            }),
            work: Condvar::new(),
        }
    }

    /// The orders, to put more of them. Then [`Orders::wake`] is called.
    pub(crate) fn open<'o, R: Wait>(&'o self, rt: &R) -> MutexGuard<'o, Waiting> {
        self.waiting.lock(rt)
    }

    /// Wakes workers for that many orders.
    pub(crate) fn wake(&self, count: usize) {
        for _ in 0..count {
            self.work.notify_one();
        }
    }

    /// Takes the next order. Waits for it if there is none. None if the service is over.
    pub(crate) fn take<R: Wait>(&self, rt: &R) -> Option<Order> {
        let mut waiting = self.waiting.lock(rt);
        for _ in rt.forever() {
            if waiting.is_over {
                return None;
            }
            if let Some(order) = waiting.orders.pop_front() {
                return Some(order);
            }
            waiting = self.work.wait(rt, waiting);
        }
        unreachable!()
    }

    /// Says that the service is over.
    pub(crate) fn close<R: Wait>(&self, rt: &R) {
        self.waiting.lock(rt).is_over = true;
        self.work.notify_all();
    }
}
