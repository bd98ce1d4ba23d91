use crate::begun::Begun;
use crate::shared::Core;
use std::sync::ledger::Ledger;
use std::sync::{Condvar, Mutex};

/// The core that threads share.
pub struct Shared<C: Begun, P: Ledger> {
    /// The core under its lock.
    pub core: Mutex<Core<C, P>>,
    /// Notified after each step that a worker made.
    pub changed: Condvar,
}

impl<C: Begun, P: Ledger> Drop for Shared<C, P> {
    fn drop(self) {
        let Shared { core, changed: _ } = self;
        drop(core);
    }
}

impl<C: Begun, P: Ledger> Shared<C, P> {
    /// Shares the core.
    pub fn new(core: Core<C, P>) -> Self {
        Shared {
            core: Mutex::new(core),
            changed: Condvar::new(),
        }
    }

    /// Takes the core, which is no longer shared.
    pub fn into_core(self) -> Core<C, P> {
        let Shared { core, changed: _ } = self;
        core.into_inner()
    }
}
