//! The lock on a log.
ghost use Rattle.std.specs.Prelude.{◌≢◌, IfErr};

use crate::outcome::Outcome;
use std::fs::{File, TryLockError};

/// A file that one service at a time may use as its log.
pub trait LockLog {
    /// Locks the file until it is closed, unless another service has locked it.
    ///
    /// # Errors
    /// `LogInUse` if another service has locked it, and `LogUnreadable` if it can't be locked.
    fn lock_log(&self) -> Result<(), Outcome>
        ensures { IfErr result (λ outcome. outcome ≢ Outcome.Done) };
}

impl LockLog for File {
    fn lock_log(&self) -> Result<(), Outcome> {
        match self.try_lock() {
            Ok(()) => Ok(()),
            Err(TryLockError::WouldBlock) => Err(Outcome::LogInUse),
            Err(TryLockError::Error(_)) => Err(Outcome::LogUnreadable),
        }
    }
}
