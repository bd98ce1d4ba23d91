//! Why a service stops before its input ends.
ghost use Rattle.std.specs.Prelude.{◌≢◌};

use dialogue::FailedDevice;
use live_machine::Stop;
use live_run::Outcome;
use std::alloc::AllocError;

/// Why a service stops before its input ends.
#[derive(Clone, Copy, PartialEq, Eq)]
pub(crate) enum Fault {
    /// The machine takes no more calls.
    Machine(Stop),
    Device(FailedDevice),
    /// Memory ran out for what the threads share.
    NoMemory,
}

impl Fault {
    /// How a service ends that stops so.
    pub(crate) fn outcome(self) -> Outcome
        ensures { result ≢ Outcome.Done }
    {
        match self {
            Fault::Device(device) => Outcome::Stopped(device),
            Fault::Machine(Stop::TooManyLines) => Outcome::TooManyLines,
            // Lines admit names alone, so a bad name is never seen.
            Fault::Machine(Stop::NoMemory | Stop::BadName) | Fault::NoMemory => Outcome::NoMemory,
        }
    }
}

impl From<Stop> for Fault {
    fn from(stop: Stop) -> Self {
        Fault::Machine(stop)
    }
}

impl From<FailedDevice> for Fault {
    fn from(device: FailedDevice) -> Self {
        Fault::Device(device)
    }
}

impl From<AllocError> for Fault {
    fn from(_error: AllocError) -> Self {
        Fault::NoMemory
    }
}
