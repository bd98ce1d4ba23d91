use settling::Cause;
use std::alloc::AllocError;

/// Why a script isn't answered.
#[derive(Clone, Copy, PartialEq, Eq)]
pub enum Unserved {
    /// Memory ran out for tables, texts or a thread.
    NoMemory,
    /// The answers to the sessions aren't settled.
    NotSettled(Cause),
}

impl From<AllocError> for Unserved {
    ghost use Rattle.std.specs.Prelude.{◌≡◌};
    ghost use Rattle.script_threads.specs.declared.unserved.Unserved.TheVariants.{NoMemory};

    ghost from_gives = { λ _ error. error ≡ NoMemory };

    fn from(_error: AllocError) -> Self {
        Unserved::NoMemory
    }
}
