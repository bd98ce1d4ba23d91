//! Why a service ends before its input does.
use line_text::Failed;
use std::alloc::AllocError;

/// Why a service ends before its input does.
#[derive(Clone, Copy, PartialEq, Eq)]
pub enum Trouble {
    /// The service ran out of memory.
    NoMemory,
    /// The writer failed.
    Failed,
}

impl From<AllocError> for Trouble {
    ghost use Rattle.std.specs.Prelude.{◌≡◌};
    ghost use Rattle.live_lines.specs.declared.trouble.Trouble.TheVariants.{NoMemory};

    ghost from_gives = { λ _ trouble. trouble ≡ NoMemory };

    fn from(_error: AllocError) -> Self {
        Trouble::NoMemory
    }
}

impl From<Failed> for Trouble {
    ghost use Rattle.std.specs.Prelude.{◌≡◌};
    ghost use Rattle.live_lines.specs.declared.trouble.Trouble.TheVariants.{Failed};

    ghost from_gives = { λ _ trouble. trouble ≡ Failed };

    fn from(_error: Failed) -> Self {
        Trouble::Failed
    }
}
