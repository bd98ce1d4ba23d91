//! Why a circuit can't be packed.
use std::alloc::AllocError;

/// Why a circuit can't be packed.
#[derive(Clone, Copy, PartialEq, Eq)]
pub enum PackFault {
    /// The BLE with this number is the least that doesn't fit into a cluster alone.
    CannotFit(u32),
}

/// Why a check fails.
#[derive(Clone, Copy, PartialEq, Eq)]
pub enum PackError {
    Fault(PackFault),
    NoMemory,
}

impl From<AllocError> for PackError {
    ghost use Rattle.std.specs.Prelude.{◌≡◌};
    ghost use Rattle.cluster.specs.declared.fault.PackError.TheVariants.{NoMemory};

    ghost from_gives = { λ _ error. error ≡ NoMemory };

    fn from(_error: AllocError) -> Self {
        PackError::NoMemory
    }
}
