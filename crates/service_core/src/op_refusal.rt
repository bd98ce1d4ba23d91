ghost use Rattle.std.specs.Prelude.{◌≡◌};
ghost use Rattle.service_core.specs.declared.op_refusal.OpRefusal.TheVariants.{NoMemory};
ghost use Rattle.service_core.specs.Names.{op_refusal_number, op_refusal_text};

use std::alloc::AllocError;

/// Why the operator's call is refused. Nothing changed.
#[derive(Clone, Copy, PartialEq, Eq)]
pub enum OpRefusal {
    NoMemory,
    /// A strip of that width is at no offset separated from the others.
    NoRoom,
    /// The device has 64 strips.
    TooManyStrips,
    /// The width is 0, or more than the device's columns.
    BadWidth,
    /// No live tenancy has that id.
    NoSuchTenancy,
    /// All ids have been given.
    IdsSpent,
}

impl OpRefusal {
    /// The refusal's number in replies.
    pub fn number(self) -> u32
        ensures { result ≡ op_refusal_number self }
    {
        match self {
            OpRefusal::NoMemory => 1,
            OpRefusal::NoRoom => 2,
            OpRefusal::TooManyStrips => 3,
            OpRefusal::BadWidth => 4,
            OpRefusal::NoSuchTenancy => 5,
            OpRefusal::IdsSpent => 6,
        }
    }

    /// The refusal's name in replies.
    pub fn name(self) -> &'static str
        ensures { result.now ≡ op_refusal_text self }
    {
        match self {
            OpRefusal::NoMemory => "NoMemory",
            OpRefusal::NoRoom => "NoRoom",
            OpRefusal::TooManyStrips => "TooManyStrips",
            OpRefusal::BadWidth => "BadWidth",
            OpRefusal::NoSuchTenancy => "NoSuchTenancy",
            OpRefusal::IdsSpent => "IdsSpent",
        }
    }
}

impl From<AllocError> for OpRefusal {
    ghost from_gives = { λ _ e. e ≡ NoMemory };

    fn from(_e: AllocError) -> OpRefusal {
        Self::NoMemory
    }
}
