//! Why a command has no reply.
ghost use Rattle.std.specs.Prelude.{◌≡◌};
ghost use Rattle.tenant_slot.specs.declared.not_served.NotAnswered.TheVariants.{NoMemory};

use std::alloc::AllocError;

/// Why a command has no reply and is no entry of the journal. Nothing changed.
#[derive(Clone, Copy, PartialEq, Eq)]
pub enum NotAnswered {
    NoMemory,
    /// The journal has [`crate::MAX_ENTRIES`] entries.
    JournalFull,
}

impl NotAnswered {
    ghost use Rattle.tenant_slot.specs.Names.{not_served_number, not_served_text};

    /// The refusal's number in replies.
    pub fn number(self) -> u32
        ensures { result ≡ not_served_number self }
    {
        match self {
            NotAnswered::NoMemory => 1,
            NotAnswered::JournalFull => 2,
        }
    }

    /// The refusal's name in replies.
    pub fn name(self) -> &'static str
        ensures { result.now ≡ not_served_text self }
    {
        match self {
            NotAnswered::NoMemory => "NoMemory",
            NotAnswered::JournalFull => "JournalFull",
        }
    }
}

impl From<AllocError> for NotAnswered {
    ghost from_gives = { λ _ e. e ≡ NoMemory };

    fn from(_e: AllocError) -> NotAnswered {
        NotAnswered::NoMemory
    }
}
