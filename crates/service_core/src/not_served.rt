ghost use Rattle.std.specs.Prelude.{◌≡◌};
ghost use Rattle.service_core.specs.declared.not_served.NotServed.TheVariants.{NoMemory};

use std::alloc::AllocError;
use std::marker::Model;

/// Why the core has no reply for a tenant, now and later.
#[derive(Clone, Copy, PartialEq, Eq)]
pub enum NoteCause {
    /// The tenancy's journal is full: it has 65,536 entries.
    JournalFull,
    /// The tenancy was never admitted, or was evicted.
    NoSuchTenancy,
}

/// A note that the core had no reply for that tenancy. Only the core makes notes.
#[derive(Drop)]
pub struct Note {
    pub(crate) id: u32,
    pub(crate) cause: NoteCause,
}

impl Model for Note {
    ghost use Rattle.service_core.specs.Receipt.{Noted};

    ghost Value = { Noted };

    ghost view = { λ n. record { id = n.id; cause = n.cause } };
}

impl Note {
    /// The id for which the call was made.
    pub fn id(&self) -> u32
        ensures { result ≡ self.now.id }
    {
        self.id
    }

    /// Why the core had no reply.
    pub fn cause(&self) -> NoteCause
        ensures { result ≡ self.now.cause }
    {
        self.cause
    }
}

/// Why a command has no receipt and no entry. Nothing changed.
#[derive(Drop)]
pub enum NotServed {
    NoMemory,
    JournalFull(Note),
    NoSuchTenancy(Note),
}

impl NotServed {
    ghost use Rattle.service_core.specs.Names.{not_served_number, not_served_text};

    /// The refusal's number in replies.
    pub fn number(&self) -> u32
        ensures { result ≡ not_served_number self.now }
    {
        match self {
            NotServed::NoMemory => 1,
            NotServed::JournalFull(_) => 2,
            NotServed::NoSuchTenancy(_) => 5,
        }
    }

    /// The refusal's name in replies.
    pub fn name(&self) -> &'static str
        ensures { result.now ≡ not_served_text self.now }
    {
        match self {
            NotServed::NoMemory => "NoMemory",
            NotServed::JournalFull(_) => "JournalFull",
            NotServed::NoSuchTenancy(_) => "NoSuchTenancy",
        }
    }
}
