//! What a session and a worker hold for the counts.
ghost use Rattle.std.specs.Prelude.{◌≡◌};

use crate::begun::Begun;
use std::marker::Model;
use std::sync::ledger;
use std::sync::ledger::Ledger;

/// The right to enter marked commands of one tenancy, and the number of those that it entered. Only
/// the core makes it, and while the tenancies stay its tenancy is live.
pub struct Lease<C: Begun> {
    pub(crate) id: u32,
    pub(crate) part: ledger::Share<C>,
}

impl<C: Begun> Model for Lease<C> {
    ghost use Rattle.std.specs.Prelude.{◌≡◌, true};
    ghost use Rattle.shared_core.specs.CoreState.{LeaseState, is_live};

    ghost Value = { LeaseState };

    ghost view = { λ l. record { id = l.id; made = l.part.amount } };

    ghost invariant = { λ l. (l.part.parts ≡ 1)
        × (C.stay ≡ true → is_live C.begun.histories l.id ≡ true) };
}

impl<C: Begun> Drop for Lease<C> {
    fn drop(self) {
        let Lease { id: _, part: _ } = self;
    }
}

impl<C: Begun> Lease<C> {
    /// The tenancy of the lease.
    pub fn id(&self) -> u32
        ensures { result ≡ self.now.id }
    {
        self.id
    }

    /// Hands in the lease: its part of the ledger, with its count.
    pub fn into_part(self) -> ledger::Share<C>
        ensures parts { result.parts ≡ 1 }
        ensures amount { result.amount ≡ self.made }
    {
        let Lease { id: _, part } = self;
        part
    }
}

/// The number of recorded puts of one worker. Only the core makes it.
pub struct Share<P: Ledger> {
    pub(crate) part: ledger::Share<P>,
}

impl<P: Ledger> Model for Share<P> {
    ghost use Rattle.std.specs.Prelude.{◌≡◌};
    ghost use Rattle.shared_core.specs.CoreState.{ShareState};

    ghost Value = { ShareState };

    ghost view = { λ s. record { puts = s.part.amount } };

    ghost invariant = { λ s. s.part.parts ≡ 1 };
}

impl<P: Ledger> Drop for Share<P> {
    fn drop(self) {
        let Share { part: _ } = self;
    }
}

impl<P: Ledger> Share<P> {
    /// Hands in the share: its part of the ledger, with its count.
    pub fn into_part(self) -> ledger::Share<P>
        ensures parts { result.parts ≡ 1 }
        ensures amount { result.amount ≡ self.puts }
    {
        let Share { part } = self;
        part
    }
}
