//! Compares all answers with all journals.
ghost use Rattle.std.specs.Prelude.{◌≡◌, All, IfErr, IfOk, MatchOption, length, true};
ghost use Rattle.shared_core.specs.Following.{Follows, Stays};
ghost use Rattle.settling.specs.Settling.{AreAllCalls, AreAllThere, IsBorneOut, IsCause, IsFullIfTold, IsSettled, claims_of};

use crate::comparing::{first_mismatch, has_each_lease};
use crate::counting::{merge_leases, merge_shares};
use crate::filling::first_not_full;
use crate::not_settled::{Cause, NotSettled};
use service_core::Service;
use shared_core::{Begun, Core, LeaseMarks, Share};
use std::marker::Model;
use std::sync::ledger::Ledger;
use transcripts::Transcript;

/// All answers are settled: the service, and the marks of the entries by which its journals were
/// compared. Only `settle` makes it.
pub struct Settled {
    service: Service,
    marks: Vec<LeaseMarks>,
}

impl Model for Settled {
    ghost use Rattle.settling.specs.Settling.{SettledState};

    ghost Value = { SettledState };

    ghost view = { λ s. record { service = s.service; marks = s.marks.items } };
}

impl Drop for Settled {
    fn drop(self) {
        let Settled {
            service: _,
            marks: _,
        } = self;
    }
}

impl Settled {
    /// The service, whose journals agree with all answers.
    pub fn service(&self) -> &Service
        ensures { result.now ≡ self.now.service }
    {
        &self.service
    }

    /// The service, for later calls.
    pub fn into_service(self) -> Service
        ensures { result ≡ self.service }
    {
        let Settled { service, marks } = self;
        drop(marks);
        service
    }
}

/// Compares each receipt with its journal, once all threads have ended. Takes no memory.
pub fn settle<C: Begun, P: Ledger>(
    core: Core<C, P>,
    transcripts: Vec<Transcript<C>>,
    shares: Vec<Share<P>>,
) -> Result<Settled, NotSettled<C, P>>
    ensures service { IfOk result (λ s. s ≡ record { service = core.service; marks = core.marks }) }
    ensures settled { IfOk result (λ s. IsSettled C.begun core transcripts.items shares.items) }
    ensures follows { IfOk result (λ s. Follows C.begun s.service) }
    ensures stays { IfOk result (λ s. C.stay ≡ true → Stays C.begun s.service) }
    ensures calls { IfOk result (λ s. C.stay ≡ true → AreAllCalls C.begun s.service transcripts.items) }
    ensures cause { IfErr result (λ e. IsCause core transcripts.items (length shares.items)
        e.cause) }
    ensures back { IfErr result (λ e. (e.core ≡ core) × (e.transcripts.items ≡ transcripts.items)
        × (e.shares.items ≡ shares.items)) }
{
    if let Some(cause) = first_cause(&core, &transcripts, shares.len()) {
        return Err(NotSettled {
            cause,
            core,
            transcripts,
            shares,
        });
    }
    let mut core = core;
    let nothing = core.no_commands();
    let no_puts = core.no_puts();
    let commands = merge_leases(transcripts, nothing);
    let puts = merge_shares(shares, no_puts);
    let (service, marks) = core.close(commands, puts);
    Ok(Settled { service, marks })
}

/// Why the answers aren't settled. None if they are.
fn first_cause<C: Begun, P: Ledger>(
    core: &Core<C, P>,
    transcripts: &[Transcript<C>],
    shares: usize,
) -> Option<Cause>
    ensures { MatchOption result
        (AreAllThere core.now transcripts.now shares
        × All (IsBorneOut core.now) (claims_of transcripts.now)
        × All (IsFullIfTold core.now.service) transcripts.now)
        (λ cause. IsCause core.now transcripts.now shares cause) }
{
    if !has_each_lease(core, transcripts) || shares < core.shares_given() as usize {
        return Some(Cause::Missing);
    }
    match first_mismatch(core, transcripts) {
        Some((id, place)) => Some(Cause::Mismatch { id, place }),
        None => match first_not_full(core, transcripts) {
            Some(id) => Some(Cause::NotFull { id }),
            None => None,
        },
    }
}
