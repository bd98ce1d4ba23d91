//! What workers and sessions hold.
ghost use Rattle.std.specs.Prelude.{◌≡◌, All, IfSome};

use job_queue::{Pass, Ready, Seat, a_pass, a_seat};
use shared_core::{Begun, Core, Lease, Share};
use std::sync::ledger::Ledger;

/// What a worker holds.
#[derive(Drop)]
pub(crate) struct Worker<P: Ledger> {
    pub(crate) seat: Seat,
    pub(crate) share: Share<P>,
}

/// A worker with a seat and a share. None if there are no more.
pub(crate) fn a_worker<C: Begun, P: Ledger>(
    core: &mut Core<C, P>,
    ready: &Ready,
    seats: &mut Vec<Seat>,
) -> Option<Worker<P>>
    requires { All (λ s. s.of ≡ ready.now) seats.old.items }
    ensures rest { All (λ s. s.of ≡ ready.now) seats.new.items }
    ensures of { IfSome result (λ w. w.seat.of ≡ ready.now) }
{
    match (a_seat(seats, ready), core.share()) {
        (Some(seat), Some(share)) => Some(Worker { seat, share }),
        _ => None,
    }
}

/// What a session holds, and what it says.
#[derive(Drop)]
pub(crate) struct Speaker<C: Begun> {
    pub(crate) pass: Pass,
    pub(crate) lease: Lease<C>,
    pub(crate) input: &'static str,
}

/// The session of a tenancy, which says that.
pub(crate) fn a_speaker<C: Begun, P: Ledger>(
    core: &mut Core<C, P>,
    ready: &Ready,
    passes: &mut Vec<Pass>,
    id: u32,
    input: &'static str,
) -> Option<Speaker<C>>
    requires { All (λ p. p.of ≡ ready.now) passes.old.items }
    ensures rest { All (λ p. p.of ≡ ready.now) passes.new.items }
    ensures of { IfSome result (λ s. (s.pass.of ≡ ready.now) × (s.lease.made ≡ 0)) }
{
    match (a_pass(passes, ready), core.lease(id)) {
        (Some(pass), Some(lease)) => Some(Speaker { pass, lease, input }),
        _ => None,
    }
}
