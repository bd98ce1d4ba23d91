//! Workers on threads.
ghost use Rattle.std.specs.Prelude.{◌≡◌, All};

use crate::gate::Open;
use crate::pool::Pool;
use crate::worker::run_worker;
use job_queue::{Seat, a_seat};
use shared_core::{Begun, Share};
use std::alloc::AllocGlobal;
use std::sync::Wait;
use std::sync::ledger::Ledger;
use std::thread::{JoinHandle, Scope, Threads};
use std::time::Clock;

/// A worker's thread.
pub type Worker<P> = JoinHandle<Share<P>>;

/// Starts the workers. Returns whether all were started.
pub fn start_workers<
    's,
    E,
    C: Begun + Send + Sync + 's,
    P: Ledger + Send + Sync + 's,
    R: Wait + Clock + Sync + 's,
>(
    scope: &Scope<'s, E>,
    pool: Pool<'s, R, C, P>,
    seats: Vec<Seat>,
    shares: Vec<Share<P>>,
    started: &mut Vec<Worker<P>>,
) -> bool
    requires { All (λ s. s.of ≡ pool.ready.now) seats.items }
{
    let mut seats = seats;
    for share in shares {
        if started.reserve(1).is_err() {
            return false;
        }
        let Some(seat) = a_seat(&mut seats, pool.ready) else {
            return false;
        };
        let Ok(worker) = scope.spawn(move || run_worker(pool, seat, share, &Open)) else {
            return false;
        };
        started.push(worker).unwrap();
    }
    true
}

/// Joins the workers, and returns their shares. None if memory runs out.
pub fn join_workers<P: Ledger, R: Threads + AllocGlobal>(
    rt: &R,
    workers: Vec<Worker<P>>,
) -> Option<Vec<Share<P>>> {
    let mut shares = Vec::with_capacity(rt.alloc(), workers.len()).ok();
    for worker in workers {
        let share = worker.join(rt);
        shares = with_share(shares, share);
    }
    shares
}

/// The shares with one more.
fn with_share<P: Ledger>(shares: Option<Vec<Share<P>>>, share: Share<P>) -> Option<Vec<Share<P>>> {
    let mut shares = shares?;
    shares.push(share).ok()?;
    Some(shares)
}
