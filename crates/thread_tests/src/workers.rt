//! Workers that serve a closed queue with the numbers of two tenancies, each of which has begun to
//! place.
ghost use Rattle.std.specs.Prelude.{◌≡◌, All, IfSome, false};

use crate::cores::begin_placing;
use crate::gates::{Counting, Meeting, Watched, is_raised};
use crate::seats::{Worker, a_worker};
use crate::showing::Worked;
use job_queue::{Pass, Popped, Ready, Seat, a_pass};
use shared_core::{Begun, Core, Share};
use std::alloc::AllocGlobal;
use std::sync::Wait;
use std::sync::atomic::Ordering::SeqCst;
use std::sync::ledger::Ledger;
use std::thread;
use std::thread::Threads;
use std::time::Clock;
use strips::DeviceGraph;
use tenant_slot::StateName;
use worker_pool::{Pool, run_worker};

/// Whether a tenancy begins to place, and its number is pushed.
fn is_pushed<C: Begun, P: Ledger, R: Wait + AllocGlobal>(
    rt: &R,
    core: &mut Core<C, P>,
    graph: &DeviceGraph,
    ready: &Ready,
    pass: &mut Pass,
    id: u32,
) -> bool
    requires pass { pass.old.of ≡ ready.now }
    requires stay { C.stay ≡ false }
    ensures { pass.new.of ≡ pass.old.of }
{
    match begin_placing(rt.alloc(), core, graph, id) {
        Some(slot) => ready.push(rt, pass, slot).is_ok(),
        None => false,
    }
}

/// Whether two tenancies begin to place, and the queue is closed with their numbers.
fn both_begin<C: Begun, P: Ledger, R: Wait + AllocGlobal>(
    rt: &R,
    core: &mut Core<C, P>,
    graph: &DeviceGraph,
    ready: &Ready,
    passes: &mut Vec<Pass>,
) -> bool
    requires passes { All (λ p. p.of ≡ ready.now) passes.old.items }
    requires stay { C.stay ≡ false }
{
    match a_pass(passes, ready) {
        Some(mut pass) => {
            let are_pushed = is_pushed(rt, core, graph, ready, &mut pass, 1)
                && is_pushed(rt, core, graph, ready, &mut pass, 2);
            drop(pass);
            ready.close();
            are_pushed
        }
        None => false,
    }
}

fn two_workers<C: Begun, P: Ledger>(
    core: &mut Core<C, P>,
    ready: &Ready,
    seats: &mut Vec<Seat>,
) -> Option<(Worker<P>, Worker<P>)>
    requires { All (λ s. s.of ≡ ready.now) seats.old.items }
    ensures { IfSome result (λ both. (both.0.seat.of ≡ ready.now) × (both.1.seat.of ≡ ready.now)) }
{
    match (a_worker(core, ready, seats), a_worker(core, ready, seats)) {
        (Some(one), Some(other)) => Some((one, other)),
        _ => None,
    }
}

/// Closes the queue with the numbers of two tenancies, which begin to place, and seats two workers
/// to serve it.
fn set_up<C: Begun, P: Ledger, R: Wait + AllocGlobal>(
    pool: Pool<'_, R, C, P>,
    seats: &mut Vec<Seat>,
    passes: &mut Vec<Pass>,
) -> Option<(Worker<P>, Worker<P>)>
    requires seats { All (λ s. s.of ≡ pool.ready.now) seats.old.items }
    requires passes { All (λ p. p.of ≡ pool.ready.now) passes.old.items }
    requires stay { C.stay ≡ false }
    ensures { IfSome result (λ both. (both.0.seat.of ≡ pool.entry.ready.now)
        × (both.1.seat.of ≡ pool.entry.ready.now)) }
{
    let core = &pool.shared.core;
    if both_begin(
        pool.rt,
        &mut *core.lock(pool.rt),
        pool.graph,
        pool.ready,
        passes,
    ) {
        two_workers(&mut *core.lock(pool.rt), pool.ready, seats)
    } else {
        None
    }
}

/// Whether that is shown by a core without tenancies, beside an open queue with two seats and a
/// pass.
pub(crate) fn is_worked<
    C: Begun + Send + Sync,
    P: Ledger + Send + Sync,
    R: Threads + Wait + Clock + AllocGlobal + Sync,
>(pool: Pool<'_, R, C, P>, seats: &mut Vec<Seat>, passes: &mut Vec<Pass>, worked: Worked) -> bool
    requires seats { All (λ s. s.of ≡ pool.ready.now) seats.old.items }
    requires passes { All (λ p. p.of ≡ pool.ready.now) passes.old.items }
    requires stay { C.stay ≡ false }
{
    match set_up(pool, seats, passes) {
        Some((one, other)) => {
            works(pool, one, other, worked) && are_placed(&mut *pool.shared.core.lock(pool.rt))
        }
        None => false,
    }
}

/// Whether both tenancies are placed, and the first can be evicted.
fn are_placed<C: Begun, P: Ledger>(core: &mut Core<C, P>) -> bool
    requires { C.stay ≡ false }
{
    is_placed(core, 1) && is_placed(core, 2) && core.evict(1) == Ok(())
}

/// Whether that is shown.
fn works<C: Begun + Send + Sync, P: Ledger + Send + Sync, R: Threads + Wait + Clock + Sync>(
    pool: Pool<'_, R, C, P>,
    one: Worker<P>,
    other: Worker<P>,
    worked: Worked,
) -> bool
    requires one { one.seat.of ≡ pool.ready.now }
    requires other { other.seat.of ≡ pool.ready.now }
{
    match worked {
        Worked::DrainsAClosedQueue => drains(pool, one, other),
        Worked::TwoStepsAtOnce => two_at_once(pool, one, other),
        Worked::OneStepStolen => one_stolen(pool, one, other),
        Worked::StepWithoutTheLock => without_lock(pool, one, other),
    }
}

/// Whether that tenancy is placed, by three steps: entries 4 to 6 of its journal.
fn is_placed<C: Begun, P: Ledger>(core: &Core<C, P>, id: u32) -> bool {
    core.state(id) == Some(StateName::Placed)
        && core.entry(id, 6).is_some()
        && core.entry(id, 7).is_none()
}

/// Whether one worker alone makes six steps. It ends only if it finds the queue closed. The count
/// of its share exists only in proofs, so the steps are counted here, and their six entries are
/// looked up in the journals.
fn drains<C: Begun, P: Ledger, R: Wait + Clock>(
    pool: Pool<'_, R, C, P>,
    one: Worker<P>,
    other: Worker<P>,
) -> bool
    requires { one.seat.of ≡ pool.ready.now }
{
    drop(other);
    let counting = Counting::new();
    let share = run_worker(pool, one.seat, one.share, &counting);
    drop(share);
    counting.steps_made() == 6
}

/// Whether two workers step two tenancies at once.
fn two_at_once<C: Begun + Send + Sync, P: Ledger + Send + Sync, R: Threads + Wait + Clock + Sync>(
    pool: Pool<'_, R, C, P>,
    one: Worker<P>,
    other: Worker<P>,
) -> bool
    requires one { one.seat.of ≡ pool.ready.now }
    requires other { other.seat.of ≡ pool.ready.now }
{
    let meeting = Meeting::new();
    let gate = &meeting;
    let shares = thread::join(
        pool.rt,
        move || -> Share<P>
            requires { one.seat.of ≡ pool.ready.now }
        { run_worker(pool, one.seat, one.share, gate) },
        move || -> Share<P>
            requires { other.seat.of ≡ pool.ready.now }
        { run_worker(pool, other.seat, other.share, gate) },
    );
    drop(shares);
    meeting.took_place()
}

/// Whether two workers step two tenancies at once, both of whose numbers the first has pushed.
fn one_stolen<C: Begun + Send + Sync, P: Ledger + Send + Sync, R: Threads + Wait + Clock + Sync>(
    pool: Pool<'_, R, C, P>,
    one: Worker<P>,
    other: Worker<P>,
) -> bool
    requires one { one.seat.of ≡ pool.ready.now }
    requires other { other.seat.of ≡ pool.ready.now }
{
    let Worker { mut seat, share } = one;
    let has_both = takes_both(pool.rt, pool.ready, &mut seat);
    let one = Worker { seat, share };
    two_at_once(pool, one, other) && has_both
}

/// Pops two numbers, and pushes them to the worker's own deque.
fn takes_both<R: Wait>(rt: &R, ready: &Ready, seat: &mut Seat) -> bool
    requires { seat.old.of ≡ ready.now }
    ensures { seat.new.of ≡ seat.old.of }
{
    match (ready.pop(rt, seat), ready.pop(rt, seat)) {
        (Popped::Number(first), Popped::Number(second)) => {
            ready.push_own(rt, seat, first).is_ok() && ready.push_own(rt, seat, second).is_ok()
        }
        _ => false,
    }
}

/// Whether a step is made while another thread holds the lock.
fn without_lock<C: Begun + Send + Sync, P: Ledger + Send + Sync, R: Threads + Wait + Clock + Sync>(
    pool: Pool<'_, R, C, P>,
    one: Worker<P>,
    other: Worker<P>,
) -> bool
    requires { one.seat.of ≡ pool.ready.now }
{
    drop(other);
    let watched = Watched::new();
    let gate = &watched;
    let (share, is_held) = thread::join(
        pool.rt,
        move || -> Share<P>
            requires { one.seat.of ≡ pool.ready.now }
        { run_worker(pool, one.seat, one.share, gate) },
        move || -> bool { holds_the_lock(pool, gate) },
    );
    drop(share);
    is_held && watched.was_unlocked()
}

/// Takes the lock once the step begins, and holds it until it is made.
fn holds_the_lock<C: Begun, P: Ledger, R: Wait>(
    pool: Pool<'_, R, C, P>,
    watched: &Watched,
) -> bool {
    let has_begun = is_raised(&watched.begins);
    let core = pool.shared.core.lock(pool.rt);
    watched.is_locked.store(1, SeqCst);
    let is_made = is_raised(&watched.is_made);
    drop(core);
    has_begun && is_made
}
