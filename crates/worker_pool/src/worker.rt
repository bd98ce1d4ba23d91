//! A worker on its thread.
ghost use Rattle.std.specs.Prelude.{◌≡◌, ◌≤◌, ⊤, IfSome, MatchOption};
ghost use Rattle.job_state.specs.Job.{Steps};
ghost use Rattle.job_state.specs.JobValue.{basis_in};
ghost use Rattle.worker_pool.specs.Keeping.{IsNext, Keeps, PushesOrKeeps, kept_with as kept_of};

use crate::gate::Gate;
use crate::lack::{Kept, Served, one_more, pause};
use crate::pool::Pool;
use crate::turns::{Taken, give_back, put, take};
use job_queue::{Law, Popped, Ready, Seat};
use job_state::{AnyJob, Back, Done};
use service_core::window_for;
use shared_core::{Begun, Share};
use std::sync::Wait;
use std::sync::ledger::Ledger;
use std::time::Clock;
use strips::{DeviceGraph, Window};

/// Serves the numbers of the queue until it is closed and empty, and doesn't end before. Returns
/// its share, which counts the puts that were recorded. If its own deque refuses a number, or the
/// step of a number ran out of memory, that number is served next: after a pause if memory ran out,
/// and until it is given up.
pub fn run_worker<C: Begun, P: Ledger, G: Gate, J: Law, R: Wait + Clock>(
    pool: Pool<'_, R, C, P, J>,
    seat: Seat<J>,
    share: Share<P>,
    gate: &G,
) -> Share<P>
    requires { seat.of ≡ pool.ready.now }
    ensures puts { share.puts ≤ result.puts }
    ensures closed { J.closed }
{
    let mut seat = seat;
    let mut share = share;
    let mut kept = None;
    for _ in pool.rt.forever() {
        let Some(Kept { slot, lacks }) = next_number(pool.rt, pool.ready, &mut seat, kept) else {
            return share;
        };
        let served = serve(pool, &mut share, gate, slot, lacks);
        kept = keep_number(pool.rt, pool.ready, &mut seat, lacks, served);
    }
    unreachable!()
}

/// The number that was kept, or the next one of the queue. None if the queue is closed and empty.
fn next_number<J: Law, R: Wait>(
    rt: &R,
    ready: &Ready<J>,
    seat: &mut Seat<J>,
    kept: Option<Kept>,
) -> Option<Kept>
    requires { seat.old.of ≡ ready.now }
    ensures of { seat.new.of ≡ seat.old.of }
    ensures next { MatchOption result J.closed (λ next. IsNext kept next) }
{
    if let Some(kept) = kept {
        return Some(kept);
    }
    match ready.pop(rt, seat) {
        Popped::Number(slot) => Some(Kept { slot, lacks: 0 }),
        Popped::Closed => None,
    }
}

/// What is kept after a number was served: a number that isn't pushed to the worker's own deque, or
/// one whose step ran out of memory, after a pause. `lacks` steps in a row ran out of memory
/// before.
fn keep_number<J: Law, R: Wait + Clock>(
    rt: &R,
    ready: &Ready<J>,
    seat: &mut Seat<J>,
    lacks: u32,
    served: Served,
) -> Option<Kept>
    requires { seat.old.of ≡ ready.now }
    ensures of { seat.new.of ≡ seat.old.of }
    ensures keeps { Keeps seat.old lacks served result seat.new }
{
    match served {
        Served::Nothing => None,
        Served::Made(next) => kept_with(0, push_next(rt, ready, seat, next)),
        Served::NoMemory(again) => {
            pause(rt, lacks);
            kept_with(one_more(lacks), again)
        }
    }
}

/// A number with its count, if there is a number.
fn kept_with(lacks: u32, number: Option<u32>) -> Option<Kept>
    ensures { result ≡ kept_of lacks number }
{
    Some(Kept {
        slot: number?,
        lacks,
    })
}

/// Serves a number: takes the next step of the job of its tenancy and reads the offset of its
/// strip, makes the step without the lock through the window there, and puts it. A job that doesn't
/// fit the graph is given back. `lacks` steps in a row ran out of memory before this one.
fn serve<C: Begun, P: Ledger, G: Gate, J: Law, R: Wait>(
    pool: Pool<'_, R, C, P, J>,
    share: &mut Share<P>,
    gate: &G,
    slot: u32,
    lacks: u32,
) -> Served
    ensures { share.old.puts ≤ share.new.puts }
{
    let taken = take(&mut *pool.shared.core.lock(pool.rt), slot);
    let Some(Taken { job, offset }) = taken else {
        return Served::Nothing;
    };
    let served = match window_at(pool.graph, &job, offset) {
        Some(window) => step_and_put(pool, share, gate, job, &window, lacks),
        None => {
            pool.shared.core.lock(pool.rt).give_back(job.into_back());
            Served::Nothing
        }
    };
    pool.shared.changed.notify_all();
    served
}

/// The window for a job's step, at the offset of its strip.
fn window_at<'g>(graph: &'g DeviceGraph, job: &AnyJob, offset: Option<u32>) -> Option<Window<'g>>
    ensures { IfSome result (λ window. window ≡ basis_in job.now.step.sources) }
{
    window_for(job, graph, offset?)
}

/// Makes a step through its window without the lock, and puts it. If memory runs out the job is
/// given back.
fn step_and_put<C: Begun, P: Ledger, G: Gate, J: Law, R: Wait>(
    pool: Pool<'_, R, C, P, J>,
    share: &mut Share<P>,
    gate: &G,
    job: AnyJob,
    window: &Window<'_>,
    lacks: u32,
) -> Served
    requires { window.now ≡ basis_in job.step.sources }
    ensures { share.old.puts ≤ share.new.puts }
{
    match make_step(gate, job, window) {
        Ok(done) => put(&mut *pool.shared.core.lock(pool.rt), share, done, lacks),
        Err(back) => give_back(&mut *pool.shared.core.lock(pool.rt), back, lacks),
    }
}

/// Makes a step, and calls the gate before and after it.
fn make_step<G: Gate>(gate: &G, job: AnyJob, window: &Window<'_>) -> Result<Done, Back>
    requires { window.now ≡ basis_in job.step.sources }
    ensures { Steps job result }
{
    gate.before(&job);
    let stepped = job.step(window);
    gate.after(&stepped);
    stepped
}

/// Pushes a number. A number that isn't pushed is returned.
fn push_next<J: Law, R: Wait>(
    rt: &R,
    ready: &Ready<J>,
    seat: &mut Seat<J>,
    next: Option<u32>,
) -> Option<u32>
    requires { seat.old.of ≡ ready.now }
    ensures of { seat.new.of ≡ seat.old.of }
    ensures pushed { PushesOrKeeps seat.old next result seat.new }
{
    match ready.push_own(rt, seat, next?) {
        Ok(()) => None,
        Err(back) => Some(back.slot),
    }
}
