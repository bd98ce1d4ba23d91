//! A session that waits twice beside a worker. The worker holds the step, or gives each number up,
//! since its graph has no window for the job. Each `wait` is answered how the step ended, which is
//! so only if it waits, or that memory ran out, and the run ends.
ghost use Rattle.std.specs.Prelude.{◌≡◌, All, IfSome, false};

use crate::cores::other_graph;
use crate::gates::Holding;
use crate::seats::{Speaker, Worker, a_speaker, a_worker};
use crate::telling::{Told, run_over};
use job_queue::{Pass, Ready, Seat};
use shared_core::{Begun, Core, Share};
use std::alloc::AllocGlobal;
use std::sync::Wait;
use std::sync::ledger::Ledger;
use std::thread;
use std::thread::Threads;
use std::time::Clock;
use tenant_slot::StateName;
use transcripts::SessionEnd;
use worker_pool::{Pool, run_worker};

/// What the worker does.
#[derive(Clone, Copy)]
pub(crate) enum Work {
    /// It holds the step, and makes it.
    Held,
    /// It gives the number up.
    GivenUp,
}

impl Work {
    /// What the session is answered.
    fn reply_text(self) -> &'static [u8] {
        match self {
            Work::Held => b"ok Loaded\nok Packing\nstatus Packed 0\nstatus Packed 0\n",
            Work::GivenUp => b"ok Loaded\nok Packing\nrefused 1 NoMemory\nrefused 1 NoMemory\n",
        }
    }

    /// The number of answers that memory ran out.
    fn lacks(self) -> u64 {
        match self {
            Work::Held => 0,
            Work::GivenUp => 2,
        }
    }

    /// Whether the first tenancy is as it should be in the end: packed, or with no step made and
    /// its number nobody's.
    fn is_left<C: Begun, P: Ledger>(self, core: &mut Core<C, P>) -> bool {
        match self {
            Work::Held => core.state(1) == Some(StateName::Packed),
            Work::GivenUp => {
                core.state(1) == Some(StateName::Packing)
                    && core.entry(1, 2).is_none()
                    && core.mark_ready(1).is_some()
            }
        }
    }
}

/// What the session says.
const SAID: &str = "\
upload
.model t
.inputs a b
.outputs f
.names a b f
11 1
.
pack
wait
wait
";

/// What the threads hold before they start.
#[derive(Drop)]
struct Pair<C: Begun, P: Ledger> {
    speaker: Speaker<C>,
    worker: Worker<P>,
}

/// The session of the first tenancy, and a worker.
fn a_pair<C: Begun, P: Ledger>(
    core: &mut Core<C, P>,
    ready: &Ready,
    seats: &mut Vec<Seat>,
    passes: &mut Vec<Pass>,
) -> Option<Pair<C, P>>
    requires seats { All (λ s. s.of ≡ ready.now) seats.old.items }
    requires passes { All (λ p. p.of ≡ ready.now) passes.old.items }
    requires stay { C.stay ≡ false }
    ensures speaker { IfSome result (λ pair. (pair.speaker.pass.of ≡ ready.now)
        × (pair.speaker.lease.made ≡ 0)) }
    ensures worker { IfSome result (λ pair. pair.worker.seat.of ≡ ready.now) }
{
    if core.admit(1) != Ok((1, 0)) {
        return None;
    }
    match (
        a_speaker(core, ready, passes, 1, SAID),
        a_worker(core, ready, seats),
    ) {
        (Some(speaker), Some(worker)) => Some(Pair { speaker, worker }),
        _ => None,
    }
}

/// Whether each `wait` is answered as it should be, by a core without tenancies, beside an open
/// queue with a seat and a pass.
pub(crate) fn waits_are_told<
    C: Begun + Send + Sync,
    P: Ledger + Send + Sync,
    R: Threads + Wait + Clock + AllocGlobal + Sync,
>(pool: Pool<'_, R, C, P>, seats: &mut Vec<Seat>, passes: &mut Vec<Pass>, work: Work) -> bool
    requires seats { All (λ s. s.of ≡ pool.ready.now) seats.old.items }
    requires passes { All (λ p. p.of ≡ pool.ready.now) passes.old.items }
    requires stay { C.stay ≡ false }
{
    let core = &pool.shared.core;
    let pair = a_pair(&mut *core.lock(pool.rt), pool.ready, seats, passes);
    match pair {
        Some(pair) => are_told(pool, pair, work) && work.is_left(&mut *core.lock(pool.rt)),
        None => false,
    }
}

/// Whether each `wait` is answered as it should be. A worker that gives numbers up has the graph of
/// another device.
fn are_told<
    C: Begun + Send + Sync,
    P: Ledger + Send + Sync,
    R: Threads + Wait + Clock + AllocGlobal + Sync,
>(pool: Pool<'_, R, C, P>, pair: Pair<C, P>, work: Work) -> bool
    requires speaker { (pair.speaker.pass.of ≡ pool.ready.now) × (pair.speaker.lease.made ≡ 0) }
    requires worker { pair.worker.seat.of ≡ pool.ready.now }
{
    match work {
        Work::Held => is_told_beside(pool, pair, work),
        Work::GivenUp => is_told_elsewhere(pool, pair, work),
    }
}

/// Whether the session has its answers beside a worker that has the graph of another device.
fn is_told_elsewhere<
    C: Begun + Send + Sync,
    P: Ledger + Send + Sync,
    R: Threads + Wait + Clock + AllocGlobal + Sync,
>(pool: Pool<'_, R, C, P>, pair: Pair<C, P>, work: Work) -> bool
    requires speaker { (pair.speaker.pass.of ≡ pool.ready.now) × (pair.speaker.lease.made ≡ 0) }
    requires worker { pair.worker.seat.of ≡ pool.ready.now }
{
    match other_graph(pool.rt.alloc()) {
        Some(graph) => {
            let elsewhere = Pool {
                rt: pool.rt,
                shared: pool.shared,
                ready: pool.ready,
                graph: &graph,
            };
            let is_told = is_told_beside(elsewhere, pair, work);
            drop(graph);
            is_told
        }
        None => {
            drop(pair);
            false
        }
    }
}

/// Whether the session has its answers beside the worker.
fn is_told_beside<
    C: Begun + Send + Sync,
    P: Ledger + Send + Sync,
    R: Threads + Wait + Clock + AllocGlobal + Sync,
>(pool: Pool<'_, R, C, P>, pair: Pair<C, P>, work: Work) -> bool
    requires speaker { (pair.speaker.pass.of ≡ pool.ready.now) × (pair.speaker.lease.made ≡ 0) }
    requires worker { pair.worker.seat.of ≡ pool.ready.now }
{
    let Pair { speaker, worker } = pair;
    let holding = Holding::new();
    let gate = &holding;
    let (share, is_told) = thread::join(
        pool.rt,
        move || -> Share<P>
            requires { worker.seat.of ≡ pool.ready.now }
        { run_worker(pool, worker.seat, worker.share, gate) },
        move || -> bool
            requires { (speaker.pass.of ≡ pool.ready.now) × (speaker.lease.made ≡ 0) }
        { speaks(pool, speaker, work) },
    );
    drop(share);
    is_told
}

/// Runs the session, and closes the queue. Returns whether the session has its answers.
fn speaks<C: Begun, P: Ledger, R: Wait + AllocGlobal>(
    pool: Pool<'_, R, C, P>,
    speaker: Speaker<C>,
    work: Work,
) -> bool
    requires { (speaker.pass.of ≡ pool.ready.now) × (speaker.lease.made ≡ 0) }
{
    let Told { transcript, text } = run_over(pool, speaker);
    pool.ready.close();
    let is_told = text.as_slice() == work.reply_text()
        && transcript.no_memory() == work.lacks()
        && transcript.end() == Some(SessionEnd::Ended);
    drop(text);
    drop(transcript);
    is_told
}
