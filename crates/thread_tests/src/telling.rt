//! Sessions over memory beside workers, each on a thread of its own.
ghost use Rattle.std.specs.Prelude.{◌≡◌, All};

use crate::seats::{Speaker, Worker};
use line_text::{MemorySink, MemorySource};
use session_threads::{Context, run_session};
use shared_core::{Begun, Share};
use std::alloc::{AllocError, AllocGlobal};
use std::sync::Wait;
use std::sync::ledger::Ledger;
use std::thread;
use std::thread::Threads;
use std::time::Clock;
use transcripts::Transcript;
use worker_pool::{Gate, Pool, run_worker};

/// How a session ended, with its transcript, and what was written.
#[derive(Drop)]
pub(crate) struct Told<C: Begun> {
    pub(crate) transcript: Transcript<C>,
    pub(crate) text: Vec<u8>,
}

/// How sessions ended, in order. An error if memory runs out.
pub(crate) type AllTold<C> = Result<Vec<Told<C>>, AllocError>;

/// The shares of workers. An error if memory runs out.
pub(crate) type Shares<P> = Result<Vec<Share<P>>, AllocError>;

/// Runs a session over memory.
pub(crate) fn run_over<C: Begun, P: Ledger, R: Wait + AllocGlobal>(
    pool: Pool<'_, R, C, P>,
    speaker: Speaker<C>,
) -> Told<C>
    requires { (speaker.pass.of ≡ pool.ready.now) × (speaker.lease.made ≡ 0) }
{
    let Speaker { pass, lease, input } = speaker;
    let mut reader = MemorySource::new(input.as_bytes());
    let mut writer = MemorySink::new(pool.rt.alloc());
    let context = Context {
        rt: pool.rt,
        shared: pool.shared,
        ready: pool.ready,
    };
    let transcript = run_session(context, pass, lease, &mut reader, &mut writer);
    Told {
        transcript,
        text: writer.into_bytes(),
    }
}

/// Runs sessions, and closes the queue when all have ended.
fn run_sessions<
    C: Begun + Send + Sync,
    P: Ledger + Send + Sync,
    R: Threads + Wait + Clock + AllocGlobal + Sync,
>(pool: Pool<'_, R, C, P>, speakers: Vec<Speaker<C>>) -> AllTold<C>
    requires { All (λ s. (s.pass.of ≡ pool.ready.now) × (s.lease.made ≡ 0)) speakers.items }
{
    let told = thread::map_vec(
        pool.rt,
        speakers,
        &move |speaker: Speaker<C>| -> Told<C>
            requires { (speaker.pass.of ≡ pool.ready.now) × (speaker.lease.made ≡ 0) }
        { run_over(pool, speaker) },
    );
    pool.ready.close();
    told
}

/// Runs workers, until the queue is closed and empty.
fn run_workers<
    C: Begun + Send + Sync,
    P: Ledger + Send + Sync,
    G: Gate + Sync,
    R: Threads + Wait + Clock + Sync,
>(pool: Pool<'_, R, C, P>, workers: Vec<Worker<P>>, gate: &G) -> Shares<P>
    requires { All (λ w. w.seat.of ≡ pool.ready.now) workers.items }
{
    thread::map_vec(
        pool.rt,
        workers,
        &move |worker: Worker<P>| -> Share<P>
            requires { worker.seat.of ≡ pool.ready.now }
        { run_worker(pool, worker.seat, worker.share, gate) },
    )
}

/// Runs sessions beside workers, until all have ended.
pub(crate) fn run_together<
    C: Begun + Send + Sync,
    P: Ledger + Send + Sync,
    G: Gate + Sync,
    R: Threads + Wait + Clock + AllocGlobal + Sync,
>(
    pool: Pool<'_, R, C, P>,
    speakers: Vec<Speaker<C>>,
    workers: Vec<Worker<P>>,
    gate: &G,
) -> (AllTold<C>, Shares<P>)
    requires speakers { All (λ s. (s.pass.of ≡ pool.ready.now) × (s.lease.made ≡ 0))
        speakers.items }
    requires workers { All (λ w. w.seat.of ≡ pool.ready.now) workers.items }
{
    thread::join(
        pool.rt,
        move || -> AllTold<C>
            requires { All (λ s. (s.pass.of ≡ pool.ready.now) × (s.lease.made ≡ 0))
                speakers.items }
        { run_sessions(pool, speakers) },
        move || -> Shares<P>
            requires { All (λ w. w.seat.of ≡ pool.ready.now) workers.items }
        { run_workers(pool, workers, gate) },
    )
}
