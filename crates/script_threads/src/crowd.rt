//! Sessions on threads, beside the workers.

ghost use Rattle.std.specs.Prelude.{◌≡◌, ◌++◌, ◌∷◌, All, IfSome, IsSomeAnd, IsTrue, [], map};
ghost use Rattle.script_threads.specs.Prelude.{said_by};
ghost use Rattle.script_threads.specs.Parts.{started_by};
ghost use Rattle.script_threads.specs.Seats.{asked_by};
ghost use Rattle.script_threads.specs.Sessions.{asked_in};

use crate::part::{Part, evicted_part, run_part};
use crate::seated::Seated;
use job_queue::{Pass, Seat, a_pass};
use shared_core::{Begun, Share};
use std::alloc::AllocGlobal;
use std::snapshot::Snapshot;
use std::sync::Wait;
use std::sync::ledger::Ledger;
use std::thread;
use std::thread::{Promise, PromisedHandle, Scope, Threads};
use std::time::Clock;
use worker_pool::{Pool, join_workers, start_workers};

/// A session that was answered at once, or that runs on a thread of its own.
#[derive(Drop)]
enum Started<'t, C: Begun> {
    Answered(Part<'t, C>),
    Runs(PromisedHandle<Option<Part<'t, C>>, Kept<'t, C>>),
}

/// A thread's promise: the part that it returns is that session's.
#[derive(Drop)]
struct Kept<'t, C: Begun>(Snapshot<Seated<'t, C>>);

impl<'t, C: Begun> Promise<Option<Part<'t, C>>> for Kept<'t, C> {
    ghost use Rattle.std.specs.Prelude.{◌≡◌, IfSome};
    ghost use Rattle.script_threads.specs.Sessions.{asked_in};

    ghost kept_by = { λ p r. IfSome r (λ part. asked_in part ≡ p.0.value) };
}

/// Runs the sessions of live tenancies, each on a thread of its own, beside the workers, and
/// answers the others at once. When all sessions have ended the queue is closed, and the workers
/// end. None if memory ran out, or a thread couldn't be started: then too the sessions that were
/// started have run to their end.
pub(crate) fn run_crowd<
    't,
    C: Begun + Send + Sync,
    P: Ledger + Send + Sync,
    R: Threads + Wait + Clock + AllocGlobal + Sync,
>(
    pool: Pool<'_, R, C, P>,
    benches: (Vec<Seat>, Vec<Share<P>>),
    sessions: (Vec<Pass>, Vec<Seated<'t, C>>),
) -> Option<(Vec<Part<'t, C>>, Vec<Share<P>>)>
    requires seats { All (λ s. s.of ≡ pool.ready.now) benches.0.items }
    requires passes { All (λ p. p.of ≡ pool.ready.now) sessions.0.items }
    ensures { IfSome result (λ ended. map asked_in ended.0.items ≡ sessions.entry.1.items) }
{
    thread::scope(
        thread::scope_env(),
        pool.rt,
        move |scope| -> Option<(Vec<Part<C>>, Vec<Share<P>>)>
            requires seats { All (λ s. s.of ≡ pool.ready.now) benches.0.items }
            requires passes { All (λ p. p.of ≡ pool.ready.now) sessions.0.items }
            ensures { IfSome result (λ ended. map asked_in ended.0.items ≡ sessions.entry.1.items) }
        { run_in(scope, pool, benches, sessions) },
    )
}

/// Runs the sessions and workers within a scope for their threads.
fn run_in<
    's,
    't: 's,
    E,
    C: Begun + Send + Sync + 's,
    P: Ledger + Send + Sync + 's,
    R: Threads + Wait + Clock + AllocGlobal + Sync + 's,
>(
    scope: &Scope<'s, E>,
    pool: Pool<'s, R, C, P>,
    benches: (Vec<Seat>, Vec<Share<P>>),
    sessions: (Vec<Pass>, Vec<Seated<'t, C>>),
) -> Option<(Vec<Part<'t, C>>, Vec<Share<P>>)>
    requires seats { All (λ s. s.of ≡ pool.ready.now) benches.0.items }
    requires passes { All (λ p. p.of ≡ pool.ready.now) sessions.0.items }
    ensures { IfSome result (λ ended. map asked_in ended.0.items ≡ sessions.entry.1.items) }
{
    let alloc = pool.rt.alloc();
    let mut workers = Vec::new(alloc);
    let mut started = Vec::new(alloc);
    let (seats, shares) = benches;
    let (passes, seated) = sessions;
    let are_started = start_workers(scope, pool, seats, shares, &mut workers)
        && start_sessions(scope, pool, passes, seated, &mut started);
    let parts = join_sessions(pool.rt, started);
    pool.ready.close();
    let shares = join_workers(pool.rt, workers);
    if !are_started {
        return None;
    }
    Some((parts?, shares?))
}

/// Starts the sessions, and answers those of names that aren't live. Returns whether all were
/// started or answered.
fn start_sessions<
    's,
    't: 's,
    E,
    C: Begun + Send + Sync + 's,
    P: Ledger + Send + Sync + 's,
    R: Wait + AllocGlobal + Sync + 's,
>(
    scope: &Scope<'s, E>,
    pool: Pool<'s, R, C, P>,
    passes: Vec<Pass>,
    seated: Vec<Seated<'t, C>>,
    started: &mut Vec<Started<'t, C>>,
) -> bool
    requires { All (λ p. p.of ≡ pool.ready.now) passes.items }
    ensures { IsTrue result → map started_by started.new.items
        ≡ map started_by started.old.items ++ seated.entry.items }
{
    let mut passes = passes;
    for seat in seated {
        // A session that runs but isn't joined would find the queue closed, and its job would never
        // be stepped.
        if started.reserve(1).is_err() {
            return false;
        }
        let Some(pass) = a_pass(&mut passes, pool.ready) else {
            return false;
        };
        let Some(session) = start_session(scope, pool, pass, seat) else {
            return false;
        };
        started.push(session).unwrap();
    }
    true
}

/// Starts a session, or answers it if its name isn't live.
fn start_session<
    's,
    't: 's,
    E,
    C: Begun + Send + Sync + 's,
    P: Ledger + Send + Sync + 's,
    R: Wait + AllocGlobal + Sync + 's,
>(
    scope: &Scope<'s, E>,
    pool: Pool<'s, R, C, P>,
    pass: Pass,
    seat: Seated<'t, C>,
) -> Option<Started<'t, C>>
    requires { pass.of ≡ pool.ready.now }
    ensures { IfSome result (λ started. started_by started ≡ seat.entry) }
{
    let kept = Kept(Snapshot::of(&seat));
    let Seated { said, id, lease } = seat;
    match lease {
        Some(lease) => {
            let run = move || -> Option<Part<C>>
                requires of { pass.of ≡ pool.ready.now }
                requires new { lease.made ≡ 0 }
                ensures { IfSome result (λ part.
                    asked_in part ≡ asked_by (said_by said.entry) lease.id) }
            { run_part(pool, pass, said, lease) };
            Some(Started::Runs(scope.spawn_with(kept, run).ok()?))
        }
        None => Some(Started::Answered(evicted_part(pool.rt.alloc(), said, id).ok()?)),
    }
}

/// Joins the sessions, and returns their parts. None if a session has no part, or memory runs out.
fn join_sessions<'t, C: Begun, R: Threads + AllocGlobal>(
    rt: &R,
    started: Vec<Started<'t, C>>,
) -> Option<Vec<Part<'t, C>>>
    ensures { IfSome result (λ parts.
        map asked_in parts.items ≡ map started_by started.entry.items) }
{
    let mut parts = Vec::with_capacity(rt.alloc(), started.len()).ok();
    for session in started {
        let part = join_session(rt, session);
        parts = with_part(parts, part);
    }
    parts
}

/// The part of a session; if it runs on a thread, after the thread has ended. None if it has no
/// part.
fn join_session<'t, C: Begun, R: Threads>(rt: &R, session: Started<'t, C>) -> Option<Part<'t, C>>
    ensures { IfSome result (λ part. asked_in part ≡ started_by session.entry) }
{
    match session {
        Started::Answered(part) => Some(part),
        Started::Runs(thread) => thread.join(rt),
    }
}

/// The parts with one more.
fn with_part<'t, C: Begun>(
    parts: Option<Vec<Part<'t, C>>>,
    part: Option<Part<'t, C>>,
) -> Option<Vec<Part<'t, C>>>
    ensures { IfSome result (λ all.
        IsSomeAnd parts.entry (λ old.
        IsSomeAnd part.entry (λ p. all.items ≡ old.items ++ p ∷ []))) }
{
    let mut parts = parts?;
    parts.push(part?).ok()?;
    Some(parts)
}
