//! Four sessions beside workers that hold each step for a million turns. Each has the replies that
//! it has alone, which is so only if each `wait` waits for the step. `settle` then compares the
//! receipts with the journals.
ghost use Rattle.std.specs.Prelude.{◌≡◌, All, false};

use crate::conversations::{Conversation, FOUR, OWNED};
use crate::gates::Holding;
use crate::seats::{Speaker, Worker, a_speaker, a_worker};
use crate::telling::{AllTold, Shares, Told, run_together};
use job_queue::{Pass, Ready, Seat};
use service_core::Service;
use settling::settle;
use shared_core::{Begun, Core, Share, Shared};
use std::alloc::{AllocGlobal, Global};
use std::sync::Wait;
use std::sync::ledger::Ledger;
use std::thread::Threads;
use std::time::Clock;
use strips::DeviceGraph;
use transcripts::{SessionEnd, Transcript};
use worker_pool::Pool;

/// What the threads hold before they start.
#[derive(Drop)]
struct Crew<C: Begun, P: Ledger> {
    speakers: Vec<Speaker<C>>,
    workers: Vec<Worker<P>>,
}

/// Admits a tenancy, and seats its session. Returns whether it did.
fn is_seated<C: Begun, P: Ledger>(
    core: &mut Core<C, P>,
    ready: &Ready,
    passes: &mut Vec<Pass>,
    conversation: &Conversation,
    speakers: &mut Vec<Speaker<C>>,
) -> bool
    requires passes { All (λ p. p.of ≡ ready.now) passes.old.items }
    requires speakers { All (λ s. (s.pass.of ≡ ready.now) × (s.lease.made ≡ 0)) speakers.old.items }
    requires stay { C.stay ≡ false }
    ensures passes { All (λ p. p.of ≡ ready.now) passes.new.items }
    ensures speakers { All (λ s. (s.pass.of ≡ ready.now) × (s.lease.made ≡ 0)) speakers.new.items }
{
    let id = match core.admit(conversation.width) {
        Ok((id, _)) => id,
        Err(_) => 0,
    };
    match a_speaker(core, ready, passes, id, conversation.said) {
        Some(speaker) => speakers.push(speaker).is_ok(),
        None => false,
    }
}

/// Seats the four sessions. Returns whether it did.
fn four_are_seated<C: Begun, P: Ledger>(
    core: &mut Core<C, P>,
    ready: &Ready,
    passes: &mut Vec<Pass>,
    speakers: &mut Vec<Speaker<C>>,
) -> bool
    requires passes { All (λ p. p.of ≡ ready.now) passes.old.items }
    requires speakers { All (λ s. (s.pass.of ≡ ready.now) × (s.lease.made ≡ 0)) speakers.old.items }
    requires stay { C.stay ≡ false }
    ensures { All (λ s. (s.pass.of ≡ ready.now) × (s.lease.made ≡ 0)) speakers.new.items }
{
    let mut are_seated = true;
    for conversation in FOUR.iter() {
        are_seated &= is_seated(core, ready, passes, conversation, speakers);
    }
    are_seated
}

/// Seats `count` workers. Returns whether it did.
fn workers_are_seated<C: Begun, P: Ledger>(
    core: &mut Core<C, P>,
    ready: &Ready,
    seats: &mut Vec<Seat>,
    workers: &mut Vec<Worker<P>>,
    count: usize,
) -> bool
    requires seats { All (λ s. s.of ≡ ready.now) seats.old.items }
    requires workers { All (λ w. w.seat.of ≡ ready.now) workers.old.items }
    ensures { All (λ w. w.seat.of ≡ ready.now) workers.new.items }
{
    let mut are_seated = true;
    for _ in 0..count {
        are_seated &= match a_worker(core, ready, seats) {
            Some(worker) => workers.push(worker).is_ok(),
            None => false,
        };
    }
    are_seated
}

/// Whether the four sessions have beside `count` workers the replies that they have alone. The core
/// has no tenancies.
pub(crate) fn tells_the_same<
    C: Begun + Send + Sync,
    P: Ledger + Send + Sync,
    R: Threads + Wait + Clock + AllocGlobal + Sync,
>(rt: &R, core: Core<C, P>, graph: &DeviceGraph, count: usize) -> bool
    requires { C.stay ≡ false }
{
    let alloc = rt.alloc();
    let mut core = core;
    match Ready::new(alloc, count, FOUR.len()) {
        Ok((ready, mut seats, mut passes)) => {
            let mut speakers = Vec::new(alloc);
            let mut workers = Vec::new(alloc);
            let are_seated = four_are_seated(&mut core, &ready, &mut passes, &mut speakers)
                && workers_are_seated(&mut core, &ready, &mut seats, &mut workers, count);
            drop(seats);
            drop(passes);
            let crew = Crew { speakers, workers };
            are_told(rt, core, graph, &ready, crew) && are_seated
        }
        Err(_) => {
            drop(core);
            false
        }
    }
}

/// Whether the sessions of a crew have the replies of the four.
fn are_told<
    C: Begun + Send + Sync,
    P: Ledger + Send + Sync,
    R: Threads + Wait + Clock + AllocGlobal + Sync,
>(rt: &R, core: Core<C, P>, graph: &DeviceGraph, ready: &Ready, crew: Crew<C, P>) -> bool
    requires speakers { All (λ s. (s.pass.of ≡ ready.now) × (s.lease.made ≡ 0))
        crew.speakers.items }
    requires workers { All (λ w. w.seat.of ≡ ready.now) crew.workers.items }
{
    let Crew { speakers, workers } = crew;
    let shared = Shared::new(core);
    let holding = Holding::new();
    let pool = Pool {
        rt,
        shared: &shared,
        ready,
        graph,
    };
    let (told, shares) = run_together(pool, speakers, workers, &holding);
    is_settled(rt.alloc(), shared.into_core(), told, shares)
}

/// Whether the sessions have the replies of the four, and the receipts agree with the journals.
fn is_settled<C: Begun, P: Ledger>(
    alloc: Global,
    core: Core<C, P>,
    told: AllTold<C>,
    shares: Shares<P>,
) -> bool {
    match (told, shares) {
        (Ok(told), Ok(shares)) => {
            let are_told = tell_the_four(told.as_slice());
            let mut transcripts = Vec::new(alloc);
            let are_parted = are_parted(told, &mut transcripts);
            settles(core, transcripts, shares) && are_told && are_parted
        }
        _ => {
            drop(core);
            false
        }
    }
}

/// Whether the sessions ended, and have the replies of the four.
fn tell_the_four<C: Begun>(told: &[Told<C>]) -> bool {
    let mut are_told = told.len() == FOUR.len();
    for (conversation, one) in FOUR.iter().zip(told) {
        are_told &= is_told(conversation, one);
    }
    are_told
}

/// Whether a session ended, and has these replies.
fn is_told<C: Begun>(conversation: &Conversation, one: &Told<C>) -> bool {
    conversation.told.as_bytes() == one.text.as_slice()
        && one.transcript.end() == Some(SessionEnd::Ended)
        && one.transcript.no_memory() == 0
}

/// Takes the transcripts apart from what was written. Returns whether it did.
fn are_parted<C: Begun>(told: Vec<Told<C>>, transcripts: &mut Vec<Transcript<C>>) -> bool {
    let mut are_all = true;
    for one in told {
        let Told { transcript, text } = one;
        drop(text);
        are_all &= transcripts.push(transcript).is_ok();
    }
    are_all
}

/// Whether the receipts agree with the journals, and the four circuits are routed.
fn settles<C: Begun, P: Ledger>(
    core: Core<C, P>,
    transcripts: Vec<Transcript<C>>,
    shares: Vec<Share<P>>,
) -> bool {
    match settle(core, transcripts, shares) {
        Ok(settled) => {
            let are_routed = owns_all(settled.service());
            drop(settled);
            are_routed
        }
        Err(not_settled) => {
            drop(not_settled);
            false
        }
    }
}

/// Whether as many pins, wires and pads are owned as the four circuits have.
fn owns_all(service: &Service) -> bool {
    match service.owners() {
        Ok(owners) => owners.len() == OWNED,
        Err(_) => false,
    }
}
