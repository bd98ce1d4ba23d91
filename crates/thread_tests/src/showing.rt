//! What is shown, each of a core of its own.
ghost use Rattle.std.specs.Prelude.{◌+◌, ◌≡◌, All, false};
ghost use Rattle.shared_core.specs.declared.shared.TheConstants.{MAX_WORKERS};
ghost use Rattle.service_core.specs.declared.service.TheConstants.{MAX_ADMISSIONS};
ghost use Rattle.service_core.specs.Service.{empty_service};
ghost use Rattle.thread_tests.specs.Devices.{IsSmall};

use crate::cores::{new_core, new_device, new_graph};
use crate::failing::all_end_so;
use crate::gates::Point;
use crate::meanwhile::{ACTS, Case, Kind, acts_under_a_held_job};
use crate::same_told::tells_the_same;
use crate::waiting::{Work, waits_are_told};
use crate::workers::is_worked;
use job_queue::{Pass, Ready, Seat};
use service_core::Device;
use shared_core::{Begun, Core, Shared};
use std::alloc::AllocGlobal;
use std::marker::Brand;
use std::sync::Wait;
use std::sync::ledger::{Blank, Ledger};
use std::thread::Threads;
use std::time::Clock;
use strips::DeviceGraph;
use worker_pool::Pool;

/// What a core is to show.
#[derive(Clone, Copy)]
enum Shown {
    Worked(Worked),
    Meanwhile(Case),
    FailingDevices,
    FourSessions(usize),
    Waits(Work),
}

/// What is shown of workers.
#[derive(Clone, Copy)]
pub(crate) enum Worked {
    DrainsAClosedQueue,
    TwoStepsAtOnce,
    OneStepStolen,
    StepWithoutTheLock,
}

impl Shown {
    /// The workers that have a seat in the queue.
    fn workers(self) -> usize {
        match self {
            Shown::Worked(_) => 2,
            _ => 1,
        }
    }
}

/// Whether that is shown by a core without tenancies, beside an open queue with these seats and
/// passes.
fn is_shown_beside<
    C: Begun + Send + Sync,
    P: Ledger + Send + Sync,
    R: Threads + Wait + Clock + AllocGlobal + Sync,
>(pool: Pool<'_, R, C, P>, seats: &mut Vec<Seat>, passes: &mut Vec<Pass>, shown: Shown) -> bool
    requires seats { All (λ s. s.of ≡ pool.ready.now) seats.old.items }
    requires passes { All (λ p. p.of ≡ pool.ready.now) passes.old.items }
    requires stay { C.stay ≡ false }
{
    match shown {
        Shown::Worked(worked) => is_worked(pool, seats, passes, worked),
        Shown::Meanwhile(case) => acts_under_a_held_job(pool, seats, passes, case),
        Shown::FailingDevices => all_end_so(pool.rt, pool.shared),
        Shown::Waits(work) => waits_are_told(pool, seats, passes, work),
        Shown::FourSessions(_) => false,
    }
}

/// Whether that is shown by a shared core without tenancies.
fn is_shown_by<
    C: Begun + Send + Sync,
    P: Ledger + Send + Sync,
    R: Threads + Wait + Clock + AllocGlobal + Sync,
>(rt: &R, shared: &Shared<C, P>, graph: &DeviceGraph, shown: Shown) -> bool
    requires { C.stay ≡ false }
{
    match Ready::new(rt.alloc(), shown.workers(), 1) {
        Ok((ready, mut seats, mut passes)) => {
            let pool = Pool {
                rt,
                shared,
                ready: &ready,
                graph,
            };
            let is_so = is_shown_beside(pool, &mut seats, &mut passes, shown);
            drop(seats);
            drop(passes);
            drop(ready);
            is_so
        }
        Err(_) => false,
    }
}

/// Whether that is shown by a core without tenancies, which is shared, and dropped when all threads
/// have ended.
fn is_shown_if_shared<
    C: Begun + Send + Sync,
    P: Ledger + Send + Sync,
    R: Threads + Wait + Clock + AllocGlobal + Sync,
>(rt: &R, core: Core<C, P>, graph: &DeviceGraph, shown: Shown) -> bool
    requires { C.stay ≡ false }
{
    let shared = Shared::new(core);
    let is_so = is_shown_by(rt, &shared, graph, shown);
    drop(shared.into_core());
    is_so
}

/// Whether that is shown by a core without tenancies.
fn is_shown<
    C: Begun + Send + Sync,
    P: Ledger + Send + Sync,
    R: Threads + Wait + Clock + AllocGlobal + Sync,
>(rt: &R, core: Core<C, P>, graph: &DeviceGraph, shown: Shown) -> bool
    requires { C.stay ≡ false }
{
    match shown {
        Shown::FourSessions(workers) => tells_the_same(rt, core, graph, workers),
        _ => is_shown_if_shared(rt, core, graph, shown),
    }
}

/// Whether that is shown by a core with these two ledgers.
fn shows_on<
    C: Begun + Send + Sync,
    P: Ledger + Send + Sync,
    R: Threads + Wait + Clock + AllocGlobal + Sync,
>(rt: &R, device: Device, commands: Blank, puts: Blank, graph: &DeviceGraph, shown: Shown) -> bool
    requires small { IsSmall device }
    requires commands { (commands.name ≡ C.name) × (commands.parts ≡ C.parts)
        × (commands.parts ≡ MAX_ADMISSIONS + 1) }
    requires puts { (puts.name ≡ P.name) × (puts.parts ≡ P.parts) × (puts.parts ≡ MAX_WORKERS + 1) }
    requires begun { C.begun ≡ empty_service device }
    requires stay { C.stay ≡ false }
{
    match new_core::<C, P>(rt.alloc(), device, commands, puts) {
        Some(core) => is_shown(rt, core, graph, shown),
        None => false,
    }
}

/// Whether that is shown by a core made here.
fn shows_with<R: Threads + Wait + Clock + AllocGlobal + Sync>(
    rt: &R,
    graph: &DeviceGraph,
    shown: Shown,
) -> bool {
    match new_device(rt.alloc()) {
        Some(device) => {
            let commands = Blank::new(65_536);
            let puts = Blank::new(17);
            shows_on::<Brand, Brand, R>(rt, device, commands, puts, graph, shown)
        }
        None => false,
    }
}

/// Whether that is shown by a core made here, with the graph of its device.
fn shows<R: Threads + Wait + Clock + AllocGlobal + Sync>(rt: &R, shown: Shown) -> bool {
    match new_graph(rt.alloc()) {
        Some(graph) => {
            let is_so = shows_with(rt, &graph, shown);
            drop(graph);
            is_so
        }
        None => false,
    }
}

#[test]
fn worker_drains_a_closed_queue(rt: HostRuntime) {
    assert!(rt; shows(&rt, Shown::Worked(Worked::DrainsAClosedQueue)));
}

#[test]
fn two_steps_run_at_once(rt: HostRuntime) {
    assert!(rt; shows(&rt, Shown::Worked(Worked::TwoStepsAtOnce)));
}

#[test]
fn a_step_is_stolen(rt: HostRuntime) {
    assert!(rt; shows(&rt, Shown::Worked(Worked::OneStepStolen)));
}

#[test]
fn a_step_is_made_without_the_lock(rt: HostRuntime) {
    assert!(rt; shows(&rt, Shown::Worked(Worked::StepWithoutTheLock)));
}

/// Whether each act is done while a worker waits at that point, and leaves what it should.
fn each_act_is_shown_at<R: Threads + Wait + Clock + AllocGlobal + Sync>(
    rt: &R,
    kind: Kind,
    at: Point,
) -> bool {
    let mut are_shown = true;
    for act in ACTS.iter() {
        let case = Case {
            kind,
            act: *act,
            at,
        };
        are_shown &= shows(rt, Shown::Meanwhile(case));
    }
    are_shown
}

/// Whether each act is done while a worker waits with a step of that job, before it is made and
/// after it, and leaves what it should.
fn each_act_is_shown<R: Threads + Wait + Clock + AllocGlobal + Sync>(rt: &R, kind: Kind) -> bool {
    each_act_is_shown_at(rt, kind, Point::BeforeStep)
        && each_act_is_shown_at(rt, kind, Point::AfterStep)
}

#[test]
fn acts_under_a_held_packing_step_leave_what_they_should(rt: HostRuntime) {
    assert!(rt; each_act_is_shown(&rt, Kind::Packing));
}

#[test]
fn acts_under_a_held_placing_step_leave_what_they_should(rt: HostRuntime) {
    assert!(rt; each_act_is_shown(&rt, Kind::Placing));
}

#[test]
fn acts_under_a_held_step_leave_what_they_should(rt: HostRuntime) {
    assert!(rt; each_act_is_shown(&rt, Kind::Routing));
}

#[test]
fn a_session_ends_where_its_device_fails(rt: HostRuntime) {
    assert!(rt; shows(&rt, Shown::FailingDevices));
}

#[test]
fn sessions_beside_workers_are_told_the_same(rt: HostRuntime) {
    let with_one = shows(&rt, Shown::FourSessions(1));
    let with_three = shows(&rt, Shown::FourSessions(3));
    let with_sixteen = shows(&rt, Shown::FourSessions(16));
    assert!(rt; with_one && with_three && with_sixteen);
}

#[test]
fn a_wait_ends_where_the_number_is_given_up(rt: HostRuntime) {
    assert!(rt; shows(&rt, Shown::Waits(Work::GivenUp)));
}

#[test]
fn a_wait_ends_when_the_step_is_made(rt: HostRuntime) {
    assert!(rt; shows(&rt, Shown::Waits(Work::Held)));
}
