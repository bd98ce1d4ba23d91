//! What other threads do to a tenancy, under the lock, while a worker has a step of it and waits
//! before making it, or before putting it: a step that packs, one that places, or one that routes.
ghost use Rattle.std.specs.Prelude.{◌≡◌, ◌≤◌, All, IfSome, false};

use crate::cores::{
    begin_packing, begin_placing, begin_routing, has_file, is_served, is_stepped, text,
};
use crate::gates::{Held, Point, is_raised};
use crate::seats::{Worker, a_worker};
use fixtures::ROUTED_AND;
use job_queue::{Pass, Ready, Seat, a_pass};
use service_core::{Owned, Service};
use shared_core::{Begun, Core, Share};
use std::alloc::{AllocGlobal, Global};
use std::sync::Wait;
use std::sync::atomic::Ordering::SeqCst;
use std::sync::ledger::Ledger;
use std::thread;
use std::thread::Threads;
use std::time::Clock;
use strips::DeviceGraph;
use tenant_slot::{Command, Reply, StateName, StepReply};
use worker_pool::{Pool, run_worker};

/// The job of which the first tenancy has a step made.
#[derive(Clone, Copy)]
pub(crate) enum Kind {
    Packing,
    Placing,
    Routing,
}

impl Kind {
    /// The command that begins the job.
    fn command(self) -> Command {
        match self {
            Kind::Packing => Command::Pack,
            Kind::Placing => Command::Place { seed: 7, effort: 0 },
            Kind::Routing => Command::Route,
        }
    }

    /// The state before the job, to which a cancel leads back.
    fn state_before(self) -> StateName {
        match self {
            Kind::Packing => StateName::Loaded,
            Kind::Placing => StateName::Packed,
            Kind::Routing => StateName::Placed,
        }
    }

    /// The state while the job runs.
    fn running_state(self) -> StateName {
        match self {
            Kind::Packing => StateName::Packing,
            Kind::Placing => StateName::Placing,
            Kind::Routing => StateName::Routing,
        }
    }

    /// The state after the job.
    fn done_state(self) -> StateName {
        match self {
            Kind::Packing => StateName::Packed,
            Kind::Placing => StateName::Placed,
            Kind::Routing => StateName::Routed,
        }
    }

    /// The number of entries of a tenancy that has begun the job: those of its commands, and those
    /// of the steps that ended the jobs before.
    fn entry_count(self) -> u32
        ensures few { 2 ≤ result }
        ensures many { result ≤ 8 }
    {
        match self {
            Kind::Packing => 2,
            Kind::Placing => 4,
            Kind::Routing => 8,
        }
    }

    /// The number of steps of the job.
    fn steps(self) -> u32
        ensures { result ≤ 3 }
    {
        match self {
            Kind::Packing => 1,
            Kind::Placing => 3,
            Kind::Routing => 2,
        }
    }

    /// Has the first tenancy begin the job. Returns its slot's number, which is marked.
    fn begin<C: Begun, P: Ledger>(
        self,
        alloc: Global,
        core: &mut Core<C, P>,
        graph: &DeviceGraph,
    ) -> Option<u32>
        requires { C.stay ≡ false }
    {
        match self {
            Kind::Packing => begin_packing(alloc, core, 1),
            Kind::Placing => begin_placing(alloc, core, graph, 1),
            Kind::Routing => begin_routing(alloc, core, graph, 1),
        }
    }
}

/// What is done to the tenancy.
#[derive(Clone, Copy)]
pub(crate) enum Act {
    /// The strip moves to the device's last column.
    Move,
    Cancel,
    /// The job is cancelled, and another one like it begins.
    BeginAgain,
    /// The netlist is changed to the same text.
    Change,
    Withdraw,
    Evict,
    /// The tenancy is evicted; another one gets its columns, packs, places and routes the same
    /// netlist, and asks for its files.
    Replace,
    /// The journal is filled.
    Fill,
}

pub(crate) const ACTS: [Act; 8] = [
    Act::Move,
    Act::Cancel,
    Act::BeginAgain,
    Act::Change,
    Act::Withdraw,
    Act::Evict,
    Act::Replace,
    Act::Fill,
];

/// The job whose step is held, what is done, and where the step is held.
#[derive(Clone, Copy)]
pub(crate) struct Case {
    pub(crate) kind: Kind,
    pub(crate) act: Act,
    pub(crate) at: Point,
}

/// The device's last column.
const LAST_COLUMN: u32 = 7;

/// The last entry that a journal may have.
const LAST_ENTRY: u32 = 65_535;

/// The entries of a tenancy that is routed, and has asked for three files.
const ALL_THE_WAY: u32 = 13;

/// The pins, wires and pads of the routed netlist.
const OWNED: usize = 13;

impl Case {
    /// Does this to the first tenancy. Returns whether it could be done.
    fn is_done<C: Begun, P: Ledger>(
        self,
        alloc: Global,
        core: &mut Core<C, P>,
        graph: &DeviceGraph,
    ) -> bool
        requires { C.stay ≡ false }
    {
        match self.act {
            Act::Move => core.offset(1) == Some(0) && core.move_strip(1, LAST_COLUMN) == Ok(()),
            Act::Cancel => is_served(core, 1, Command::Cancel),
            Act::BeginAgain => {
                is_served(core, 1, Command::Cancel) && is_served(core, 1, self.kind.command())
            }
            Act::Change => is_changed(alloc, core),
            Act::Withdraw => is_served(core, 1, Command::Withdraw),
            Act::Evict => core.evict(1) == Ok(()),
            Act::Replace => core.evict(1) == Ok(()) && goes_all_the_way(alloc, core, graph),
            Act::Fill => is_filled(core, self.kind),
        }
    }

    /// Whether the step leaves what it should when it is put. It counts if the strip moved. It is
    /// an entry, and stale, if the job was given up, also if another one like it has begun. It is
    /// no entry if the tenancy is gone or its journal is full.
    fn is_left<C: Begun, P: Ledger>(self, core: &mut Core<C, P>) -> bool {
        let kind = self.kind;
        match self.act {
            Act::Move => {
                core.offset(1) == Some(LAST_COLUMN) && is_over(core, kind, kind.entry_count())
            }
            Act::Cancel => is_stale(core, kind, kind.state_before()),
            Act::BeginAgain => {
                is_told(core, kind.entry_count() + 2, &Reply::Step(StepReply::Stale))
                    && is_over(core, kind, kind.entry_count() + 3)
            }
            Act::Change => is_stale(core, kind, StateName::Loaded),
            Act::Withdraw => is_stale(core, kind, StateName::Empty),
            Act::Evict => is_gone(core, kind),
            Act::Replace => is_gone(core, kind) && has_come(core),
            Act::Fill => is_full(core, kind),
        }
    }
}

/// Changes the first tenancy's netlist to the same text. Returns whether it did.
fn is_changed<C: Begun, P: Ledger>(alloc: Global, core: &mut Core<C, P>) -> bool
    requires { C.stay ≡ false }
{
    match text(alloc) {
        Some(text) => is_served(core, 1, Command::Change(text)),
        None => false,
    }
}

/// Admits a second tenancy, which packs, places and routes. Returns whether it did, and its files
/// are those of the routed netlist.
fn goes_all_the_way<C: Begun, P: Ledger>(
    alloc: Global,
    core: &mut Core<C, P>,
    graph: &DeviceGraph,
) -> bool
    requires { C.stay ≡ false }
{
    begin_routing(alloc, core, graph, 2).is_some()
        && is_stepped(core, graph, 2)
        && is_stepped(core, graph, 2)
        && has_file(core, 2, Command::Net, ROUTED_AND.net)
        && has_file(core, 2, Command::PlaceFile, ROUTED_AND.places)
        && has_file(core, 2, Command::RouteFile, ROUTED_AND.routes)
}

/// Asks for the first tenancy's status until its journal is full. Returns whether all were served
/// but the last, which is one too many.
fn is_filled<C: Begun, P: Ledger>(core: &mut Core<C, P>, kind: Kind) -> bool
    requires { C.stay ≡ false }
{
    let mut are_served = true;
    for _ in kind.entry_count()..LAST_ENTRY + 1 {
        are_served &= is_served(core, 1, Command::Status);
    }
    are_served && !is_served(core, 1, Command::Status)
}

/// Whether the first tenancy's job still runs, no step of it can be taken, and its last entry is of
/// a command.
fn is_full<C: Begun, P: Ledger>(core: &Core<C, P>, kind: Kind) -> bool {
    let ends_so = match core.entry(1, LAST_ENTRY) {
        Some(entry) => matches!(&entry.reply, Reply::Status(_)),
        None => false,
    };
    ends_so && core.state(1) == Some(kind.running_state()) && core.idle(1)
}

/// Whether the first tenancy's job is over, by exactly its steps, whose entries begin at that
/// number.
fn is_over<C: Begun, P: Ledger>(core: &Core<C, P>, kind: Kind, first: u32) -> bool {
    let end = first.saturating_add(kind.steps());
    core.state(1) == Some(kind.done_state())
        && is_told(
            core,
            end.saturating_sub(1),
            &Reply::Step(StepReply::Finished),
        )
        && core.entry(1, end).is_none()
}

/// Whether the first tenancy's last entry is of a stale step, after one command.
fn is_stale<C: Begun, P: Ledger>(core: &Core<C, P>, kind: Kind, state: StateName) -> bool {
    core.state(1) == Some(state)
        && is_told(core, kind.entry_count() + 1, &Reply::Step(StepReply::Stale))
        && core.entry(1, kind.entry_count() + 2).is_none()
}

/// Whether the first tenancy is gone, and its journal didn't change.
fn is_gone<C: Begun, P: Ledger>(core: &Core<C, P>, kind: Kind) -> bool {
    core.state(1).is_none()
        && is_told(
            core,
            kind.entry_count() - 1,
            &Reply::Accepted(kind.running_state()),
        )
        && core.entry(1, kind.entry_count()).is_none()
}

/// Whether the second tenancy is as it was before the step was put: routed in the first column, and
/// alone in owning anything.
fn has_come<C: Begun, P: Ledger>(core: &Core<C, P>) -> bool {
    core.state(2) == Some(StateName::Routed)
        && core.offset(2) == Some(0)
        && core.entry(2, ALL_THE_WAY - 1).is_some()
        && core.entry(2, ALL_THE_WAY).is_none()
        && owns_all(core.service())
}

/// Whether the second tenancy owns what the routed netlist occupies, and no other owns anything.
fn owns_all(service: &Service) -> bool {
    match service.owners() {
        Ok(owners) => {
            let are_its_own = are_its_own(owners.as_slice());
            drop(owners);
            are_its_own
        }
        Err(_) => false,
    }
}

fn are_its_own(owners: &[Owned]) -> bool {
    let mut are_its_own = owners.len() == OWNED;
    for owned in owners {
        are_its_own &= owned.id == 2;
    }
    are_its_own
}

/// Whether the first tenancy's entry of that number has that reply.
fn is_told<C: Begun, P: Ledger>(core: &Core<C, P>, place: u32, reply: &Reply) -> bool {
    match core.entry(1, place) {
        Some(entry) => entry.reply.same(reply),
        None => false,
    }
}

/// Whether the tenancy begins the job, and the queue is closed with its number.
fn begins<C: Begun, P: Ledger, R: Wait + AllocGlobal>(
    rt: &R,
    core: &mut Core<C, P>,
    graph: &DeviceGraph,
    ready: &Ready,
    passes: &mut Vec<Pass>,
    kind: Kind,
) -> bool
    requires passes { All (λ p. p.of ≡ ready.now) passes.old.items }
    requires stay { C.stay ≡ false }
{
    match a_pass(passes, ready) {
        Some(mut pass) => {
            let is_pushed = match kind.begin(rt.alloc(), core, graph) {
                Some(slot) => ready.push(rt, &mut pass, slot).is_ok(),
                None => false,
            };
            drop(pass);
            ready.close();
            is_pushed
        }
        None => false,
    }
}

/// Closes the queue with the number of the tenancy, which begins the job, and seats a worker to
/// serve it.
fn set_up<C: Begun, P: Ledger, R: Wait + AllocGlobal>(
    pool: Pool<'_, R, C, P>,
    seats: &mut Vec<Seat>,
    passes: &mut Vec<Pass>,
    kind: Kind,
) -> Option<Worker<P>>
    requires seats { All (λ s. s.of ≡ pool.ready.now) seats.old.items }
    requires passes { All (λ p. p.of ≡ pool.ready.now) passes.old.items }
    requires stay { C.stay ≡ false }
    ensures { IfSome result (λ worker. worker.seat.of ≡ pool.entry.ready.now) }
{
    let core = &pool.shared.core;
    if begins(
        pool.rt,
        &mut *core.lock(pool.rt),
        pool.graph,
        pool.ready,
        passes,
        kind,
    ) {
        a_worker(&mut *core.lock(pool.rt), pool.ready, seats)
    } else {
        None
    }
}

/// Whether the act is done while a worker has a step of the tenancy, and leaves what it should. The
/// core has no tenancies, and the queue is open, with a seat and a pass.
pub(crate) fn acts_under_a_held_job<
    C: Begun + Send + Sync,
    P: Ledger + Send + Sync,
    R: Threads + Wait + Clock + AllocGlobal + Sync,
>(pool: Pool<'_, R, C, P>, seats: &mut Vec<Seat>, passes: &mut Vec<Pass>, case: Case) -> bool
    requires seats { All (λ s. s.of ≡ pool.ready.now) seats.old.items }
    requires passes { All (λ p. p.of ≡ pool.ready.now) passes.old.items }
    requires stay { C.stay ≡ false }
{
    match set_up(pool, seats, passes, case.kind) {
        Some(worker) => {
            is_done_meanwhile(pool, worker, case)
                && case.is_left(&mut *pool.shared.core.lock(pool.rt))
        }
        None => false,
    }
}

/// Whether a worker waits with a step until the act is done.
fn is_done_meanwhile<
    C: Begun + Send + Sync,
    P: Ledger + Send + Sync,
    R: Threads + Wait + Clock + AllocGlobal + Sync,
>(pool: Pool<'_, R, C, P>, worker: Worker<P>, case: Case) -> bool
    requires worker { worker.seat.of ≡ pool.ready.now }
    requires stay { C.stay ≡ false }
{
    let held = Held::new(case.at);
    let gate = &held;
    let (share, is_done) = thread::join(
        pool.rt,
        move || -> Share<P>
            requires { worker.seat.of ≡ pool.ready.now }
        { run_worker(pool, worker.seat, worker.share, gate) },
        move || -> bool
            requires { C.stay ≡ false }
        { is_done_once_held(pool, gate, case) },
    );
    drop(share);
    is_done && held.was_held()
}

/// Takes the lock once a worker waits, acts, and lets the worker go on after the lock is free
/// again.
fn is_done_once_held<C: Begun, P: Ledger, R: Wait + AllocGlobal>(
    pool: Pool<'_, R, C, P>,
    held: &Held,
    case: Case,
) -> bool
    requires { C.stay ≡ false }
{
    let is_held = is_raised(&held.begins);
    let alloc = pool.rt.alloc();
    let is_done = case.is_done(alloc, &mut *pool.shared.core.lock(pool.rt), pool.graph);
    held.goes_on.store(1, SeqCst);
    is_held && is_done
}
