//! What is done to a tenancy at two points of a step of its job: before the job is taken, before
//! the step, after the step, or after the job came back. The job is put, or given back, with its
//! step made or not. By the rules of jobs a step counts only if nothing was done while the job was
//! out; it is stale if the job was cancelled or begun again, or if its netlist is gone; a full
//! journal takes no step; and a tenancy that was evicted takes none either. A job that is given
//! back can be taken again only if it still runs and the journal has room.
ghost use Rattle.std.specs.Prelude.{◌≡◌};
ghost use Rattle.job_state.specs.JobValue.{basis_in};

use crate::cores::{begins_packing, finishes, leads_to, new_core, new_graph, text};
use fixtures::AND;
use job_state::{AnyJob, Done};
use service_core::{PutReply, Service, window_for};
use std::alloc::Global;
use strips::{DeviceGraph, Window};
use tenant_slot::{Command, MAX_ENTRIES, StateName, StepReply};

const PLACE: Command = Command::Place { seed: 7, effort: 0 };

/// The job that is out.
#[derive(Clone, Copy, PartialEq, Eq)]
enum Kind {
    Packing,
    Placing,
    Routing,
}

impl Kind {
    /// The command that begins the job.
    fn command(self) -> Command {
        match self {
            Kind::Packing => Command::Pack,
            Kind::Placing => PLACE,
            Kind::Routing => Command::Route,
        }
    }

    /// The state before the job, to which a cancel leads back. The job can begin in it.
    fn state_before(self) -> StateName {
        match self {
            Kind::Packing => StateName::Loaded,
            Kind::Placing => StateName::Packed,
            Kind::Routing => StateName::Placed,
        }
    }

    /// The state while the job runs.
    fn running_state(self) -> StateName {
        match self {
            Kind::Packing => StateName::Packing,
            Kind::Placing => StateName::Placing,
            Kind::Routing => StateName::Routing,
        }
    }

    /// The state after the job's first step, if it counts: one step packs, and three place, and two
    /// route.
    fn after_a_step(self) -> StateName {
        match self {
            Kind::Packing => StateName::Packed,
            Kind::Placing => StateName::Placing,
            Kind::Routing => StateName::Routing,
        }
    }

    /// Has a new tenancy begin the job. Returns whether it began.
    fn begins(self, alloc: Global, core: &mut Service, graph: &DeviceGraph, id: u32) -> bool {
        let begins = core.admit(1) == Ok((id, 0)) && begins_packing(alloc, core, id, AND);
        if !begins || self == Kind::Packing {
            return begins;
        }
        let begins = finishes(core, graph, id, 0, 1)
            && leads_to(core, id, PLACE, StateName::Placing);
        if !begins || self == Kind::Placing {
            return begins;
        }
        finishes(core, graph, id, 0, 3) && leads_to(core, id, Command::Route, StateName::Routing)
    }
}

/// What is done at a point.
#[derive(Clone, Copy, PartialEq, Eq)]
enum Act {
    Nothing,
    Cancel,
    /// The job is cancelled, and another one like it begins.
    BeginAgain,
    /// The netlist is changed to the same text.
    Change,
    Withdraw,
    /// The journal is filled.
    Fill,
    Evict,
    /// The tenancy is evicted. Another one gets its columns, and packs, places and routes.
    Replace,
}

const ACTS: [Act; 8] = [
    Act::Nothing,
    Act::Cancel,
    Act::BeginAgain,
    Act::Change,
    Act::Withdraw,
    Act::Fill,
    Act::Evict,
    Act::Replace,
];

/// What is done after a job was put: no job is out then that a full journal could refuse.
const LATER: [Act; 6] = [
    Act::Cancel,
    Act::BeginAgain,
    Act::Change,
    Act::Withdraw,
    Act::Evict,
    Act::Replace,
];

/// Asks the core in the first tenancy's name. The answer does not matter.
fn ask(core: &mut Service, command: Command) {
    drop(core.tenant(1, command));
}

/// Fills the first tenancy's journal with status commands.
fn fill(core: &mut Service) {
    for _ in 0..MAX_ENTRIES {
        ask(core, Command::Status);
    }
}

/// Changes the first tenancy's netlist to the same text.
fn change(alloc: Global, core: &mut Service) {
    if let Some(text) = text(alloc, AND) {
        ask(core, Command::Change(text));
    }
}

/// Has a second tenancy packed, placed and routed in the columns of the first, if they are free.
fn succeed(alloc: Global, core: &mut Service, graph: &DeviceGraph) {
    if Kind::Routing.begins(alloc, core, graph, 2) {
        let _ = finishes(core, graph, 2, 0, 2);
    }
}

/// The first tenancy, by the rules of commands and jobs.
#[derive(Clone, Copy)]
struct Solo {
    kind: Kind,
    state: StateName,
    is_live: bool,
    is_full: bool,
    /// Whether the job that runs is the one that was taken.
    is_same: bool,
}

impl Solo {
    /// A tenancy that has begun the job.
    fn new(kind: Kind) -> Self {
        Solo {
            kind,
            state: kind.running_state(),
            is_live: true,
            is_full: false,
            is_same: true,
        }
    }

    /// The tenancy after an act. A full journal takes no command.
    fn after_act(self, act: Act) -> Self {
        if act == Act::Evict || act == Act::Replace {
            return Solo {
                is_live: false,
                ..self
            };
        }
        if self.is_full {
            return self;
        }
        match act {
            Act::Fill => Solo {
                is_full: true,
                ..self
            },
            Act::Cancel => self.after_cancel(),
            Act::BeginAgain => self.after_cancel().after_begin(),
            Act::Change if self.state != StateName::Empty => self.moved_to(StateName::Loaded),
            Act::Withdraw => self.moved_to(StateName::Empty),
            _ => self,
        }
    }

    /// The tenancy in another state, with its job given up.
    fn moved_to(self, state: StateName) -> Self {
        Solo {
            state,
            is_same: false,
            ..self
        }
    }

    fn after_cancel(self) -> Self {
        if self.state == self.kind.running_state() {
            self.moved_to(self.kind.state_before())
        } else {
            self
        }
    }

    fn after_begin(self) -> Self {
        if self.state == self.kind.state_before() {
            self.moved_to(self.kind.running_state())
        } else {
            self
        }
    }

    /// The tenancy after its job was taken.
    fn after_take(self) -> Self {
        Solo {
            is_same: true,
            ..self
        }
    }

    /// The answer to a put.
    fn expects(self) -> Expected {
        if !self.is_live {
            Expected::Gone
        } else if self.is_full {
            Expected::Full
        } else if self.is_same {
            Expected::Counts
        } else {
            Expected::Stale
        }
    }

    /// The tenancy after a put.
    fn after_put(self) -> Self {
        if self.expects() == Expected::Counts {
            Solo {
                state: self.kind.after_a_step(),
                ..self
            }
        } else {
            self
        }
    }

    /// Whether a job can be taken.
    fn has_job(self) -> bool {
        self.is_live && !self.is_full && self.state == self.kind.running_state()
    }

    /// Whether the core has the tenancy in that state.
    fn is_in(self, core: &Service) -> bool {
        match core.state(1) {
            Some(state) => self.is_live && state == self.state,
            None => !self.is_live,
        }
    }
}

/// How a job comes back.
#[derive(Clone, Copy, PartialEq, Eq)]
enum Return {
    /// Its step is put.
    Put,
    /// It is given back after its step was made.
    GivenBack,
    /// It is given back without a step.
    Unstepped,
}

/// A job, how it comes back, and what is done at each point of a step.
#[derive(Clone, Copy)]
struct Case {
    kind: Kind,
    back: Return,
    /// Before the job is taken.
    first: Act,
    /// Before its step.
    before: Act,
    /// After its step.
    after: Act,
    /// After the job came back.
    last: Act,
}

impl Case {
    /// The case in which nothing is done.
    fn new(kind: Kind, back: Return) -> Self {
        Case {
            kind,
            back,
            first: Act::Nothing,
            before: Act::Nothing,
            after: Act::Nothing,
            last: Act::Nothing,
        }
    }

    /// Does this to the first tenancy.
    fn act(self, alloc: Global, core: &mut Service, graph: &DeviceGraph, act: Act) {
        match act {
            Act::Nothing => {}
            Act::Cancel => ask(core, Command::Cancel),
            Act::BeginAgain => {
                ask(core, Command::Cancel);
                ask(core, self.kind.command());
            }
            Act::Change => change(alloc, core),
            Act::Withdraw => ask(core, Command::Withdraw),
            Act::Fill => fill(core),
            Act::Evict => drop(core.evict(1)),
            Act::Replace => {
                drop(core.evict(1));
                succeed(alloc, core, graph);
            }
        }
    }

    /// Whether one of its acts is this one.
    fn has(self, act: Act) -> bool {
        self.first == act || self.before == act || self.after == act || self.last == act
    }
}

/// Whether the second act can follow the first: a journal is filled only while its tenancy lives,
/// and only an eviction follows.
fn can_follow(act: Act, next: Act) -> bool {
    match (act, next) {
        (Act::Fill, next) => matches!(next, Act::Nothing | Act::Evict | Act::Replace),
        (Act::Evict | Act::Replace, Act::Fill) => false,
        _ => true,
    }
}

/// The expected answer to a put.
#[derive(Clone, Copy, PartialEq, Eq)]
enum Expected {
    /// The step counts.
    Counts,
    /// It is recorded as stale.
    Stale,
    /// The journal is full.
    Full,
    /// The tenancy isn't live.
    Gone,
}

impl Expected {
    /// Whether the reply is the expected one.
    fn is(self, reply: PutReply) -> bool {
        match reply {
            PutReply::Recorded(StepReply::Stale) => self == Expected::Stale,
            PutReply::Recorded(_) => self == Expected::Counts,
            PutReply::Full => self == Expected::Full,
            PutReply::Gone => self == Expected::Gone,
        }
    }
}

/// Takes the job of a core, acts as the case says, and lets the job come back. Returns whether all
/// is as the rules have it.
fn come_back(alloc: Global, core: &mut Service, graph: &DeviceGraph, case: Case) -> bool {
    if !case.kind.begins(alloc, core, graph, 1) {
        return false;
    }
    case.act(alloc, core, graph, case.first);
    let solo = Solo::new(case.kind).after_act(case.first);
    match core.take(1) {
        Some(job) => goes_out(alloc, core, graph, case, solo.after_take(), job) && solo.has_job(),
        None => !solo.has_job() && is_left(core, case, solo, 0),
    }
}

/// Acts before the step of a job that was taken, and lets the job come back.
fn goes_out(
    alloc: Global,
    core: &mut Service,
    graph: &DeviceGraph,
    case: Case,
    solo: Solo,
    job: AnyJob,
) -> bool {
    let generation = job.generation();
    case.act(alloc, core, graph, case.before);
    let solo = solo.after_act(case.before);
    if case.back == Return::Unstepped {
        core.give_back(job.into_back());
        return is_left(core, case, solo, generation);
    }
    match step_made(core, graph, job) {
        Some(done) => is_stepped(alloc, core, graph, case, solo, done),
        None => false,
    }
}

/// Acts after the step of a job, lets the job come back, and acts once more.
fn is_stepped(
    alloc: Global,
    core: &mut Service,
    graph: &DeviceGraph,
    case: Case,
    solo: Solo,
    done: Done,
) -> bool {
    let generation = done.generation();
    case.act(alloc, core, graph, case.after);
    let solo = solo.after_act(case.after);
    let (is_so, solo) = if case.back == Return::Put {
        (is_put(core, done, solo.expects()), solo.after_put())
    } else {
        core.give_back(done.into_back());
        (true, solo)
    };
    case.act(alloc, core, graph, case.last);
    is_left(core, case, solo.after_act(case.last), generation) && is_so
}

/// Makes the step of a job. If memory runs out the job is given back.
fn step_made(core: &mut Service, graph: &DeviceGraph, job: AnyJob) -> Option<Done> {
    match window_for(&job, graph, 0) {
        Some(window) => done_of(core, job, &window),
        None => {
            core.give_back(job.into_back());
            None
        }
    }
}

fn done_of(core: &mut Service, job: AnyJob, window: &Window<'_>) -> Option<Done>
    requires { window.now ≡ basis_in job.step.sources }
{
    match job.step(window) {
        Ok(done) => Some(done),
        Err(back) => {
            core.give_back(back);
            None
        }
    }
}

/// Whether a put has the expected answer.
fn is_put(core: &mut Service, done: Done, expected: Expected) -> bool {
    match core.put(done) {
        Ok(reply) => expected.is(reply),
        Err((done, _)) => {
            core.give_back(done.into_back());
            false
        }
    }
}

/// Whether the first tenancy is left as the rules have it, and a tenancy that got its columns is
/// routed. A job of the first that is out or was has that generation.
fn is_left(core: &mut Service, case: Case, solo: Solo, generation: u32) -> bool {
    let has_successor = core.state(2) == Some(StateName::Routed);
    solo.is_in(core) && has_successor == case.has(Act::Replace) && has_ready(core, solo, generation)
}

/// Whether the first tenancy has a job to take if it should, and the one of that generation if that
/// still runs.
fn has_ready(core: &mut Service, solo: Solo, generation: u32) -> bool {
    match core.take(1) {
        Some(job) => {
            let is_same = job.generation() == generation;
            core.give_back(job.into_back());
            solo.has_job() && is_same == solo.is_same
        }
        None => !solo.has_job(),
    }
}

/// Whether a job comes back as it should to a core of its own.
fn comes_back(alloc: Global, graph: &DeviceGraph, case: Case) -> bool {
    match new_core(alloc, 1) {
        Some(mut core) => {
            let is_so = come_back(alloc, &mut core, graph, case);
            drop(core);
            is_so
        }
        None => false,
    }
}

/// Whether a job comes back as it should, whatever is done after its step.
fn come_back_after(alloc: Global, graph: &DeviceGraph, kind: Kind, before: Act) -> bool {
    let mut are_so = true;
    for after in ACTS.iter() {
        let put = Case {
            before,
            after: *after,
            ..Case::new(kind, Return::Put)
        };
        let given_back = Case {
            back: Return::GivenBack,
            ..put
        };
        are_so &= !can_follow(before, *after)
            || (comes_back(alloc, graph, put) && comes_back(alloc, graph, given_back));
    }
    are_so
}

/// Whether jobs of that kind come back as they should, whatever is done before and after the step,
/// and if no step is made.
fn late_ones_come_back(alloc: Global, graph: &DeviceGraph, kind: Kind) -> bool {
    let mut are_so = true;
    for before in ACTS.iter() {
        let unstepped = Case {
            before: *before,
            ..Case::new(kind, Return::Unstepped)
        };
        are_so &= comes_back(alloc, graph, unstepped);
        are_so &= come_back_after(alloc, graph, kind, *before);
    }
    are_so
}

/// Whether a job is put as it should be, whatever is done after its step and after the put.
fn are_put_before(alloc: Global, graph: &DeviceGraph, kind: Kind, after: Act) -> bool {
    let mut are_so = true;
    for last in LATER.iter() {
        let case = Case {
            after,
            last: *last,
            ..Case::new(kind, Return::Put)
        };
        are_so &= !can_follow(after, *last) || comes_back(alloc, graph, case);
    }
    are_so
}

/// Whether a job that begins again before it is taken is put as it should be, and whether another
/// act there leaves what it should.
fn are_taken_after(alloc: Global, graph: &DeviceGraph, kind: Kind, act: Act) -> bool {
    let first = Case {
        first: act,
        ..Case::new(kind, Return::Put)
    };
    let both = Case {
        first: Act::BeginAgain,
        after: act,
        ..Case::new(kind, Return::Put)
    };
    comes_back(alloc, graph, first) && comes_back(alloc, graph, both)
}

/// Whether jobs of that kind are taken and put as they should, whatever is done after the step, and
/// before the take or after the put.
fn others_come_back(alloc: Global, graph: &DeviceGraph, kind: Kind) -> bool {
    let mut are_so = true;
    for act in ACTS.iter() {
        are_so &= are_taken_after(alloc, graph, kind, *act);
        are_so &= are_put_before(alloc, graph, kind, *act);
    }
    are_so
}

/// The points at which something is done.
#[derive(Clone, Copy)]
enum Points {
    /// Before the step and after it.
    WhileOut,
    /// After the step, and before the take or after the put.
    Around,
}

/// Whether jobs of that kind come back as they should, whatever is done at these points.
fn all_come_back(alloc: Global, kind: Kind, points: Points) -> bool {
    match new_graph(alloc, 1) {
        Some(graph) => {
            let are_so = match points {
                Points::WhileOut => late_ones_come_back(alloc, &graph, kind),
                Points::Around => others_come_back(alloc, &graph, kind),
            };
            drop(graph);
            are_so
        }
        None => false,
    }
}

#[test]
fn packings_come_back_late(rt: HostRuntime) {
    assert!(rt; all_come_back(rt.alloc(), Kind::Packing, Points::WhileOut));
}

#[test]
fn placings_come_back_late(rt: HostRuntime) {
    assert!(rt; all_come_back(rt.alloc(), Kind::Placing, Points::WhileOut));
}

#[test]
fn routings_come_back_late(rt: HostRuntime) {
    assert!(rt; all_come_back(rt.alloc(), Kind::Routing, Points::WhileOut));
}

#[test]
fn packings_come_back_among_acts(rt: HostRuntime) {
    assert!(rt; all_come_back(rt.alloc(), Kind::Packing, Points::Around));
}

#[test]
fn placings_come_back_among_acts(rt: HostRuntime) {
    assert!(rt; all_come_back(rt.alloc(), Kind::Placing, Points::Around));
}

#[test]
fn routings_come_back_among_acts(rt: HostRuntime) {
    assert!(rt; all_come_back(rt.alloc(), Kind::Routing, Points::Around));
}
