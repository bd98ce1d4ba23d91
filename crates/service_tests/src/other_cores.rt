//! Jobs of another core count by their contents.
use crate::cores::{begins_packing, finishes, leads_to, new_core, new_graph, step, step_at, text};
use fixtures::AND;
use service_core::{PutReply, Service};
use std::alloc::Global;
use strips::DeviceGraph;
use tenant_slot::{Command, SharedText, StateName, StepReply};

/// Two tables without inputs, which don't fit one cluster of one BLE: two steps pack them.
const TWO_TABLES: &str = "\
.model b
.names f
1
.names g
1
";

/// The job that a core's only tenancy has begun.
#[derive(Clone, Copy)]
enum Begun {
    /// The first packing of a netlist.
    Packing,
    /// The second placing of a netlist that was changed after it was placed: its blocks keep their
    /// places.
    PlacingKept,
    /// The second placing of a netlist that was changed before its first placing was over: no place
    /// is kept.
    PlacingAnew,
}

const PLACE: Command = Command::Place { seed: 7, effort: 0 };

impl Begun {
    fn begins(self, alloc: Global, core: &mut Service, graph: &DeviceGraph) -> bool {
        if core.admit(1) != Ok((1, 0)) {
            return false;
        }
        match self {
            Begun::Packing => begins_packing(alloc, core, 1, TWO_TABLES),
            Begun::PlacingKept => {
                begins_placing(alloc, core, graph)
                    && finishes(core, graph, 1, 0, 3)
                    && places_again(alloc, core, graph)
            }
            Begun::PlacingAnew => {
                begins_placing(alloc, core, graph) && places_again(alloc, core, graph)
            }
        }
    }
}

fn begins_placing(alloc: Global, core: &mut Service, graph: &DeviceGraph) -> bool {
    begins_packing(alloc, core, 1, AND)
        && finishes(core, graph, 1, 0, 1)
        && leads_to(core, 1, PLACE, StateName::Placing)
}

/// Whether the netlist is changed to the same text, packed, and begins to be placed.
fn places_again(alloc: Global, core: &mut Service, graph: &DeviceGraph) -> bool {
    match text(alloc, AND) {
        Some(text) => changes(core, text) && packs(core, graph),
        None => false,
    }
}

fn changes(core: &mut Service, text: SharedText) -> bool {
    leads_to(core, 1, Command::Change(text), StateName::Loaded)
        && leads_to(core, 1, Command::Pack, StateName::Packing)
}

fn packs(core: &mut Service, graph: &DeviceGraph) -> bool {
    finishes(core, graph, 1, 0, 1) && leads_to(core, 1, PLACE, StateName::Placing)
}

/// The job from which a step is taken, the job of the core in which it is put, the answer to the
/// put, and the answer to the next step of that core's own job.
const ROWS: [(Begun, Begun, StepReply, StepReply); 4] = [
    (
        Begun::Packing,
        Begun::Packing,
        StepReply::Advanced,
        StepReply::Finished,
    ),
    (
        Begun::PlacingKept,
        Begun::PlacingKept,
        StepReply::Advanced,
        StepReply::Advanced,
    ),
    (
        Begun::PlacingAnew,
        Begun::PlacingKept,
        StepReply::Stale,
        StepReply::Advanced,
    ),
    (
        Begun::PlacingKept,
        Begun::PlacingAnew,
        StepReply::Stale,
        StepReply::Advanced,
    ),
];

/// The answers to a step of one core that is put in the other, and then to a step of that core's
/// own.
fn put_elsewhere(
    core: &mut Service,
    other: &mut Service,
    graph: &DeviceGraph,
) -> (Option<PutReply>, Option<PutReply>) {
    let foreign = match core.take(1) {
        Some(job) => step_at(other, graph, 0, job),
        None => None,
    };
    (foreign, step(other, graph, 1, 0))
}

/// Whether a step that is put in the other core, and then that core's own step, are answered as the
/// row says.
fn is_answered(
    alloc: Global,
    graph: &DeviceGraph,
    core: &mut Service,
    other: &mut Service,
    row: &(Begun, Begun, StepReply, StepReply),
) -> bool {
    let (from, to, foreign, own) = *row;
    let answers = (
        Some(PutReply::Recorded(foreign)),
        Some(PutReply::Recorded(own)),
    );
    from.begins(alloc, core, graph)
        && to.begins(alloc, other, graph)
        && put_elsewhere(core, other, graph) == answers
}

/// Whether the answers are those of the row, with the second core made here.
fn is_answered_elsewhere(
    alloc: Global,
    graph: &DeviceGraph,
    core: &mut Service,
    row: &(Begun, Begun, StepReply, StepReply),
) -> bool {
    match new_core(alloc, 1) {
        Some(mut other) => {
            let is_so = is_answered(alloc, graph, core, &mut other, row);
            drop(other);
            is_so
        }
        None => false,
    }
}

/// Whether the answers of a row are right, with both cores made here.
fn is_row(alloc: Global, graph: &DeviceGraph, row: &(Begun, Begun, StepReply, StepReply)) -> bool {
    match new_core(alloc, 1) {
        Some(mut core) => {
            let is_so = is_answered_elsewhere(alloc, graph, &mut core, row);
            drop(core);
            is_so
        }
        None => false,
    }
}

/// The first row with a wrong answer.
fn first_wrong(alloc: Global, graph: &DeviceGraph) -> Option<usize> {
    for (number, row) in ROWS.iter().enumerate() {
        if !is_row(alloc, graph, row) {
            return Some(number);
        }
    }
    None
}

/// The first row with a wrong answer, on a graph made here.
fn first_wrong_row(alloc: Global) -> Option<usize> {
    match new_graph(alloc, 1) {
        Some(graph) => {
            let wrong = first_wrong(alloc, &graph);
            drop(graph);
            wrong
        }
        None => Some(ROWS.len()),
    }
}

#[test]
fn a_job_of_another_core_is_judged_by_what_it_is(rt: HostRuntime) {
    assert!(rt; first_wrong_row(rt.alloc()).is_none());
}
