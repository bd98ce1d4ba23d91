//! Steps through windows at other offsets.
use crate::cores::{begins_packing, finishes, leads_to, new_core, new_graph};
use fixtures::{AND, ROUTED_AND};
use rr_graph::{Resource, ResourceKind};
use service_core::{Owned, Receipt, Service};
use std::alloc::Global;
use strips::DeviceGraph;
use tenant_slot::{Command, Reply, StateName};

/// Whether three tenancies of one column each are admitted to five columns.
fn admits_three(core: &mut Service) -> bool {
    core.admit(1) == Ok((1, 0)) && core.admit(1) == Ok((2, 2)) && core.admit(1) == Ok((3, 4))
}

/// Whether the second tenancy has a job to take, which is given back.
fn goes_back(core: &mut Service) -> bool {
    match core.take(2) {
        Some(job) => {
            core.give_back(job.into_back());
            true
        }
        None => false,
    }
}

/// Whether the second tenancy packs, places and routes its netlist, each step made through the
/// window at that offset. The first job is given back once before it is stepped.
fn routes(alloc: Global, core: &mut Service, graph: &DeviceGraph, offset: u32) -> bool {
    begins_packing(alloc, core, 2, AND)
        && goes_back(core)
        && finishes(core, graph, 2, offset, 1)
        && leads_to(
            core,
            2,
            Command::Place { seed: 5, effort: 0 },
            StateName::Placing,
        )
        && finishes(core, graph, 2, offset, 3)
        && leads_to(core, 2, Command::Route, StateName::Routing)
        && finishes(core, graph, 2, offset, 2)
}

/// Whether its files are those of the routed netlist.
fn has_files(core: &mut Service) -> bool {
    is_file(core, Command::Net, ROUTED_AND.net)
        && is_file(core, Command::PlaceFile, ROUTED_AND.places)
        && is_file(core, Command::RouteFile, ROUTED_AND.routes)
}

fn is_file(core: &mut Service, command: Command, file: &str) -> bool {
    match core.tenant(2, command) {
        Ok(receipt) => tells_file(receipt, file),
        Err(_) => false,
    }
}

fn tells_file(receipt: Receipt, file: &str) -> bool {
    let is_so = match receipt.reply() {
        Reply::File { kind: _, text } => text.as_bytes() == file.as_bytes(),
        _ => false,
    };
    drop(receipt);
    is_so
}

/// What the nets of the routed netlist occupy with their strip at offset 2, in node order: `a` goes
/// from the first pad over a horizontal and a vertical wire, `b` from the second over one wire, and
/// `f` over one above to a third pad.
const HELD: [(u32, ResourceKind, u32, u32); 13] = [
    (2, ResourceKind::ChanY, 1, 1),
    (3, ResourceKind::Opin, 0, 0),
    (3, ResourceKind::Opin, 0, 1),
    (3, ResourceKind::Opin, 1, 2),
    (3, ResourceKind::Ipin, 1, 0),
    (3, ResourceKind::Ipin, 1, 1),
    (3, ResourceKind::Ipin, 2, 0),
    (3, ResourceKind::ChanX, 0, 0),
    (3, ResourceKind::ChanX, 0, 1),
    (3, ResourceKind::ChanX, 1, 0),
    (3, ResourceKind::Pad, 0, 0),
    (3, ResourceKind::Pad, 0, 1),
    (3, ResourceKind::Pad, 2, 0),
];

/// Whether exactly that is owned, by the second tenancy.
fn owns(core: &Service) -> bool {
    match core.owners() {
        Ok(owners) => are_held(owners.as_slice()),
        Err(_) => false,
    }
}

fn are_held(owners: &[Owned]) -> bool {
    for (owned, (x, kind, y, n)) in owners.iter().zip(HELD.iter()) {
        let resource = Resource {
            x: *x,
            kind: *kind,
            y: *y,
            n: *n,
        };
        if owned.id != 2 || owned.resource != resource {
            return false;
        }
    }
    owners.len() == HELD.len()
}

/// Offsets of a window of one column: two others, and that of the second strip.
const OFFSETS: [u32; 3] = [0, 4, 2];

/// Whether all results through the window at that offset are those of the tenancy alone.
fn is_alike(alloc: Global, graph: &DeviceGraph, offset: u32) -> bool {
    match new_core(alloc, 5) {
        Some(mut core) => {
            let is_so = admits_three(&mut core)
                && routes(alloc, &mut core, graph, offset)
                && has_files(&mut core)
                && owns(&core);
            drop(core);
            is_so
        }
        None => false,
    }
}

/// The first offset with another result.
fn first_other(alloc: Global, graph: &DeviceGraph) -> Option<u32> {
    for offset in OFFSETS.iter() {
        if !is_alike(alloc, graph, *offset) {
            return Some(*offset);
        }
    }
    None
}

/// The first offset with another result, on a graph made here.
fn first_other_offset(alloc: Global) -> Option<u32> {
    match new_graph(alloc, 5) {
        Some(graph) => {
            let other = first_other(alloc, &graph);
            drop(graph);
            other
        }
        None => Some(5),
    }
}

#[test]
fn any_window_steps_alike(rt: HostRuntime) {
    assert!(rt; first_other_offset(rt.alloc()).is_none());
}
