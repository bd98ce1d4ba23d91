//! The limit of a journal's texts, and texts that are asked for again.
use crate::cores::{begins_packing, finishes, leads_to, limited_core, new_graph, text};
use fixtures::{AND, ROUTED_AND};
use service_core::{NotServed, Receipt, Service};
use std::alloc::Global;
use strips::DeviceGraph;
use tenant_slot::{Command, FileKind, Reply, SharedText, StateName};

/// Whether the tenancy changes to the netlist.
fn changes(alloc: Global, core: &mut Service, id: u32) -> bool {
    match text(alloc, AND) {
        Some(text) => leads_to(core, id, Command::Change(text), StateName::Loaded),
        None => false,
    }
}

/// Whether a change to the netlist is refused for its bytes.
fn is_refused(alloc: Global, core: &mut Service, id: u32) -> bool {
    match text(alloc, AND) {
        Some(text) => is_refused_with(core, id, text),
        None => false,
    }
}

fn is_refused_with(core: &mut Service, id: u32, text: SharedText) -> bool {
    match core.tenant(id, Command::Change(text)) {
        Ok(receipt) => {
            drop(receipt);
            false
        }
        Err(refusal) => is_no_memory(refusal),
    }
}

fn is_no_memory(refusal: NotServed) -> bool {
    let is_named = refusal.number() == 1 && refusal.name() == "NoMemory";
    match refusal {
        NotServed::NoMemory => is_named,
        _ => false,
    }
}

/// Whether the tenancy uploads the netlist.
fn uploads(alloc: Global, core: &mut Service, id: u32) -> bool {
    match text(alloc, AND) {
        Some(text) => leads_to(core, id, Command::Upload(text), StateName::Loaded),
        None => false,
    }
}

/// Whether a journal with the bytes of two netlists takes two, and no third one. The tenancy goes
/// on, another one has bytes of its own, and so has the next one in its place.
fn takes_two(alloc: Global, core: &mut Service) -> bool {
    core.admit(4) == Ok((1, 0))
        && core.admit(3) == Ok((2, 5))
        && uploads(alloc, core, 1)
        && changes(alloc, core, 1)
        && is_refused(alloc, core, 1)
        && leads_to(core, 1, Command::Pack, StateName::Packing)
        && is_refused(alloc, core, 1)
        && core.state(1) == Some(StateName::Packing)
        && uploads(alloc, core, 2)
        && core.evict(1) == Ok(())
        && core.admit(4) == Ok((3, 0))
        && uploads(alloc, core, 3)
}

/// Whether the limit is that of each journal that there is.
fn has_limit(core: &Service, limit: u64) -> bool {
    core.text_limit(0) == None
        && core.text_limit(1) == Some(limit)
        && core.text_limit(3) == Some(limit)
        && core.text_limit(4) == None
}

fn two_are_taken(alloc: Global) -> bool {
    let limit = 2 * AND.len() as u64;
    match limited_core(alloc, limit) {
        Some(mut core) => {
            let is_so = takes_two(alloc, &mut core) && has_limit(&core, limit);
            drop(core);
            is_so
        }
        None => false,
    }
}

#[test]
fn the_texts_of_a_journal_have_a_limit(rt: HostRuntime) {
    assert!(rt; two_are_taken(rt.alloc()));
}

/// Whether the tenancy is answered its `.net` file.
fn gets_net(core: &mut Service, id: u32) -> bool {
    match core.tenant(id, Command::Net) {
        Ok(receipt) => has_net(receipt),
        Err(_) => false,
    }
}

fn has_net(receipt: Receipt) -> bool {
    let is_so = match receipt.reply() {
        Reply::File { kind, text } => {
            *kind == FileKind::Net && text.as_bytes() == ROUTED_AND.net.as_bytes()
        }
        _ => false,
    };
    drop(receipt);
    is_so
}

/// Whether a journal with the bytes of a netlist and of its packing takes them, and the packing
/// again and again, and no other text.
fn takes_once(alloc: Global, core: &mut Service, graph: &DeviceGraph) -> bool {
    core.admit(4) == Ok((1, 0))
        && begins_packing(alloc, core, 1, AND)
        && finishes(core, graph, 1, 0, 1)
        && gets_net(core, 1)
        && gets_net(core, 1)
        && gets_net(core, 1)
        && is_refused(alloc, core, 1)
}

fn is_taken_over(alloc: Global, core: &mut Service) -> bool {
    match new_graph(alloc, 9) {
        Some(graph) => {
            let is_so = takes_once(alloc, core, &graph);
            drop(graph);
            is_so
        }
        None => false,
    }
}

fn one_is_taken(alloc: Global) -> bool {
    let limit = AND.len() as u64 + ROUTED_AND.net.len() as u64;
    match limited_core(alloc, limit) {
        Some(mut core) => {
            let is_so = is_taken_over(alloc, &mut core);
            drop(core);
            is_so
        }
        None => false,
    }
}

#[test]
fn a_file_that_is_asked_for_again_counts_once(rt: HostRuntime) {
    assert!(rt; one_is_taken(rt.alloc()));
}
