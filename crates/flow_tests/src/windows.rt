//! What windows show of a device of five columns.
ghost use Rattle.std.specs.Prelude.{◌≤◌};

use crate::graphs::{NARROW, WIDE, pair_count};
use arch_file::read_arch;
use fixtures::ARCHITECTURE;
use rr_graph::{Node, NodeKind, StripGraph};
use std::alloc::Global;
use strips::{DeviceGraph, Window, shift, unshift};

/// Returns whether the window at that offset shows a node of the device.
fn shows(window: &Window<'_>, offset: u32, node: Node) -> bool {
    match unshift(offset, node) {
        Some(node) => window.number(node).is_some(),
        None => false,
    }
}

/// How many of the device's pairs lead from a node, by its number, out of the window.
fn leaving_from(device: &Window<'_>, window: &Window<'_>, offset: u32, from: usize) -> usize {
    let mut leaving = 0usize;
    let count = device.count();
    if from < count && shows(window, offset, device.node(from)) {
        let ends = device.ends(from);
        for end in ends.list {
            let end = ends.base.saturating_add(*end as usize);
            if end < count && !shows(window, offset, device.node(end)) {
                leaving = leaving.saturating_add(1);
            }
        }
    }
    leaving
}

/// How many of the device's pairs lead out of the window.
fn leaving_pairs(device: &Window<'_>, window: &Window<'_>, offset: u32) -> usize {
    let mut leaving = 0usize;
    for from in 0..device.count() {
        leaving = leaving.saturating_add(leaving_from(device, window, offset, from));
    }
    leaving
}

/// Returns whether a window of one column shows 29 nodes and 49 pairs, and `leaving` of the
/// device's pairs leave it.
fn counts_so(graph: &DeviceGraph, offset: u32, leaving: usize) -> bool {
    match (
        Window::new(graph, 0, WIDE),
        Window::new(graph, offset, NARROW),
    ) {
        (Some(device), Some(window)) => {
            device.count() == 137
                && window.count() == 29
                && pair_count(&window) == 49
                && leaving_pairs(&device, &window, offset) == leaving
        }
        _ => false,
    }
}

/// Returns whether the windows at the first, an inner and the last column show what is right, and
/// there is no window after the last.
fn window_counts(graph: &DeviceGraph) -> bool {
    counts_so(graph, 0, 10)
        && counts_so(graph, 2, 18)
        && counts_so(graph, 4, 8)
        && Window::new(graph, 5, NARROW).is_none()
}

/// Returns whether a node is moved to a strip's offset, and back.
fn moves_nodes() -> bool {
    let own = Node {
        x: 1,
        kind: NodeKind::ChanX,
        y: 0,
        n: 1,
    };
    let there = Node { x: 3, ..own };
    shift(2, own) == there && unshift(2, there) == Some(own) && unshift(4, there).is_none()
}

fn windows_of_five_columns(alloc: Global) -> bool {
    match read_arch(alloc, ARCHITECTURE.as_bytes(), 2) {
        Ok(arch) => {
            let graph = DeviceGraph::new(alloc, &arch, 5, 1);
            drop(arch);
            match graph {
                Ok(graph) => {
                    let is_so = window_counts(&graph);
                    drop(graph);
                    is_so
                }
                Err(_) => false,
            }
        }
        Err(_) => false,
    }
}

#[test]
fn windows(rt: HostRuntime) {
    assert!(rt; moves_nodes());
    assert!(rt; windows_of_five_columns(rt.alloc()));
}
