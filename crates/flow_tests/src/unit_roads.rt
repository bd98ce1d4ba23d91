//! Shortest ways over the routing graph of a strip, after Bellman and Ford.

use crate::graphs::{NARROW, fabric_of, node};
use fixtures::{ARCHITECTURE, ONE_TRACK_A_PIN};
use rr_graph::{Fabric, Node, NodeKind, StripGraph};
use std::alloc::{AllocError, Global};

/// How many edges a way from a node has at least; the greatest number if no way is known.
fn left_at(left: &[u64], node: usize) -> u64 {
    left.get(node).copied().unwrap_or(u64::MAX)
}

/// How many edges a way from a node has at least, over one of its edges.
fn left_over_edge(fabric: &Fabric, left: &[u64], from: usize) -> u64 {
    let mut least = left_at(left, from);
    if from < fabric.count() {
        let ends = fabric.ends(from);
        for end in ends.list.iter() {
            let to = (*end as usize).saturating_add(ends.base);
            least = least.min(left_at(left, to).saturating_add(1));
        }
    }
    least
}

/// How many edges the ways from each node to the goal have at least.
fn ways_to(alloc: Global, fabric: &Fabric, goal: usize) -> Result<Vec<u64>, AllocError> {
    let mut left = vec![in alloc; u64::MAX; fabric.count()]?;
    if let Some(at) = left.get_mut(goal) {
        *at = 0;
    }
    for _round in 0..fabric.count() {
        for from in 0..fabric.count() {
            let least = left_over_edge(fabric, &left, from);
            if let Some(at) = left.get_mut(from) {
                *at = least;
            }
        }
    }
    Ok(left)
}

/// The least node from which a shortest way leads on.
fn next_node(fabric: &Fabric, left: &[u64], from: usize) -> usize {
    let mut next = usize::MAX;
    if from < fabric.count() {
        let ends = fabric.ends(from);
        for end in ends.list.iter() {
            let to = (*end as usize).saturating_add(ends.base);
            if left_at(left, to).saturating_add(1) == left_at(left, from) {
                next = next.min(to);
            }
        }
    }
    next
}

/// The path from the first pad to the block.
const ACROSS: [Node; 5] = [
    Node {
        x: 1,
        kind: NodeKind::Source,
        y: 0,
        n: 0,
    },
    Node {
        x: 1,
        kind: NodeKind::Opin,
        y: 0,
        n: 0,
    },
    Node {
        x: 1,
        kind: NodeKind::ChanX,
        y: 0,
        n: 0,
    },
    Node {
        x: 1,
        kind: NodeKind::Ipin,
        y: 1,
        n: 0,
    },
    Node {
        x: 1,
        kind: NodeKind::Sink,
        y: 1,
        n: 0,
    },
];

/// Returns whether the least of the shortest ways goes over these nodes.
fn goes_across(fabric: &Fabric, left: &[u64], start: usize) -> bool {
    let mut at = start;
    for stop in ACROSS[1..].iter() {
        at = next_node(fabric, left, at);
        if fabric.number(*stop) != Some(at) {
            return false;
        }
    }
    true
}

/// Returns whether the least path across is that one.
fn is_least_across(alloc: Global, fabric: &Fabric) -> bool {
    let (Some(start), Some(goal)) = (fabric.number(ACROSS[0]), fabric.number(ACROSS[4])) else {
        return false;
    };
    match ways_to(alloc, fabric, goal) {
        Ok(left) => {
            let is_so = left_at(&left, start) == 4 && goes_across(fabric, &left, start);
            drop(left);
            is_so
        }
        Err(_) => false,
    }
}

/// Returns whether no path leads from the block to the first pad above it.
fn has_no_path(alloc: Global, fabric: &Fabric) -> bool {
    let output = node(NodeKind::Source, 1, 1, 1);
    let pad = node(NodeKind::Sink, 1, 2, 0);
    let (Some(start), Some(goal)) = (fabric.number(output), fabric.number(pad)) else {
        return false;
    };
    match ways_to(alloc, fabric, goal) {
        Ok(left) => {
            let is_so = left_at(&left, start) == u64::MAX;
            drop(left);
            is_so
        }
        Err(_) => false,
    }
}

/// Every pin meets every track.
fn least_path_across(alloc: Global) -> bool {
    match fabric_of(alloc, ARCHITECTURE, 2, NARROW) {
        Some(fabric) => {
            let is_so = is_least_across(alloc, &fabric);
            drop(fabric);
            is_so
        }
        None => false,
    }
}

/// The block's output meets track 2 alone, the pad above it track 0 alone, and no wire leaves its
/// track.
fn no_path(alloc: Global) -> bool {
    match fabric_of(alloc, ONE_TRACK_A_PIN, 4, NARROW) {
        Some(fabric) => {
            let is_so = has_no_path(alloc, &fabric);
            drop(fabric);
            is_so
        }
        None => false,
    }
}

#[test]
fn unit_roads(rt: HostRuntime) {
    assert!(rt; least_path_across(rt.alloc()));
    assert!(rt; no_path(rt.alloc()));
}
