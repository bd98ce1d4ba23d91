//! Whether routes are trees that share no wire and no pin.
use crate::ends::{PinsAndRoutes, fault_of, nodes_of};
use crate::fault::{Fault, File, FileFault};
use crate::route_node::RouteNode;
use crate::steps::is_pad_row;
use line_text::TextError;
use rr_graph::{Node, NodeKind};
use std::alloc::Global;
use std::collections::BTreeMap;

/// A step of a net's route to a node.
#[derive(Clone, Copy)]
struct Step {
    /// The number of the net.
    net: usize,
    /// The node before.
    from: Node,
}

/// The steps of the nets so far, by the node to which they lead.
type Steps = BTreeMap<Node, Step>;

/// Checks that each node of a net's route has one node before it, that one output pin is on the
/// route, that no other net's route has its wires and pins, and that sources and sinks of logic
/// blocks have their class. Fails with the line of the net.
pub(crate) fn check_trees(
    alloc: Global,
    files: PinsAndRoutes<'_, '_>,
) -> Result<(), TextError<FileFault>> {
    let mut steps = BTreeMap::new(alloc);
    for (number, net) in files.nets.iter().enumerate() {
        match check_net(files.rows, nodes_of(files, number), number, &mut steps) {
            Ok(()) => {}
            Err(TextError::NoMemory) => return Err(TextError::NoMemory),
            Err(TextError::Fault(fault)) => return Err(fault_of(File::Route, net.line, fault)),
        }
    }
    Ok(())
}

/// Checks the route of the net of that number, and adds its steps.
fn check_net(
    rows: u32,
    nodes: &[RouteNode],
    number: usize,
    steps: &mut Steps,
) -> Result<(), TextError<Fault>> {
    let mut before = None;
    let mut pin = None;
    for read in nodes {
        let node = read.node;
        if !has_class(rows, node) {
            return Err(TextError::Fault(Fault::WrongClass));
        }
        if node.kind == NodeKind::Opin {
            if is_other(pin, node) {
                return Err(TextError::Fault(Fault::TwoPins));
            }
            pin = Some(node);
        }
        if let Some(from) = before {
            add_step(node, Step { net: number, from }, steps)?;
        }
        before = (node.kind != NodeKind::Sink).then_some(node);
    }
    Ok(())
}

/// Whether there is a node, and it is not this one.
fn is_other(found: Option<Node>, node: Node) -> bool {
    match found {
        Some(other) => other != node,
        None => false,
    }
}

/// Whether the source of a logic block is of class 1, and its sink of class 0.
fn has_class(rows: u32, node: Node) -> bool {
    match node.kind {
        NodeKind::Source => is_pad_row(rows, node.y) || node.n == 1,
        NodeKind::Sink => is_pad_row(rows, node.y) || node.n == 0,
        _ => true,
    }
}

/// Adds a step to the node, to which no other step of its net may lead, and no step of another net
/// if it is a wire or a pin.
fn add_step(node: Node, step: Step, steps: &mut Steps) -> Result<(), TextError<Fault>> {
    let earlier = steps.get(&node).copied();
    if let Some(fault) = fault_beside(node, step, earlier) {
        return Err(TextError::Fault(fault));
    }
    steps.insert(node, step)?;
    Ok(())
}

/// What is wrong with a step to the node after this earlier one.
fn fault_beside(node: Node, step: Step, earlier: Option<Step>) -> Option<Fault> {
    let earlier = earlier?;
    if earlier.net == step.net {
        return (earlier.from != step.from).then_some(Fault::TwoWays);
    }
    (node.kind != NodeKind::Sink).then_some(Fault::SharedNode)
}
