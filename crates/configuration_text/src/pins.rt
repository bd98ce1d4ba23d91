//! The pins that the routes take.
ghost use Rattle.std.specs.Prelude.{◌≡◌, ◌==◌, not, if◌then◌else◌};
ghost use Rattle.std.specs.List.{prefix_len};
ghost use Rattle.configuration_text.specs.Prelude.{has, global_number, signal_of, output_rank, paths_of, pin_in, pin_out, on_pin, pairs_of, steps_of};
ghost use Rattle.configuration_text.specs.Sides.{anchor, neighbor, node_beside};

use crate::nodes::is_same_node;
use arch_file::{Arch, PinClass};
use configuration::Signal;
use layouts::{LaidBlock, LaidPath, Layout};
use rr_graph::Node;

/// The paths of the net's tree.
pub(crate) fn paths_of(layout: &Layout, net: u32) -> &[LaidPath]
    ensures { result.now ≡ paths_of layout.now net }
{
    match layout.nets().iter().find(|between| between.net() == net) {
        Some(between) => between.paths(),
        None => &[],
    }
}

/// Which node of a step is wanted beside the other one.
#[derive(Clone, Copy)]
pub(crate) enum Side {
    /// The node after it.
    After,
    /// The node before it.
    Before,
}

impl Side {
    /// The node of the step beside which one is wanted.
    fn anchor(self, step: (Node, Node)) -> Node
        ensures { result ≡ anchor self step }
    {
        match self {
            Side::After => step.0,
            Side::Before => step.1,
        }
    }

    /// The node of the step that is wanted.
    fn neighbor(self, step: (Node, Node)) -> Node
        ensures { result ≡ neighbor self step }
    {
        match self {
            Side::After => step.1,
            Side::Before => step.0,
        }
    }
}

/// The node on that side of this one, on the first of the paths that has one.
fn node_beside(paths: &[LaidPath], node: Node, side: Side) -> Option<Node>
    ensures { result ≡ node_beside side (pairs_of paths.now) node }
{
    for path in paths {
        if let Some(found) = step_beside(path.nodes(), node, side) {
            return Some(found);
        }
    }
    None
}

/// The node on that side of this one on the path.
fn step_beside(path: &[Node], node: Node, side: Side) -> Option<Node>
    ensures { result ≡ node_beside side (steps_of path.now) node }
{
    for place in 0..path.len().saturating_sub(1) {
        let step = (path[place], path[place + 1]);
        if is_same_node(side.anchor(step), node) {
            return Some(side.neighbor(step));
        }
    }
    None
}

/// The pin by which the net's tree leaves the block: the node after the block's source. `None` if
/// the net has no tree that leaves there.
pub fn pin_out(layout: &Layout, laid: &LaidBlock, net: u32) -> Option<Node>
    ensures { result ≡ pin_out layout.now laid.now net }
{
    node_beside(paths_of(layout, net), laid.source(), Side::After)
}

/// The pin by which the net's tree comes to the block: the node before the block's sink. `None` if
/// the net has no tree that leads there.
pub fn pin_in(layout: &Layout, laid: &LaidBlock, net: u32) -> Option<Node>
    ensures { result ≡ pin_in layout.now laid.now net }
{
    node_beside(paths_of(layout, net), laid.sink(), Side::Before)
}

/// The number of output pins before this pin.
pub(crate) fn output_rank(arch: &Arch, pin: u32) -> usize
    ensures { result ≡ output_rank arch.now pin }
{
    let pins = arch.pins.as_slice();
    let before = &pins[..pins.len().min(pin as usize)];
    before
        .iter()
        .filter(|other| other.class == PinClass::Output)
        .count()
}

/// The net on a pin of the block, if the pin is of that class.
pub(crate) fn on_pin(arch: &Arch, laid: &LaidBlock, class: PinClass, pin: usize) -> Option<u32>
    ensures { result ≡ on_pin arch.now laid.now class pin }
{
    match arch.pins.as_slice().get(pin) {
        Some(found) if found.class == class => match laid.pins().get(pin) {
            Some(carried) => *carried,
            None => None,
        },
        _ => None,
    }
}

/// The number of a net on the global network, if it goes over that.
pub(crate) fn global_number(layout: &Layout, net: u32) -> Option<usize>
    ensures { result ≡ global_number layout.now net }
{
    number_of(layout.globals(), net)
}

/// The index of the first of the nets that is this net.
fn number_of(nets: &[u32], net: u32) -> Option<usize>
    ensures { result
        ≡ (if has nets.now net then Some (prefix_len (λ other. not (other == net)) nets.now)
        else None) }
{
    for (number, other) in nets.iter().enumerate() {
        if *other == net {
            return Some(number);
        }
    }
    None
}

/// What an input with the net of a pin takes.
pub(crate) fn signal_of(layout: &Layout, laid: &LaidBlock, net: u32) -> Option<Signal>
    ensures { result ≡ signal_of layout.now laid.now net }
{
    match global_number(layout, net) {
        Some(number) => Some(Signal::FromGlobal(number)),
        None => match pin_in(layout, laid, net) {
            Some(pin) => Some(Signal::FromPin(pin.n as usize)),
            None => None,
        },
    }
}
