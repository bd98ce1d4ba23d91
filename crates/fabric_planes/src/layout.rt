//! Where the wires of a strip are in its planes.
ghost use Rattle.std.specs.Prelude.{◌≡◌, ◌<◌, ◌≤◌, true, IfOk};
ghost use Rattle.std.specs.Bool.{MatchBool};
ghost use Rattle.fabric_planes.specs.Prelude.{graph_of};
ghost use Rattle.fabric_planes.specs.Tables.{IsFirstWire, AreFirsts};

use crate::arrival_rows::ArrivalRows;
use crate::distances::{Target, far_table};
use crate::input_sides::input_sides;
use crate::pin_rows::PinRows;
use crate::shape::Shape;
use crate::shaped_graph::ShapedGraph;
use crate::steps::{FirstWires, Steps};
use arch_file::Sides;
use rr_graph::{Node, NodeKind, StripGraph};
use std::alloc::{AllocError, Global};

/// In a table by place: no wire is here.
pub(crate) const NO_WIRE: u32 = u32::MAX;

/// Whether the node is a wire of the first track.
fn is_first_wire(node: Node) -> bool
    ensures { MatchBool result (IsFirstWire node) (IsFirstWire node → ⊥) }
{
    match node.kind {
        NodeKind::ChanX | NodeKind::ChanY => node.n == 0,
        _ => false,
    }
}

/// For each place the number of its first wire.
fn firsts_of<G: StripGraph>(
    alloc: Global,
    shaped: &ShapedGraph<'_, G>,
) -> Result<Vec<u32>, AllocError>
    ensures { IfOk result (λ firsts. AreFirsts (G.basis shaped.now.graph.now) firsts.items) }
{
    let (graph, shape) = (shaped.graph, shaped.shape);
    let mut firsts = Vec::from_elem(alloc, NO_WIRE, shape.places())?;
    for number in 0..graph.count() {
        let node = graph.node(number);
        if is_first_wire(node) {
            firsts[shape.place(node)] = number as u32;
        }
    }
    Ok(firsts)
}

/// Where the wires of a strip are in its planes, and how they lead to each other. It is made once
/// for a graph.
#[derive(Drop)]
pub struct Layout {
    pub(crate) shape: Shape,
    /// For each place the number of its first wire.
    pub(crate) firsts: Vec<u32>,
    /// The ends of the wires that are at no side of a sink's block or pad.
    pub(crate) steps: Steps,
    /// The distances to a horizontal wire, by difference of places.
    pub(crate) to_level: Vec<u8>,
    /// The same to a vertical wire, and to the nearest wire of a block.
    pub(crate) to_upright: Vec<u8>,
    pub(crate) to_block: Vec<u8>,
    /// The ends of the wires at the sides of blocks and pads.
    pub(crate) arrivals: ArrivalRows,
    /// The ends of pins.
    pub(crate) pins: PinRows,
    /// The sides of the input pins of a logic block, in the order of their numbers.
    pub(crate) inputs: Vec<Sides>,
}

impl Layout {
    ghost use Rattle.fabric_planes.specs.Laid.{IsLayout};

    /// The layout of a strip's graph.
    pub fn new<G: StripGraph>(alloc: Global, graph: &G) -> Result<Self, AllocError>
        ensures { IfOk result (λ layout. IsLayout (G.basis graph.now) layout) }
    {
        let shape = Shape::new(graph);
        let shaped = ShapedGraph { graph, shape };
        let firsts = firsts_of(alloc, &shaped)?;
        let wires = FirstWires {
            shaped: &shaped,
            firsts: firsts.as_slice(),
        };
        let steps = Steps::new(alloc, &wires)?;
        let to_level = far_table(alloc, shape, Target::Level)?;
        let to_upright = far_table(alloc, shape, Target::Upright)?;
        let to_block = far_table(alloc, shape, Target::Block)?;
        let arrivals = ArrivalRows::new(alloc, &shaped)?;
        let pins = PinRows::new(alloc, &shaped)?;
        let inputs = input_sides(alloc, graph)?;
        Ok(Layout {
            shape,
            firsts,
            steps,
            to_level,
            to_upright,
            to_block,
            arrivals,
            pins,
            inputs,
        })
    }
}
