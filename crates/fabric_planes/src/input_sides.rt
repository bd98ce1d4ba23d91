//! The sides of the input pins of logic blocks.
ghost use Rattle.std.specs.Prelude.{IfOk};
ghost use Rattle.fabric_planes.specs.InputSides.{AreInputSides};

use arch_file::Sides;
use rr_graph::{NodeKind, StripGraph, sides_at};
use std::alloc::{AllocError, Global};

/// The sides of the input pins of a logic block, in the order of their numbers. All blocks have the
/// same.
pub(crate) fn input_sides<G: StripGraph>(alloc: Global, graph: &G) -> Result<Vec<Sides>, AllocError>
    ensures { IfOk result (λ list. AreInputSides (G.basis graph.now) list.items) }
{
    graph.laws();
    let numbers = graph.numbers_at(NodeKind::Ipin, 1, 1);
    let mut list = Vec::new(alloc);
    for number in numbers.first..numbers.end {
        list.push(sides_at(graph.arch(), graph.strip(), graph.node(number)))?;
    }
    Ok(list)
}
