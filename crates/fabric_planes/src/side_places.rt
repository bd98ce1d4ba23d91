//! Where the wires at the sides of a sink's block or pad are in their planes.
ghost use Rattle.std.specs.Prelude.{All, ◌≡◌, ◌^◌, ◌<◌, ◌≤◌, OnOk};
ghost use Rattle.fabric_planes.specs.Aheads.{AreSides};
ghost use Rattle.fabric_planes.specs.SidePlaces.{IsInStrip, side_places};
ghost use Rattle.fabric_planes.specs.Tables.{IsNearby, IsShapeOf};
ghost use Rattle.fabric_planes.specs.Prelude.{Basis, IsBasis};

use crate::shape::Shape;
use rr_graph::Node;
use std::alloc::AllocError;

/// Lists the places of the wires above, below, to the right and to the left of the sink's block or
/// pad. If no wire can be there, the number of places stands for it.
fn list_places(shape: Shape, sink: Node, sides: &mut Vec<usize>) -> Result<(), AllocError>
    requires { IsNearby sink }
    ensures value { (basis : Basis) → IsShapeOf basis shape →
        OnOk result (sides.new.items ≡ side_places basis sink) }
    ensures few { OnOk result (All (λ place. place < 2 ^ 20) sides.new.items) }
{
    let (row, column) = (sink.y as usize, shape.column(sink.x));
    let none = shape.places();
    let under = if 1 <= sink.y {
        column + (shape.level() + (row - 1))
    } else {
        none
    };
    let before = if 1 <= sink.x {
        shape.column(sink.x - 1) + (shape.upright() + row)
    } else {
        none
    };
    sides.clear();
    sides.push(column + (shape.level() + row))?;
    sides.push(under)?;
    sides.push(column + (shape.upright() + row))?;
    sides.push(before)?;
    Ok(())
}

/// Lists the places of the wires at the sides of the sink's block or pad.
pub(crate) fn list_sides(shape: Shape, sink: Node, sides: &mut Vec<usize>) -> Result<(), AllocError>
    requires { IsNearby sink }
    ensures are_sides { (basis : Basis) → IsBasis basis → IsShapeOf basis shape → IsInStrip basis
        sink →
        OnOk result (AreSides basis sink sides.new.items) }
    ensures few { OnOk result (All (λ place. place < 2 ^ 20) sides.new.items) }
{
    list_places(shape, sink, sides)?;
    Ok(())
}
