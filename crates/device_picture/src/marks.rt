//! Pins and pads as rectangles.
ghost use Rattle.std.specs.Prelude.{◌≤◌};

use crate::geometry::Geometry;
use device_lines::OwnedResource;
use line_text::Sink;
use rr_graph::ResourceKind;
use text_parts::{Part, Pen};

/// The largest number of nodes in one path.
pub(crate) const LONGEST_PATH: usize = 4096;

/// A rectangle.
#[derive(Clone, Copy)]
struct Mark {
    x: u32,
    y: u32,
    width: u32,
    height: u32,
}

/// Writes the pins or the pads of one kind among these nodes, as paths of a class.
pub(crate) fn write_marks<K: Sink>(
    pen: &mut Pen<'_, K>,
    geometry: Geometry,
    owned: &[OwnedResource],
    kind: ResourceKind,
    class: &str,
) {
    for part in owned.chunks(LONGEST_PATH) {
        pen.write(&[
            Part::Text("<path class=\""),
            Part::Text(class),
            Part::Text("\" d=\""),
        ]);
        write_path(pen, geometry, part, kind);
        pen.text("\"/>\n");
    }
}

/// Writes the pins or the pads of one kind among these nodes.
fn write_path<K: Sink>(
    pen: &mut Pen<'_, K>,
    geometry: Geometry,
    owned: &[OwnedResource],
    kind: ResourceKind,
) {
    for one in owned {
        if one.node.kind == kind {
            write_mark(pen, mark_of(geometry, *one));
        }
    }
}

/// Writes a rectangle.
fn write_mark<K: Sink>(pen: &mut Pen<'_, K>, mark: Mark) {
    pen.write(&[Part::Text("M"), Part::Number(mark.x)]);
    pen.write(&[Part::Text(" "), Part::Number(mark.y)]);
    pen.write(&[Part::Text("h"), Part::Number(mark.width)]);
    pen.write(&[Part::Text("v"), Part::Number(mark.height)]);
    pen.write(&[Part::Text("h-"), Part::Number(mark.width)]);
    pen.text("z");
}

/// The rectangle of a pin or a pad.
fn mark_of(geometry: Geometry, owned: OwnedResource) -> Mark {
    let node = owned.node;
    let is_pad = node.y == 0 || node.y > geometry.rows;
    if !is_pad {
        return pin_mark(geometry, owned);
    }
    if node.kind == ResourceKind::Pad {
        pad_mark(geometry, owned, geometry.pad_height)
    } else {
        pad_mark(geometry, owned, geometry.pad_height / 2)
    }
}

/// The part of a pad with that height, on the side of the channel.
fn pad_mark(geometry: Geometry, owned: OwnedResource, height: u32) -> Mark
    requires { height ≤ geometry.pad_height }
{
    let node = owned.node;
    Mark {
        x: geometry.lattice.start(node.x) + node.n * geometry.pad,
        y: if node.y == 0 {
            geometry.lattice.block.saturating_sub(height)
        } else {
            geometry.lattice.start(node.y)
        },
        width: geometry.pad - 1,
        height,
    }
}

/// The place of a pin in its block: pins are side by side, from the lower left corner.
fn pin_mark(geometry: Geometry, owned: OwnedResource) -> Mark {
    let node = owned.node;
    let length = geometry.pin - geometry.pin / 4;
    Mark {
        x: geometry.lattice.start(node.x) + geometry.inset + node.n % geometry.side * geometry.pin,
        y: geometry.lattice.start(node.y) + geometry.inset + node.n / geometry.side * geometry.pin,
        width: length,
        height: length,
    }
}
