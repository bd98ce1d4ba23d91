//! Wires as lines.

use crate::geometry::Geometry;
use crate::marks::LONGEST_PATH;
use crate::runs::{Run, Runs};
use device_lines::OwnedResource;
use line_text::Sink;
use picture_lines::{Direction, write_line};
use rr_graph::ResourceKind;
use text_parts::Pen;

/// Writes the wires of one direction among these nodes, as paths. Adjoining wires are one line.
pub(crate) fn write_wires<K: Sink>(
    pen: &mut Pen<'_, K>,
    geometry: Geometry,
    owned: &[OwnedResource],
    direction: Direction,
    runs: &mut Runs,
) {
    runs.clear();
    for part in owned.chunks(LONGEST_PATH) {
        begin_path(pen);
        write_ended(pen, geometry, part, direction, runs);
        end_path(pen);
    }
    begin_path(pen);
    write_open(pen, geometry, direction, runs);
    end_path(pen);
}

/// Begins a path of wires.
fn begin_path<K: Sink>(pen: &mut Pen<'_, K>) {
    pen.text("<path class=\"w\" d=\"");
}

fn end_path<K: Sink>(pen: &mut Pen<'_, K>) {
    pen.text("\"/>\n");
}

/// Writes the lines that end among these nodes.
fn write_ended<K: Sink>(
    pen: &mut Pen<'_, K>,
    geometry: Geometry,
    owned: &[OwnedResource],
    direction: Direction,
    runs: &mut Runs,
) {
    for one in owned {
        if let Some(wire) = wire_of(*one, direction) {
            let lane = lane_of(geometry, wire, direction);
            if let Some(run) = runs.push(lane, wire) {
                write_run(pen, geometry, run, direction);
            }
        }
    }
}

/// Writes the lines that have not ended.
fn write_open<K: Sink>(
    pen: &mut Pen<'_, K>,
    geometry: Geometry,
    direction: Direction,
    runs: &Runs,
) {
    for open in runs.open() {
        if let Some(run) = *open {
            write_run(pen, geometry, run, direction);
        }
    }
}

/// A node as a wire of that direction; `None` if it isn't one.
fn wire_of(owned: OwnedResource, direction: Direction) -> Option<Run> {
    let node = owned.node;
    match (node.kind, direction) {
        (ResourceKind::ChanX, Direction::Across) => Some(Run::new(node.y, node.n, node.x)),
        (ResourceKind::ChanY, Direction::Up) => Some(Run::new(node.x, node.n, node.y)),
        _ => None,
    }
}

/// The lane in which a wire's run grows. In node order the wires of a column come one column at a
/// time.
fn lane_of(geometry: Geometry, wire: Run, direction: Direction) -> usize {
    let lane = match direction {
        Direction::Across => wire.channel * geometry.lattice.channel + wire.track,
        Direction::Up => wire.track,
    };
    lane as usize
}

/// Writes a line.
fn write_run<K: Sink>(pen: &mut Pen<'_, K>, geometry: Geometry, run: Run, direction: Direction) {
    let along = geometry.lattice.track(run.last, run.track);
    let across = geometry.lattice.track(run.channel, run.track);
    let length = geometry.lattice.span(run.count);
    match direction {
        Direction::Across => write_line(pen, along, across, "h-", length),
        Direction::Up => write_line(pen, across, along, "v-", length),
    }
}
