//! The picture, from its first byte to its last.
use crate::colours::write_colour;
use crate::frame::Frame;
use crate::geometry::Geometry;
use crate::ground::{write_column, write_ground};
use crate::legend::write_legend;
use crate::marks::write_marks;
use crate::runs::Runs;
use crate::strip_names::{write_name, write_strip_names};
use crate::view::owned_by;
use crate::wires::write_wires;
use device_lines::{ListedDevice, OwnedResource, Tenancy};
use line_text::Sink;
use picture_lines::{Direction, DrawError, end_group};
use rr_graph::ResourceKind;
use std::alloc::Global;
use text_parts::Pen;

/// The largest number of runs of horizontal wires that may grow at one time: the channels over 65
/// rows, with 65 places each.
const LANES: usize = 4225;

/// Writes the picture of a device as an SVG. Fails if memory runs out, before it writes anything,
/// or if the sink fails, which then has a first part of the picture.
///
/// - Each track of each channel is a line, each block and pad a box. Row 1 is the lowest.
/// - A strip is tinted in its tenancy's colour. An unused column beside a strip is hatched.
/// - Each owned wire, pin and pad has its owner's colour. Adjoining wires of one owner and track
///   are one line. A block's pins are arranged in a square in the order of their numbers, from its
///   lower left corner; the sides that they face are not shown.
/// - Each tenancy's name is above its strip.
/// - The legend has each tenancy's name, offset, width and state.
pub fn draw<K: Sink>(
    alloc: Global,
    device: &ListedDevice<'_>,
    sink: &mut K,
) -> Result<(), DrawError> {
    let mut runs = Runs::new(alloc, LANES)?;
    let mut pen = Pen::new(sink);
    draw_with(device, &mut pen, &mut runs);
    drop(runs);
    Ok(pen.end()?)
}

/// Writes the picture, with memory for these runs.
fn draw_with<K: Sink>(device: &ListedDevice<'_>, pen: &mut Pen<'_, K>, runs: &mut Runs) {
    let frame = Frame::of(device);
    frame.write_head(pen);
    write_column(pen, frame.geometry, device.size.pads);
    frame.write_heading(pen, device);
    frame.begin_device(pen);
    write_ground(pen, frame.geometry, device);
    write_tenancies(pen, frame.geometry, device, runs);
    end_group(pen);
    write_strip_names(pen, frame, device);
    frame.write_columns(pen);
    frame.write_rows(pen);
    write_legend(pen, frame, device);
    pen.text("</svg>\n");
}

/// Writes what the tenancies own.
fn write_tenancies<K: Sink>(
    pen: &mut Pen<'_, K>,
    geometry: Geometry,
    device: &ListedDevice<'_>,
    runs: &mut Runs,
) {
    for (place, tenancy) in device.tenancies.iter().enumerate() {
        let owned = owned_by(device, tenancy.id);
        begin_tenancy(pen, *tenancy, place);
        write_owned(pen, geometry, owned, runs);
        pen.text("</g>\n");
    }
}

/// Begins the group of a tenancy.
fn begin_tenancy<K: Sink>(pen: &mut Pen<'_, K>, tenancy: Tenancy<'_>, place: usize) {
    pen.text("<g color=\"");
    write_colour(pen, place);
    pen.text("\"><title>");
    write_name(pen, tenancy.name);
    pen.text("</title>\n");
}

/// Writes what a tenancy owns.
fn write_owned<K: Sink>(
    pen: &mut Pen<'_, K>,
    geometry: Geometry,
    owned: &[OwnedResource],
    runs: &mut Runs,
) {
    if owned.is_empty() {
        return;
    }
    write_wires(pen, geometry, owned, Direction::Across, runs);
    write_wires(pen, geometry, owned, Direction::Up, runs);
    write_marks(pen, geometry, owned, ResourceKind::Pad, "p");
    write_marks(pen, geometry, owned, ResourceKind::Opin, "o");
    write_marks(pen, geometry, owned, ResourceKind::Ipin, "i");
}
