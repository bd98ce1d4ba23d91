//! The background of what the tenancies own: tracks, blocks, pads, strips and guard columns.
ghost use Rattle.std.specs.Prelude.{◌≤◌};
ghost use Rattle.arch_file.specs.declared.arch.TheConstants.{MAX_IO_RAT, MAX_TRACKS};

use crate::colours::write_colour;
use crate::geometry::Geometry;
use crate::view::is_guard;
use device_lines::{ListedDevice, Tenancy};
use line_text::Sink;
use picture_lines::{write_box, write_line};
use text_parts::{Part, Pen};

/// Writes the background of what the tenancies own.
pub(crate) fn write_ground<K: Sink>(
    pen: &mut Pen<'_, K>,
    geometry: Geometry,
    device: &ListedDevice<'_>,
) {
    write_strips(pen, geometry, device);
    write_tracks(pen, geometry, device.size.tracks);
    write_columns(pen, geometry);
    write_guards(pen, geometry, device);
}

/// Writes what the background refers to: the blocks and pads of a column, as if it were column 0.
pub(crate) fn write_column<K: Sink>(pen: &mut Pen<'_, K>, geometry: Geometry, pads: u32)
    requires { pads ≤ MAX_IO_RAT }
{
    pen.text("<defs><path id=\"c\" class=\"b\" d=\"");
    for row in 1..=geometry.rows {
        write_box(
            pen,
            0,
            geometry.lattice.start(row),
            geometry.lattice.block,
            geometry.lattice.block,
        );
    }
    for pad in 0..pads {
        write_pads(pen, geometry, pad);
    }
    pen.text("\"/></defs>\n");
}

/// Writes the two pads of that number.
fn write_pads<K: Sink>(pen: &mut Pen<'_, K>, geometry: Geometry, pad: u32)
    requires { pad ≤ MAX_IO_RAT }
{
    let x = pad * geometry.pad;
    let width = geometry.pad - 1;
    let height = geometry.pad_height;
    write_box(pen, x, geometry.bottom(), width, height);
    write_box(
        pen,
        x,
        geometry.lattice.start(geometry.rows + 1),
        width,
        height,
    );
}

fn write_columns<K: Sink>(pen: &mut Pen<'_, K>, geometry: Geometry) {
    for column in 1..=geometry.columns {
        pen.write(&[
            Part::Text("<use href=\"#c\" x=\""),
            Part::Number(geometry.lattice.start(column)),
            Part::Text("\"/>\n"),
        ]);
    }
}

/// Writes a line for each track of each channel.
fn write_tracks<K: Sink>(pen: &mut Pen<'_, K>, geometry: Geometry, tracks: u32)
    requires { tracks ≤ MAX_TRACKS }
{
    pen.text("<path class=\"t\" d=\"");
    for track in 0..tracks {
        write_across(pen, geometry, track);
        write_upwards(pen, geometry, track);
    }
    pen.text("\"/>\n");
}

/// Writes the lines of that track in the horizontal channels.
fn write_across<K: Sink>(pen: &mut Pen<'_, K>, geometry: Geometry, track: u32)
    requires { track ≤ MAX_TRACKS }
{
    let end = geometry.lattice.track(geometry.columns, track);
    let length = geometry.lattice.span(geometry.columns);
    for row in 0..=geometry.rows {
        write_line(pen, end, geometry.lattice.track(row, track), "h-", length);
    }
}

/// Writes the lines of that track in the vertical channels.
fn write_upwards<K: Sink>(pen: &mut Pen<'_, K>, geometry: Geometry, track: u32)
    requires { track ≤ MAX_TRACKS }
{
    let end = geometry.lattice.track(geometry.rows, track);
    let length = geometry.lattice.span(geometry.rows);
    for column in 0..=geometry.columns {
        write_line(
            pen,
            geometry.lattice.track(column, track),
            end,
            "v-",
            length,
        );
    }
}

fn write_strips<K: Sink>(pen: &mut Pen<'_, K>, geometry: Geometry, device: &ListedDevice<'_>) {
    for (place, tenancy) in device.tenancies.iter().enumerate() {
        pen.text("<path class=\"s\" color=\"");
        write_colour(pen, place);
        write_strip(pen, geometry, *tenancy);
    }
}

/// Writes the outline of a strip, with the channels at both sides.
fn write_strip<K: Sink>(pen: &mut Pen<'_, K>, geometry: Geometry, tenancy: Tenancy<'_>) {
    let x = geometry.lattice.start(tenancy.offset) + geometry.lattice.block;
    let width = geometry.lattice.span(tenancy.width) + geometry.lattice.channel;
    pen.text("\" d=\"");
    write_box(pen, x, geometry.bottom(), width, geometry.height());
    pen.text("\"/>\n");
}

/// Writes the guard columns.
fn write_guards<K: Sink>(pen: &mut Pen<'_, K>, geometry: Geometry, device: &ListedDevice<'_>) {
    pen.text("<path class=\"g\" d=\"");
    for column in 1..=geometry.columns {
        if is_guard(device, column) {
            let x = geometry.lattice.start(column);
            write_box(
                pen,
                x,
                geometry.bottom(),
                geometry.lattice.block,
                geometry.height(),
            );
        }
    }
    pen.text("\"/>\n");
}
