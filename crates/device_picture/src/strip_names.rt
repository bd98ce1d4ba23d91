//! The names of the tenancies, each above its strip.
use crate::frame::Frame;
use device_lines::{ListedDevice, Tenancy};
use line_text::Sink;
use picture_lines::{end_group, write_escaped};
use text_parts::{Part, Pen};

/// Writes a name as the text of an element.
pub(crate) fn write_name<K: Sink>(pen: &mut Pen<'_, K>, name: &[u8]) {
    pen.lend(|sink| write_escaped(sink, name));
}

/// Writes the name of each tenancy above its strip, in letters that fit the strip.
pub(crate) fn write_strip_names<K: Sink>(
    pen: &mut Pen<'_, K>,
    frame: Frame,
    device: &ListedDevice<'_>,
) {
    frame.begin_names(pen);
    for tenancy in device.tenancies.iter() {
        write_strip_name(pen, frame, *tenancy);
    }
    end_group(pen);
}

/// Writes the name of a tenancy above its strip.
fn write_strip_name<K: Sink>(pen: &mut Pen<'_, K>, frame: Frame, tenancy: Tenancy<'_>) {
    let lattice = frame.geometry.lattice;
    let length = lattice.span(tenancy.width) + lattice.channel;
    let start = lattice.start(tenancy.offset) + lattice.block;
    let letters = (tenancy.name.len() as u32).max(1);
    let tenths = (100 * length / (6 * letters)).clamp(1, 10 * frame.font);
    pen.write(&[
        Part::Text("<text x=\""),
        Part::Number(start + length / 2),
        Part::Text("\" dy=\"-.35em\" font-size=\""),
        Part::Number(tenths / 10),
        Part::Text("."),
        Part::Number(tenths % 10),
        Part::Text("\">"),
    ]);
    write_name(pen, tenancy.name);
    pen.text("</text>\n");
}
