//! The legend: the tenancies with their names, and what the marks mean.

use crate::colours::write_colour;
use crate::frame::Frame;
use crate::strip_names::write_name;
use device_lines::{ListedDevice, Tenancy};
use line_text::Sink;
use picture_lines::write_swatch;
use text_parts::{Part, Pen};

/// What the marks mean: the class of each, and its words.
const KEYS: [(&str, &str); 4] = [
    ("o", "output pin"),
    ("i", "input pin"),
    ("p", "pad"),
    ("g", "guard column"),
];

pub(crate) fn write_legend<K: Sink>(pen: &mut Pen<'_, K>, frame: Frame, device: &ListedDevice<'_>) {
    for (place, tenancy) in device.tenancies.iter().enumerate() {
        write_tenancy(pen, frame, *tenancy, place);
    }
    for (key, (class, words)) in KEYS.iter().enumerate() {
        let place = device.tenancies.len().saturating_add(key);
        write_entry(pen, frame, place, class);
        pen.write(&[Part::Text(words), Part::Text("</text>\n</g>\n")]);
    }
}

/// Writes the entry of a tenancy.
fn write_tenancy<K: Sink>(pen: &mut Pen<'_, K>, frame: Frame, tenancy: Tenancy<'_>, place: usize) {
    pen.text("<g color=\"");
    write_colour(pen, place);
    pen.text("\">");
    write_entry(pen, frame, place, "o");
    write_name(pen, tenancy.name);
    pen.write(&[
        Part::Text(": offset "),
        Part::Number(tenancy.offset),
        Part::Text(", width "),
        Part::Number(tenancy.width),
        Part::Text(", "),
    ]);
    write_name(pen, tenancy.state);
    pen.text("</text>\n</g></g>\n");
}

/// Writes a square of a class at a place of the legend, and begins the text beside it.
fn write_entry<K: Sink>(pen: &mut Pen<'_, K>, frame: Frame, place: usize, class: &str) {
    let place = place.min(1000) as u32;
    let font = frame.font;
    let x = font + place % frame.side * frame.entry;
    let y = frame.legend() + place / frame.side * 2 * font;
    write_swatch(pen, x, y, font, class);
}
