//! Names, as XML writes them, and as much of them as fits.

use line_text::Sink;
use picture_lines::write_escaped;
use text_parts::{Part, Pen};

/// Writes a name, or a part of one, as [`write_escaped`] does.
fn escape<K: Sink>(pen: &mut Pen<'_, K>, bytes: &[u8]) {
    pen.lend(|sink| write_escaped(sink, bytes));
}

/// Writes a name; if it has more than `letters` letters, its first ones and a sign that some are
/// missing.
pub(crate) fn write_beginning<K: Sink>(pen: &mut Pen<'_, K>, name: &[u8], letters: usize) {
    if name.len() <= letters {
        return escape(pen, name);
    }
    escape(pen, front(name, letters));
    pen.text("…");
}

/// Writes a name in one line of `letters` letters; if it is longer, its last ones, after a sign
/// that some are missing.
pub(crate) fn write_end<K: Sink>(pen: &mut Pen<'_, K>, name: &[u8], letters: usize) {
    if name.len() <= letters {
        return escape(pen, name);
    }
    pen.text("…");
    escape(pen, last_bytes(name, letters.saturating_sub(1)));
}

/// Writes a name in up to three lines of `letters` letters, as the inside of a `text` whose lines
/// begin at that column. If it is longer, the first line and the last two are written.
pub(crate) fn write_lines<K: Sink>(pen: &mut Pen<'_, K>, name: &[u8], letters: usize, x: u32) {
    escape(pen, front(name, letters));
    let rest = bytes_after(name, letters);
    if rest.is_empty() {
        return;
    }
    begin_line(pen, x);
    if rest.len() <= letters.saturating_mul(2) {
        escape(pen, front(rest, letters));
    } else {
        let end = last_bytes(rest, letters.saturating_mul(2).saturating_sub(1));
        pen.text("…");
        escape(pen, front(end, letters.saturating_sub(1)));
    }
    pen.text("</tspan>");
    let rest = bytes_after(rest, letters);
    if rest.is_empty() {
        return;
    }
    begin_line(pen, x);
    escape(pen, last_bytes(rest, letters));
    pen.text("</tspan>");
}

/// Begins the next line.
fn begin_line<K: Sink>(pen: &mut Pen<'_, K>, x: u32) {
    pen.write(&[
        Part::Text("<tspan x=\""),
        Part::Number(x),
        Part::Text("\" dx=\".3em\" dy=\"1.1em\">"),
    ]);
}

/// The first `count` bytes, or all.
fn front(name: &[u8], count: usize) -> &[u8] {
    let (front, _) = name.split_at(count.min(name.len()));
    front
}

/// The bytes after the first `count`.
fn bytes_after(name: &[u8], count: usize) -> &[u8] {
    let (_, back) = name.split_at(count.min(name.len()));
    back
}

/// The last `count` bytes, or all.
fn last_bytes(name: &[u8], count: usize) -> &[u8] {
    bytes_after(name, name.len().saturating_sub(count))
}
