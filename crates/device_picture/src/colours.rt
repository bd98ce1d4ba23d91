//! The colours of tenancies.
use line_text::Sink;
use text_parts::{Part, Pen};

/// Writes the colour of the tenancy at an index of the list, as a value of CSS. The colours of
/// neighbouring indices differ strongly.
pub(crate) fn write_colour<K: Sink>(pen: &mut Pen<'_, K>, place: usize) {
    let place = (place % 360) as u32;
    let hue = (210 + 137 * place) % 360;
    let light = match place % 3 {
        0 => 42,
        1 => 50,
        _ => 34,
    };
    pen.write(&[
        Part::Text("hsl("),
        Part::Number(hue),
        Part::Text(",75%,"),
        Part::Number(light),
        Part::Text("%)"),
    ]);
}
