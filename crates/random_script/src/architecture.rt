//! The architecture of a plan's device.
use crate::plan::Plan;
use line_text::Sink;
use text_parts::{Part, Pen};

/// The sides of a block, in the order in which its pins take them.
const SIDES: [&str; 4] = ["bottom", "left", "top", "right"];

/// Writes the architecture: clusters with inputs and outputs on all sides in turn, whose pins meet
/// each track.
pub(crate) fn write_architecture<K: Sink>(pen: &mut Pen<'_, K>, plan: Plan) {
    pen.write(&[Part::Text(
        "io_rat 2\nchan_width_io 1\nchan_width_x uniform 1\nchan_width_y uniform 1\n",
    )]);
    write_pins(pen, "inpin class: 0 ", plan.cluster_inputs());
    write_pins(pen, "outpin class: 1 ", plan.wishes.cluster);
    pen.write(&[
        Part::Text("inpin class: 2 global top\nsubblocks_per_clb "),
        Part::Number(plan.wishes.cluster),
        Part::Text("\nsubblock_lut_size "),
        Part::Number(plan.wishes.inputs),
        Part::Text("\nFc_type fractional\nFc_output 1\nFc_input 1\nFc_pad 1\n"),
        Part::Text("switch_block_type subset\n"),
        Part::Text("segment frequency: 1 length: 1 Frac_cb: 1 Frac_sb: 1\n"),
    ]);
}

fn write_pins<K: Sink>(pen: &mut Pen<'_, K>, start: &str, count: u32) {
    for pin in 0..count {
        pen.write(&[
            Part::Text(start),
            Part::Text(SIDES[(pin % 4) as usize]),
            Part::Text("\n"),
        ]);
    }
}
