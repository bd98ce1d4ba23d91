//! The blocks and pads, at their places.
ghost use Rattle.std.specs.Prelude.{◌≤◌};

use crate::names::{write_beginning, write_end, write_lines};
use crate::plan::Plan;
use line_text::Sink;
use picture_lines::write_box;
use rr_graph::NodeKind;
use strip_files::{BlockKind, PlacedBlock, RouteNode, RoutedStrip};
use text_parts::{Part, Pen};

/// The largest number of letters of a name in a title.
const TOLD_LETTERS: usize = 40;

/// Writes a box for each place of a logic block.
pub(crate) fn write_places<K: Sink>(pen: &mut Pen<'_, K>, plan: Plan) {
    let block = plan.lattice.block;
    pen.text("<defs><path id=\"e\" d=\"");
    for row in 1..=plan.size.rows {
        write_box(pen, 0, plan.lattice.start(row), block, block);
    }
    pen.text("\"/></defs>\n<g class=\"e\">\n");
    for column in 1..=plan.size.columns {
        pen.write(&[
            Part::Text("<use href=\"#e\" x=\""),
            Part::Number(plan.lattice.start(column)),
            Part::Text("\"/>\n"),
        ]);
    }
    pen.text("</g>\n");
}

/// Writes the blocks of each kind.
pub(crate) fn write_blocks<K: Sink>(pen: &mut Pen<'_, K>, plan: Plan, strip: &RoutedStrip<'_>) {
    write_kind(pen, plan, strip, BlockKind::Cluster, "k");
    write_kind(pen, plan, strip, BlockKind::InputPad, "i");
    write_kind(pen, plan, strip, BlockKind::OutputPad, "o");
}

/// Writes the blocks of a kind, as a group of a class.
fn write_kind<K: Sink>(
    pen: &mut Pen<'_, K>,
    plan: Plan,
    strip: &RoutedStrip<'_>,
    kind: BlockKind,
    class: &str,
) {
    pen.write(&[
        Part::Text("<g class=\""),
        Part::Text(class),
        Part::Text("\">\n"),
    ]);
    for (number, block) in strip.blocks.iter().enumerate() {
        if block.kind == kind {
            pen.text("<path d=\"");
            write_place(pen, plan, *block);
            pen.text("\"><title>");
            write_title(pen, *block, strip.elements_of(number));
            pen.text("</title></path>\n");
        }
    }
    pen.text("</g>\n");
}

/// Writes the box of a block.
fn write_place<K: Sink>(pen: &mut Pen<'_, K>, plan: Plan, block: PlacedBlock<'_>) {
    let place = block.place;
    let y = plan.lattice.start(place.y);
    let height = plan.lattice.block;
    if block.kind == BlockKind::Cluster {
        write_box(pen, plan.lattice.start(place.x), y, height, height);
    } else {
        let x = plan.pad_start(place.x, place.subblock);
        write_box(pen, x, y, plan.pad_width(), height);
    }
}

/// Writes the title of a block: its kind, its name, its place, and its BLEs.
fn write_title<K: Sink>(pen: &mut Pen<'_, K>, block: PlacedBlock<'_>, elements: &[&[u8]]) {
    let word = match block.kind {
        BlockKind::InputPad => "input ",
        BlockKind::OutputPad => "output ",
        BlockKind::Cluster => "cluster ",
    };
    pen.text(word);
    write_beginning(pen, block.name, TOLD_LETTERS);
    pen.write(&[
        Part::Text(" at ("),
        Part::Number(block.place.x),
        Part::Text(","),
        Part::Number(block.place.y),
        Part::Text(")"),
    ]);
    for element in elements {
        pen.text("\n");
        write_beginning(pen, element, TOLD_LETTERS);
    }
}

/// Writes the names of clusters, in a group in which heights count downwards from row 0.
pub(crate) fn write_cluster_names<K: Sink>(
    pen: &mut Pen<'_, K>,
    plan: Plan,
    strip: &RoutedStrip<'_>,
) {
    for block in strip.blocks.iter() {
        if block.kind == BlockKind::Cluster {
            let x = plan.lattice.start(block.place.x);
            let y = plan.lattice.start(block.place.y) + plan.lattice.block;
            begin_name(pen, x, "\" y=\"-", y, "\" dx=\".3em\" dy=\"1.1em\">");
            write_lines(pen, block.name, plan.letters as usize, x);
            pen.text("</text>\n");
        }
    }
}

/// Writes the names of pads, in a group that is turned so that texts run upwards.
pub(crate) fn write_pad_names<K: Sink>(pen: &mut Pen<'_, K>, plan: Plan, strip: &RoutedStrip<'_>) {
    let letters = (100 * plan.lattice.block / (6 * plan.pad_font)).saturating_sub(1);
    for block in strip.blocks.iter() {
        if block.kind != BlockKind::Cluster {
            let place = block.place;
            let middle = plan.pad_start(place.x, place.subblock) + plan.pad_width() / 2;
            let start = plan.lattice.start(place.y);
            begin_name(pen, start, "\" y=\"", middle, "\" dx=\".3em\" dy=\".5em\">");
            write_end(pen, block.name, letters as usize);
            pen.text("</text>\n");
        }
    }
}

/// Begins a text at a point, with the text between its coordinates and the text after them.
fn begin_name<'p, K: Sink>(pen: &mut Pen<'_, K>, x: u32, between: &'p str, y: u32, end: &'p str) {
    pen.write(&[
        Part::Text("<text x=\""),
        Part::Number(x),
        Part::Text(between),
        Part::Number(y),
        Part::Text(end),
    ]);
}

/// Writes boxes around the blocks and pads to which the pins of one kind among these nodes belong,
/// as a path of a class.
pub(crate) fn write_ends<K: Sink>(
    pen: &mut Pen<'_, K>,
    plan: Plan,
    nodes: &[RouteNode],
    kind: NodeKind,
    class: &str,
) {
    pen.write(&[
        Part::Text("<path class=\""),
        Part::Text(class),
        Part::Text("\" d=\""),
    ]);
    for read in nodes {
        if read.node.kind == kind {
            write_end_box(pen, plan, *read);
        }
    }
    pen.text("\"/>\n");
}

/// Writes boxes around the blocks of these numbers: around the first one as a driver, around the
/// others as readers.
pub(crate) fn write_end_blocks<K: Sink>(
    pen: &mut Pen<'_, K>,
    plan: Plan,
    strip: &RoutedStrip<'_>,
    ends: &[usize],
) {
    for (place, number) in ends.iter().enumerate() {
        if let Some(block) = strip.blocks.get(*number) {
            let start = if place == 0 {
                "<path class=\"s\" d=\""
            } else {
                "<path class=\"t\" d=\""
            };
            pen.text(start);
            write_place(pen, plan, *block);
            pen.text("\"/>\n");
        }
    }
}

/// Writes the box of the block or pad of a pin.
fn write_end_box<K: Sink>(pen: &mut Pen<'_, K>, plan: Plan, read: RouteNode) {
    let node = read.node;
    let y = plan.lattice.start(node.y);
    let height = plan.lattice.block;
    if node.y == 0 || node.y > plan.size.rows {
        write_box(
            pen,
            plan.pad_start(node.x, node.n),
            y,
            plan.pad_width(),
            height,
        );
    } else {
        write_box(pen, plan.lattice.start(node.x), y, height, height);
    }
}
