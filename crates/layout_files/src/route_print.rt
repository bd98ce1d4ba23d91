//! Compares the print of a layout's routes with the `.route` file.
ghost use Rattle.std.specs.Prelude.{◌≡◌, ◌++◌, ◌∷◌, [], codes, decimal, map};
ghost use Rattle.std.specs.List.{enumerate_from, flat_map};
ghost use Rattle.layout_files.specs.Cursors.{IsSame, left_after};
ghost use Rattle.layout_files.specs.Printing.{connected_text, node_lines};
ghost use Rattle.layout_files.specs.Prelude.{between_lines, block_of, laid_name, listed_line, route_text, node_text_of, position_text, line_of, text_of};

use crate::cursor::Cursor;
use crate::laid_names::{LaidName, laid_name, net_name};
use crate::node_words::{is_pad_row, kind_start, number_start};
use blif::Circuit;
use grid::{Place, Strip};
use layouts::{LaidNet, LaidPath, Layout};
use line_text::TextError;
use rr_graph::Node;
use strip_files::{File, FileFault};
use text_parts::Part;

/// Compares the print of the routes with the `.route` file.
pub(crate) fn compare_route(
    circuit: &Circuit,
    strip: Strip,
    text: &[u8],
    layout: &Layout,
) -> Result<(), TextError<FileFault>>
    ensures { IsSame result text.now (route_text circuit.now strip layout.now) }
{
    let mut print = Cursor::new(text);
    print.print(&[
        Part::Text("Array size: "),
        Part::Number(strip.width),
        Part::Text(" x "),
        Part::Number(strip.rows),
        Part::Text(" logic blocks.\n\nRouting:\n\n"),
    ]);
    print_nets(&mut print, circuit, strip, layout);
    print.outcome(File::Route, text)
}

/// Prints the nets, with their numbers.
fn print_nets(print: &mut Cursor<'_>, circuit: &Circuit, strip: Strip, layout: &Layout)
    ensures { print.new ≡ left_after print.old (text_of (flat_map (λ net. between_lines circuit.now strip layout.now net.0 net.1 net.1.listed) (enumerate_from 0 layout.now.nets))) }
{
    for (number, net) in layout.nets().iter().enumerate() {
        print_net(print, circuit, strip, layout, number, net);
    }
}

/// Prints the net of that number.
fn print_net(
    print: &mut Cursor<'_>,
    circuit: &Circuit,
    strip: Strip,
    layout: &Layout,
    number: usize,
    net: &LaidNet,
)
    ensures { print.new ≡ left_after print.old (text_of (between_lines circuit.now strip layout.now number net.now net.now.listed)) }
{
    print.print(&[
        Part::Text("Net "),
        Part::Long(number as u64),
        Part::Text(" ("),
        Part::Bytes(net_name(circuit, net.net())),
    ]);
    print_connected(print, circuit, strip, layout, net);
    print.print(&[Part::Text("\n")])
}

/// Prints what follows a net's name: the lines of the blocks that are listed with it, or, if no
/// block is, the nodes of its paths.
fn print_connected(
    print: &mut Cursor<'_>,
    circuit: &Circuit,
    strip: Strip,
    layout: &Layout,
    net: &LaidNet,
)
    ensures { print.new ≡ left_after print.old (connected_text circuit.now strip layout.now net.now net.now.listed) }
{
    if net.listed_blocks().is_empty() {
        print.print(&[Part::Text(")\n\n")]);
        print_paths(print, strip.rows, net.paths());
        return;
    }
    print.print(&[Part::Text("): global net connecting:\n\n")]);
    print_listed(print, circuit, layout, net.listed_blocks());
}

/// Prints the lines of the listed blocks.
fn print_listed(print: &mut Cursor<'_>, circuit: &Circuit, layout: &Layout, listed: &[u32])
    ensures { print.new ≡ left_after print.old (text_of (map (λ block. listed_line circuit.now block (block_of layout.now block)) listed.now)) }
{
    for number in listed {
        print_block(print, circuit, layout, *number);
    }
}

/// Prints the line of the listed block of that number. If there is none, it has no name, and is at
/// place 0.
fn print_block(print: &mut Cursor<'_>, circuit: &Circuit, layout: &Layout, number: u32)
    ensures { print.new ≡ left_after print.old
        (line_of (listed_line circuit.now number (block_of layout.now number))) }
{
    match layout.blocks().get(number as usize) {
        Some(laid) => print_listed_line(print, number, laid_name(circuit, laid), laid.place()),
        None => print_listed_line(
            print,
            number,
            LaidName {
                before: &[],
                net: &[],
            },
            Place {
                x: 0,
                y: 0,
                subblock: 0,
            },
        ),
    }
}

/// Prints the line of a listed block of that name at a place.
fn print_listed_line(print: &mut Cursor<'_>, number: u32, name: LaidName<'_>, place: Place)
    ensures { print.new ≡ left_after print.old (line_of
        (codes "Block" ∷ (name.entry.before.now ++ name.entry.net.now)
        ∷ (codes "(#" ++ decimal number ++ codes ")") ∷ codes "at"
        ∷ (position_text place.x place.y ++ codes ".") ∷ [])) }
{
    print.print(&[
        Part::Text("Block "),
        Part::Bytes(name.before),
        Part::Bytes(name.net),
        Part::Text(" (#"),
        Part::Number(number),
        Part::Text(") at ("),
        Part::Number(place.x),
        Part::Text(","),
        Part::Number(place.y),
        Part::Text(").\n"),
    ])
}

/// Prints the nodes of paths.
fn print_paths(print: &mut Cursor<'_>, rows: u32, paths: &[LaidPath])
    ensures { print.new ≡ left_after print.old (text_of (flat_map (node_lines rows) paths.now)) }
{
    for path in paths {
        print_path(print, rows, path.nodes());
    }
}

/// Prints the nodes of a path, one on each line.
fn print_path(print: &mut Cursor<'_>, rows: u32, path: &[Node])
    ensures { print.new ≡ left_after print.old (text_of (node_lines rows path.now)) }
{
    for node in path {
        print_node(print, rows, *node);
    }
}

/// Prints the line of a node.
fn print_node(print: &mut Cursor<'_>, rows: u32, node: Node)
    ensures { print.new ≡ left_after print.old (line_of (node_text_of rows node ∷ [])) }
{
    print.print(&[
        Part::Bytes(kind_start(node.kind)),
        Part::Number(node.x),
        Part::Text(","),
        Part::Number(node.y),
        Part::Bytes(number_start(node.kind, is_pad_row(rows, node.y))),
        Part::Number(node.n),
    ]);
    print.print(&[Part::Text("\n")])
}
