//! The `.route` file: what the nets of a placed and routed circuit connect.
ghost use Rattle.std.specs.Prelude.{◌≡◌, ◌<◌, ◌∷◌, [], All, length, map, slice_index_or};
ghost use Rattle.std.specs.List.{flat_map};
ghost use Rattle.vpr_files.specs.Prelude.{block_nets, blocks_of, places_by_block, place_of, Writes};
ghost use Rattle.vpr_files.specs.RouteFile.{connected_line, net_lines, route_text_of};
ghost use Rattle.vpr_files.specs.FileParts.{AreBlocks, IsRouted, connected_lines, connections, net_heading, node_line, numbered_net, route_headings, routed_lines};
ghost use Rattle.vpr_files.specs.TextLines.{line_of, text_of};

use crate::block_names::block_name;
use crate::net_file::net_name;
use crate::node_text::write_node;
use crate::writing::end_line;
use cluster::laws_of_packing;
use grid::Strip;
use itoa::Buffer;
use line_text::{Failed, Sink, write_slices};
use pathfinder::Routes;
use rr_graph::Node;
use strip_place::Placing;

/// Writes the `.route` file of a placed circuit with these routes of its nets. If the sink fails,
/// it has taken a beginning of the file.
///
/// - `Array size: WIDTH x ROWS logic blocks.` and `Routing:`, each followed by an empty line.
/// - For each net, in order: `Net NUMBER (NAME)` and an empty line; the nodes of each of its paths,
///   one on each line; and an empty line. A later path begins with the node at which it leaves the
///   earlier ones. A net that no block reads has no nodes.
/// - A global net is `Net NUMBER (NAME): global net connecting:`, and instead of nodes it has a
///   line `Block NAME (#NUMBER) at (X,Y).` for its driver, and one for each block that reads it, in
///   order.
pub fn route_text<W: Sink>(placing: &Placing, routes: &Routes, sink: &mut W) -> Result<(), Failed>
    requires nets { length routes.now ≡ length (block_nets placing.now.packed) }
    ensures { Writes W.contents W.has_failed sink.old sink.new
        (route_text_of placing.now.strip placing.now.packed (places_by_block placing.now)
        routes.now) result }
{
    write_headings(placing.strip(), sink)?;
    write_nets(placing, routes, sink)
}

fn write_headings<W: Sink>(strip: Strip, sink: &mut W) -> Result<(), Failed>
    ensures { Writes W.contents W.has_failed sink.old sink.new (text_of (route_headings strip))
        result }
{
    let mut width = Buffer::new();
    let mut rows = Buffer::new();
    write_slices(
        sink,
        &[
            b"Array size: ",
            width.format(strip.width).as_bytes(),
            b" x ",
            rows.format(strip.rows).as_bytes(),
            b" logic blocks.\n\nRouting:\n\n",
        ],
    )
}

fn write_nets<W: Sink>(placing: &Placing, routes: &Routes, sink: &mut W) -> Result<(), Failed>
    requires { length routes.now ≡ length (block_nets placing.now.packed) }
    ensures { Writes W.contents W.has_failed sink.old sink.new
        (text_of (routed_lines placing.now.strip placing.now.packed (places_by_block placing.now)
        routes.now)) result }
{
    for number in 0..placing.packed().net_count() {
        write_net(placing, routes, number, sink)?;
    }
    Ok(())
}

/// Writes the net with this number.
fn write_net<W: Sink>(
    placing: &Placing,
    routes: &Routes,
    number: usize,
    sink: &mut W,
) -> Result<(), Failed>
    requires { IsRouted placing.now.packed routes.now number }
    ensures { Writes W.contents W.has_failed sink.old sink.new
        (text_of (net_lines placing.now.strip placing.now.packed (places_by_block placing.now)
        number (numbered_net placing.now.packed number) (slice_index_or routes.now number [])))
        result }
{
    let packed = placing.packed();
    let net = packed.net(number);
    let name = net_name(packed.circuit(), net.net);
    write_net_heading(number, name, net.global, sink)?;
    write_connections(placing, routes, number, sink)?;
    end_line(sink)
}

/// Writes the first line of a net, and an empty one.
fn write_net_heading<W: Sink>(
    number: usize,
    name: &[u8],
    global: bool,
    sink: &mut W,
) -> Result<(), Failed>
    ensures { Writes W.contents W.has_failed sink.old sink.new
        (text_of (net_heading number name.now global ∷ [] ∷ [])) result }
{
    let mut buffer = Buffer::new();
    let digits = buffer.format(number).as_bytes();
    if global {
        write_slices(
            sink,
            &[
                b"Net ",
                digits,
                b" (",
                name,
                b"): global net connecting:\n\n",
            ],
        )
    } else {
        write_slices(sink, &[b"Net ", digits, b" (", name, b")\n\n"])
    }
}

/// Writes the blocks or the nodes that a net connects.
fn write_connections<W: Sink>(
    placing: &Placing,
    routes: &Routes,
    number: usize,
    sink: &mut W,
) -> Result<(), Failed>
    requires { IsRouted placing.now.packed routes.now number }
    ensures { Writes W.contents W.has_failed sink.old sink.new
        (text_of (connections placing.now.strip placing.now.packed (places_by_block placing.now)
        (numbered_net placing.now.packed number) (slice_index_or routes.now number []))) result }
{
    laws_of_packing();
    let packed = placing.packed();
    let _circuit = packed.circuit();
    let net = packed.net(number);
    if net.global {
        write_connected(placing, net.driver as usize, net.readers, sink)
    } else {
        write_paths(routes, number, placing.strip(), sink)
    }
}

/// Writes the blocks that a global net connects.
fn write_connected<W: Sink>(
    placing: &Placing,
    driver: usize,
    readers: &[u32],
    sink: &mut W,
) -> Result<(), Failed>
    requires { AreBlocks placing.now.packed driver readers.now }
    ensures { Writes W.contents W.has_failed sink.old sink.new
        (text_of (connected_lines placing.now.packed (places_by_block placing.now)
        (driver ∷ readers.now))) result }
{
    write_block(placing, driver, sink)?;
    write_readers(placing, readers, sink)
}

/// Writes the blocks that read a global net.
fn write_readers<W: Sink>(placing: &Placing, readers: &[u32], sink: &mut W) -> Result<(), Failed>
    requires { All (λ reader. reader < length (blocks_of placing.now.packed)) readers.now }
    ensures { Writes W.contents W.has_failed sink.old sink.new
        (text_of (connected_lines placing.now.packed (places_by_block placing.now) readers.now))
        result }
{
    for reader in readers {
        write_block(placing, *reader as usize, sink)?;
    }
    Ok(())
}

/// Writes the line of a block that a global net connects.
fn write_block<W: Sink>(placing: &Placing, block: usize, sink: &mut W) -> Result<(), Failed>
    requires { block < length (blocks_of placing.now.packed) }
    ensures { Writes W.contents W.has_failed sink.old sink.new
        (line_of (connected_line placing.now.packed block
        (place_of (places_by_block placing.now) block))) result }
{
    let packed = placing.packed();
    let place = placing.place_of(block);
    let name = block_name(packed, packed.block(block));
    let mut number = Buffer::new();
    let mut x = Buffer::new();
    let mut y = Buffer::new();
    write_slices(
        sink,
        &[
            b"Block ",
            name.before,
            name.net,
            b" (#",
            number.format(block).as_bytes(),
            b") at (",
            x.format(place.x).as_bytes(),
            b",",
            y.format(place.y).as_bytes(),
            b").\n",
        ],
    )
}

/// Writes the nodes of a net's paths.
fn write_paths<W: Sink>(
    routes: &Routes,
    net: usize,
    strip: Strip,
    sink: &mut W,
) -> Result<(), Failed>
    requires { net < length routes.now }
    ensures { Writes W.contents W.has_failed sink.old sink.new
        (text_of (flat_map (map (node_line strip)) (slice_index_or routes.now net []))) result }
{
    for number in 0..routes.path_count(net) {
        write_path(routes.path(net, number), strip, sink)?;
    }
    Ok(())
}

/// Writes the nodes of a path.
fn write_path<W: Sink>(path: &[Node], strip: Strip, sink: &mut W) -> Result<(), Failed>
    ensures { Writes W.contents W.has_failed sink.old sink.new
        (text_of (map (node_line strip) path.now)) result }
{
    for node in path {
        write_node_line(*node, strip, sink)?;
    }
    Ok(())
}

fn write_node_line<W: Sink>(node: Node, strip: Strip, sink: &mut W) -> Result<(), Failed>
    ensures { Writes W.contents W.has_failed sink.old sink.new (line_of (node_line strip node))
        result }
{
    write_node(node, strip.rows, sink)?;
    end_line(sink)
}
