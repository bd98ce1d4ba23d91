//! The overused nodes of a routing that was given up, as lines.
ghost use Rattle.std.specs.List.{flat_map};
ghost use Rattle.one_user.specs.Prelude.{Writes};
ghost use Rattle.one_user.specs.CrowdingText.{crowded_line, crowding_text, line_end, load_text, net_word, overused_line};

use crate::crowding::{CrowdedNode, Crowding};
use line_text::{Failed, Sink};
use text_parts::{Part, write_parts};
use vpr_files::write_node;

/// Writes the number of overused nodes, and a line for each of the most overused ones: the node as
/// the `.route` file names it, the numbers of nets that use it and that it can carry, and the names
/// of those that use it. If the sink fails, it has taken a first part of the lines.
pub fn write_crowding<W: Sink>(sink: &mut W, crowding: &Crowding) -> Result<(), Failed>
    ensures { Writes W.contents W.has_failed sink.old sink.new (crowding_text crowding.now) result }
{
    write_overused(sink, crowding.overused)?;
    write_nodes(sink, crowding, &crowding.nodes)
}

/// Writes the line with the number of all overused nodes.
fn write_overused<W: Sink>(sink: &mut W, count: usize) -> Result<(), Failed>
    ensures { Writes W.contents W.has_failed sink.old sink.new (overused_line count) result }
{
    write_parts(
        sink,
        &[
            Part::Text("nodes left overused: "),
            Part::Long(count as u64),
            Part::Text("\n"),
        ],
    )
}

/// Writes the lines of these nodes.
fn write_nodes<W: Sink>(
    sink: &mut W,
    crowding: &Crowding,
    nodes: &[CrowdedNode],
) -> Result<(), Failed>
    ensures { Writes W.contents W.has_failed sink.old sink.new
        (flat_map (crowded_line crowding.now.packed crowding.now.rows) nodes.now) result }
{
    for crowded in nodes {
        write_crowded(sink, crowding, crowded)?;
    }
    Ok(())
}

/// Writes the line of a node.
fn write_crowded<W: Sink>(
    sink: &mut W,
    crowding: &Crowding,
    crowded: &CrowdedNode,
) -> Result<(), Failed>
    ensures { Writes W.contents W.has_failed sink.old sink.new
        (crowded_line crowding.now.packed crowding.now.rows crowded.now) result }
{
    write_node(crowded.node, crowding.rows, sink)?;
    write_load(sink, crowded)?;
    write_nets(sink, crowding, &crowded.nets)?;
    end_line(sink)
}

/// Writes the numbers of nets that use a node and that it can carry.
fn write_load<W: Sink>(sink: &mut W, crowded: &CrowdedNode) -> Result<(), Failed>
    ensures { Writes W.contents W.has_failed sink.old sink.new (load_text crowded.now) result }
{
    write_parts(
        sink,
        &[
            Part::Text(", "),
            Part::Number(crowded.occupancy),
            Part::Text(" nets, room for "),
            Part::Number(crowded.capacity),
            Part::Text(":"),
        ],
    )
}

/// Writes the names of these nets, each after a blank.
fn write_nets<W: Sink>(sink: &mut W, crowding: &Crowding, nets: &[usize]) -> Result<(), Failed>
    ensures { Writes W.contents W.has_failed sink.old sink.new
        (flat_map (net_word crowding.now.packed) nets.now) result }
{
    for net in nets {
        write_net(sink, crowding, *net)?;
    }
    Ok(())
}

/// Writes the name of a net after a blank.
fn write_net<W: Sink>(sink: &mut W, crowding: &Crowding, net: usize) -> Result<(), Failed>
    ensures { Writes W.contents W.has_failed sink.old sink.new (net_word crowding.now.packed net)
        result }
{
    let name = crowding.net_name(net);
    write_parts(sink, &[Part::Text(" "), Part::Bytes(name)])
}

/// Ends a line.
fn end_line<W: Sink>(sink: &mut W) -> Result<(), Failed>
    ensures { Writes W.contents W.has_failed sink.old sink.new line_end result }
{
    write_parts(sink, &[Part::Text("\n")])
}
