//! Where a routing that was given up is overused, as JSON.
ghost use Rattle.std.specs.Prelude.{◌≡◌, ◌++◌, OnOk, map};
ghost use Rattle.std.specs.List.{flat_map};
ghost use Rattle.desk_replies.specs.ReportJson.{crowding_json, net_json, node_json, node_members, overuse_json};
ghost use Rattle.desk_replies.specs.Prelude.{json_tokens, list_of, member_tokens, kind_word};

use json_text::{JsonPen, Scalar};
use one_user::{CrowdedNode, Crowding};
use rr_graph::NodeKind;
use std::alloc::AllocError;

/// Writes where a routing is overused; `null` if that is not known.
pub(crate) fn write_overuse_json(
    pen: &mut JsonPen,
    crowding: &Option<Crowding>,
) -> Result<(), AllocError>
    ensures { OnOk result (pen.new ≡ pen.old ++ json_tokens (overuse_json crowding.now)) }
{
    match crowding {
        Some(crowding) => write_crowding(pen, crowding),
        None => pen.scalar(Scalar::Null),
    }
}

/// Writes the number of overused nodes, and the most overused ones.
fn write_crowding(pen: &mut JsonPen, crowding: &Crowding) -> Result<(), AllocError>
    ensures { OnOk result (pen.new ≡ pen.old ++ json_tokens (crowding_json crowding.now)) }
{
    pen.open_object()?;
    pen.members(&[(
        "nodes_left_overused",
        Scalar::Number(crowding.overused as u64),
    )])?;
    pen.key("nodes")?;
    write_list(pen, crowding, &crowding.nodes)?;
    pen.close_object()
}

/// Writes the list of these nodes.
fn write_list(
    pen: &mut JsonPen,
    crowding: &Crowding,
    nodes: &[CrowdedNode],
) -> Result<(), AllocError>
    ensures { OnOk result (pen.new ≡ pen.old
        ++ json_tokens (list_of (map (node_json crowding.now.packed) nodes.now))) }
{
    pen.open_list()?;
    for crowded in nodes {
        write_node(pen, crowding, crowded)?;
    }
    pen.close_list()
}

/// Writes a node and the nets on it.
fn write_node(
    pen: &mut JsonPen,
    crowding: &Crowding,
    crowded: &CrowdedNode,
) -> Result<(), AllocError>
    ensures { OnOk result (pen.new ≡ pen.old
        ++ json_tokens (node_json crowding.now.packed crowded.now)) }
{
    pen.open_object()?;
    write_node_members(pen, crowded)?;
    pen.key("nets")?;
    write_net_list(pen, crowding, &crowded.nets)?;
    pen.close_object()
}

/// Writes the members of a node, without its nets.
fn write_node_members(pen: &mut JsonPen, crowded: &CrowdedNode) -> Result<(), AllocError>
    ensures { OnOk result (pen.new ≡ pen.old
        ++ flat_map member_tokens (node_members crowded.now)) }
{
    let node = crowded.node;
    pen.members(&[
        ("kind", Scalar::Text(kind_word(node.kind))),
        ("x", Scalar::Number(node.x as u64)),
        ("y", Scalar::Number(node.y as u64)),
        ("number", Scalar::Number(node.n as u64)),
        ("occupancy", Scalar::Number(crowded.occupancy as u64)),
        ("capacity", Scalar::Number(crowded.capacity as u64)),
    ])
}

/// The word for a kind of nodes.
fn kind_word(kind: NodeKind) -> &'static str
    ensures { result.now ≡ kind_word kind }
{
    match kind {
        NodeKind::Source => "SOURCE",
        NodeKind::Sink => "SINK",
        NodeKind::Opin => "OPIN",
        NodeKind::Ipin => "IPIN",
        NodeKind::ChanX => "CHANX",
        NodeKind::ChanY => "CHANY",
    }
}

/// Writes the list of the names of these nets.
fn write_net_list(pen: &mut JsonPen, crowding: &Crowding, nets: &[usize]) -> Result<(), AllocError>
    ensures { OnOk result (pen.new ≡ pen.old
        ++ json_tokens (list_of (map (net_json crowding.now.packed) nets.now))) }
{
    pen.open_list()?;
    for net in nets {
        pen.scalar(Scalar::Name(crowding.net_name(*net)))?;
    }
    pen.close_list()
}
