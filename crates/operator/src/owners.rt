//! The owners of a device's pins, wires and pads, as in the reply to the operator.
ghost use Rattle.std.specs.Prelude.{◌≡◌, ◌++◌, OnOk, codes, decimal};
ghost use Rattle.std.specs.List.{flat_map};
ghost use Rattle.operator.specs.Held.{sink_text};
ghost use Rattle.operator.specs.OwnersText.{owned_text, owners_text, resource_text};
ghost use Rattle.operator.specs.Prelude.{node_text_of, position_text};

use crate::reply::push_parts;
use device_book::Owned;
use itoa::Buffer;
use line_text::MemorySink;
use rr_graph::{Node, NodeKind, Resource, ResourceKind};
use std::alloc::AllocError;
use vpr_files::write_node;

/// Appends the number of owned resources on a device with `rows` rows, and one line for each.
pub fn push_owners(reply: &mut MemorySink, rows: u32, owners: &[Owned]) -> Result<(), AllocError>
    ensures { OnOk result (sink_text reply.new ≡ sink_text reply.old
        ++ owners_text rows owners.now) }
{
    let mut digits = Buffer::new();
    let count = digits.format(owners.len()).as_bytes();
    push_parts(reply, &[b"owners ", count, b"\n"])?;
    push_each(reply, rows, owners)
}

/// Appends one line for each resource and its owner.
fn push_each(reply: &mut MemorySink, rows: u32, owners: &[Owned]) -> Result<(), AllocError>
    ensures { OnOk result (sink_text reply.new
        ≡ sink_text reply.old ++ flat_map (owned_text rows) owners.now) }
{
    for owned in owners {
        push_owned(reply, rows, *owned)?;
    }
    Ok(())
}

/// Appends the line of a resource and its owner.
fn push_owned(reply: &mut MemorySink, rows: u32, owned: Owned) -> Result<(), AllocError>
    ensures { OnOk result (sink_text reply.new ≡ sink_text reply.old ++ owned_text rows owned) }
{
    let Owned { resource, id } = owned;
    push_resource(reply, rows, resource)?;
    let mut digits = Buffer::new();
    push_parts(reply, &[b" owner ", digits.format(id).as_bytes(), b"\n"])
}

/// Appends a resource: a pin or a wire as its node appears in a `.route` file, a pad in the form of
/// its own.
fn push_resource(reply: &mut MemorySink, rows: u32, resource: Resource) -> Result<(), AllocError>
    ensures { OnOk result (sink_text reply.new
        ≡ sink_text reply.old ++ resource_text rows resource resource.kind) }
{
    match resource.kind {
        ResourceKind::Opin => push_node(reply, rows, NodeKind::Opin, resource),
        ResourceKind::Ipin => push_node(reply, rows, NodeKind::Ipin, resource),
        ResourceKind::ChanX => push_node(reply, rows, NodeKind::ChanX, resource),
        ResourceKind::ChanY => push_node(reply, rows, NodeKind::ChanY, resource),
        ResourceKind::Pad => push_pad(reply, resource),
    }
}

fn push_pad(reply: &mut MemorySink, pad: Resource) -> Result<(), AllocError>
    ensures { OnOk result (sink_text reply.new
        ≡ sink_text reply.old ++ codes "PAD " ++ position_text pad.x pad.y ++ codes " Pad: "
        ++ decimal pad.n) }
{
    let (mut columns, mut rows, mut numbers) = (Buffer::new(), Buffer::new(), Buffer::new());
    let x = columns.format(pad.x).as_bytes();
    let y = rows.format(pad.y).as_bytes();
    let n = numbers.format(pad.n).as_bytes();
    push_parts(reply, &[b"PAD (", x, b",", y, b") Pad: ", n])
}

/// Appends a node of that kind, at the place of a pin or a wire.
fn push_node(
    reply: &mut MemorySink,
    rows: u32,
    kind: NodeKind,
    resource: Resource,
) -> Result<(), AllocError>
    ensures { OnOk result (sink_text reply.new
        ≡ sink_text reply.old ++ node_text_of rows
        (record { x = resource.x; kind = kind; y = resource.y; n = resource.n })) }
{
    let Resource { x, y, n, .. } = resource;
    match write_node(Node { x, kind, y, n }, rows, reply) {
        Ok(()) => Ok(()),
        Err(_) => Err(AllocError),
    }
}
