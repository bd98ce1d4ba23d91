//! Whether the nets between blocks are laid, and no node is in too many trees.
ghost use Rattle.std.specs.Prelude.{All, IfOk, MatchOption};
ghost use Rattle.layout_check.specs.Prelude.{IsLaid};
ghost use Rattle.layout_check.specs.NetFaults.{AreCarried, IsNetFault};

use crate::entry::check_entry;
use crate::fault::NetFault;
use crate::marks::zeros;
use crate::net_blocks::blocks_by_net;
use crate::uses::first_overused;
use crate::work::make_work;
use blif::Circuit;
use layouts::Layout;
use rr_graph::{Fabric, StripGraph};
use std::alloc::{AllocError, Global};

/// Finds what is wrong with the nets between blocks of a layout: an entry that isn't laid, or a
/// node that more nets use than it can carry.
pub(crate) fn check_nets(
    alloc: Global,
    circuit: &Circuit,
    graph: &Fabric,
    layout: &Layout,
) -> Result<Option<NetFault>, AllocError>
    ensures { IfOk result (λ fault. MatchOption fault
        (All (IsLaid circuit.now graph.now.arch graph.now.strip layout.now) layout.now.nets
        × AreCarried graph.now layout.now.nets)
        (IsNetFault circuit.now graph.now layout.now)) }
{
    graph.laws();
    let index = blocks_by_net(alloc, graph.arch(), layout)?;
    let mut uses = zeros(alloc, graph.count())?;
    let mut work = make_work(alloc, graph.count())?;
    for (number, laid) in layout.nets().iter().enumerate() {
        if let Some(fault) = check_entry(
            alloc, circuit, graph, &mut work, layout, &index, laid, &mut uses,
        )? {
            return Ok(Some(NetFault::Entry(number, fault)));
        }
    }
    match first_overused(graph, uses.as_slice()) {
        Some(node) => Ok(Some(NetFault::Overused(graph.node(node)))),
        None => Ok(None),
    }
}
