//! Whether the entry of a net between blocks is laid.
ghost use Rattle.std.specs.Prelude.{◌≡◌, ◌++◌, ◌+◌, ◌<◌, ◌==◌, ◌^◌, [], ◌∷◌, ℕ, IfOk, IfNone, OnOk, MatchBool, MatchOption, filter, length, not, slice_index, if◌then◌else◌};
ghost use Rattle.layout_check.specs.Prelude.{is_global, IsLaid, IsRouted, graph_of};
ghost use Rattle.layout_check.specs.EntryFaults.{AreUsedBy, IsEntryFault};
ghost use Rattle.layout_check.specs.NetBlocks.{AreBlocksOf, sinks_at};
ghost use Rattle.layout_check.specs.RouteFaults.{IsPathFault};
ghost use Rattle.layout_check.specs.TreeTests.{HasRoom};

use crate::drivers::{first_driver, other_driver, sink_of, source_of};
use crate::fault::{EntryFault, RouteFault};
use crate::inside::is_net;
use crate::net_blocks::NetBlocks;
use crate::paths::check_routed;
use crate::uses::count_uses;
use crate::work::{Work, no_numbers};
use blif::Circuit;
use layouts::{LaidBlock, LaidNet, LaidPath, Layout};
use rr_graph::{Fabric, Node, StripGraph};
use std::alloc::{AllocError, Global};

/// Whether the net controls a latch.
pub(crate) fn is_global(circuit: &Circuit, net: u32) -> bool
    ensures { result ≡ is_global circuit.now net }
{
    for latch in circuit.latches.as_slice() {
        if is_net(net, latch.control) {
            return true;
        }
    }
    false
}

/// Whether the numbers are equal.
pub(crate) fn same_numbers(numbers: &[u32], others: &[usize]) -> bool
    ensures { MatchBool result (numbers.now ≡ others.now) (numbers.now ≡ others.now → ⊥) }
{
    if numbers.len() != others.len() {
        return false;
    }
    for i in 0..numbers.len() {
        if numbers[i] as usize != others[i] {
            return false;
        }
    }
    true
}

/// Whether these are the blocks that are listed with a net.
fn is_listed(
    alloc: Global,
    global: bool,
    readers: &[usize],
    driver: usize,
    numbers: &[u32],
) -> Result<bool, AllocError>
    ensures { IfOk result (λ is. MatchBool is
        (numbers.now ≡ (if global then driver ∷ filter (λ reader. not (reader == driver)) readers.now else []))
        (numbers.now ≡ (if global then driver ∷ filter (λ reader. not (reader == driver)) readers.now else []) → ⊥)) }
{
    if !global {
        return Ok(same_numbers(numbers, &[]));
    }
    let mut listed = Vec::new(alloc);
    listed.push(driver)?;
    for reader in readers {
        if *reader != driver {
            listed.push(*reader)?;
        }
    }
    Ok(same_numbers(numbers, listed.as_slice()))
}

/// The sinks to which a net has to be led; none if it is global.
fn sinks_of(
    alloc: Global,
    global: bool,
    blocks: &[LaidBlock],
    readers: &[usize],
) -> Result<Vec<Node>, AllocError>
    ensures { IfOk result (λ sinks. sinks.items ≡ (if global then [] else sinks_at blocks.now readers.now)) }
{
    let mut sinks = Vec::new(alloc);
    if global {
        return Ok(sinks);
    }
    for reader in readers {
        if let Some(sink) = sink_of(blocks, *reader) {
            sinks.push(sink)?;
        }
    }
    Ok(sinks)
}

/// Finds what is wrong with the paths of a net, or counts their nodes. Takes memory for their
/// numbers.
fn check_paths(
    alloc: Global,
    graph: &Fabric,
    work: &mut Work,
    source: Node,
    sinks: &[Node],
    paths: &[LaidPath],
    uses: &mut Vec<u64>,
) -> Result<Option<RouteFault>, AllocError>
    requires room { HasRoom work.old (graph_of graph.now).count }
    requires uses { length uses.old.items ≡ (graph_of graph.now).count }
    requires few { (k : ℕ) → slice_index uses.old.items k + 1 < 2 ^ 64 }
    ensures room { HasRoom work.new (graph_of graph.now).count }
    ensures uses { length uses.new.items ≡ (graph_of graph.now).count }
    ensures exact { IfOk result (λ fault. MatchOption fault
        (IsRouted graph.now.arch graph.now.strip source sinks.now paths.now)
        (IsPathFault graph.now source sinks.now paths.now)) }
    ensures used { IfOk result (λ fault. IfNone fault
        (AreUsedBy graph.now paths.now uses.old.items uses.new.items)) }
{
    graph.laws();
    let mut numbers = no_numbers(alloc);
    if let Some(fault) = check_routed(graph, work, source, sinks, paths, &mut numbers)? {
        return Ok(Some(fault));
    }
    work.marks.clear();
    count_uses(numbers.nodes.as_slice(), &mut work.marks, uses);
    Ok(None)
}

/// Finds what is wrong with the entry of a net, or counts the nodes of its paths.
pub(crate) fn check_entry(
    alloc: Global,
    circuit: &Circuit,
    graph: &Fabric,
    work: &mut Work,
    layout: &Layout,
    index: &NetBlocks,
    laid: &LaidNet,
    uses: &mut Vec<u64>,
) -> Result<Option<EntryFault>, AllocError>
    requires room { HasRoom work.old (graph_of graph.now).count }
    requires index { AreBlocksOf graph.now.arch layout.now.blocks layout.now.nets index.now }
    requires within { laid.now.net < length index.now.drivers }
    requires uses { length uses.old.items ≡ (graph_of graph.now).count }
    requires few { (k : ℕ) → slice_index uses.old.items k + 1 < 2 ^ 64 }
    ensures room { HasRoom work.new (graph_of graph.now).count }
    ensures uses { length uses.new.items ≡ (graph_of graph.now).count }
    ensures exact { IfOk result (λ fault. MatchOption fault
        (IsLaid circuit.now graph.now.arch graph.now.strip layout.now laid.now)
        (IsEntryFault circuit.now graph.now layout.now laid.now)) }
    ensures used { IfOk result (λ fault. IfNone fault
        (AreUsedBy graph.now laid.now.paths uses.old.items uses.new.items)) }
{
    let net = laid.net() as usize;
    let drivers = index.drivers.list(net);
    let Some(driver) = first_driver(drivers) else {
        return Ok(Some(EntryFault::NoDriver));
    };
    if let Some(other) = other_driver(drivers, driver) {
        return Ok(Some(EntryFault::TwoDrivers(driver, other)));
    }
    let blocks = layout.blocks();
    let readers = index.readers.list(net);
    let global = is_global(circuit, laid.net());
    let listed = is_listed(alloc, global, readers, driver, laid.listed_blocks())?;
    if !listed {
        return Ok(Some(EntryFault::Listed(driver)));
    }
    let sinks = sinks_of(alloc, global, blocks, readers)?;
    let source = source_of(blocks, driver);
    let ends = sinks.as_slice();
    match check_paths(alloc, graph, work, source, ends, laid.paths(), uses)? {
        Some(fault) => Ok(Some(EntryFault::Paths(driver, fault))),
        None => Ok(None),
    }
}
