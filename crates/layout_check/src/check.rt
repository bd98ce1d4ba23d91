//! Whether a layout implements a circuit.
ghost use Rattle.std.specs.Prelude.{◌≡◌, ℕ, IfOk, MatchOption, MatchResult};
ghost use Rattle.layout_check.specs.Prelude.{IsCircuit, Implements};
ghost use Rattle.layout_check.specs.Wrongs.{AreListsRight, ArePortsRight, IsConnected, IsWrong};

use crate::apart::{same_net, same_place};
use crate::blocks::check_blocks;
use crate::fault::Wrong;
use crate::globals::{first_left_out, first_local};
use crate::held::check_held;
use crate::nets::check_nets;
use crate::ports::{PadUse, has_pads};
use crate::wanted::check_wanted;
use blif::Circuit;
use layouts::Layout;
use rr_graph::{Fabric, StripGraph};
use std::alloc::{AllocError, Global};

/// Tests of a layout what takes no memory: blocks, places, global nets and entries.
fn check_lists(circuit: &Circuit, graph: &Fabric, layout: &Layout) -> Option<Wrong>
    ensures { MatchOption result (AreListsRight circuit.now graph.now layout.now) (IsWrong circuit.now graph.now layout.now) }
{
    graph.laws();
    let blocks = layout.blocks();
    if let Some(found) = check_blocks(graph.arch(), graph.strip(), blocks) {
        return Some(Wrong::Block(found.0, found.1));
    }
    if let Some(found) = same_place(blocks) {
        return Some(Wrong::SamePlace(found.0, found.1));
    }
    if let Some(net) = first_local(circuit, layout.globals()) {
        return Some(Wrong::NotGlobal(net));
    }
    if let Some(latch) = first_left_out(circuit, layout.globals()) {
        return Some(Wrong::LeftOut(latch));
    }
    match same_net(layout.nets()) {
        Some(found) => Some(Wrong::SameNet(found.0, found.1)),
        None => None,
    }
}

/// Tests whether the pads are the circuit's ports, and the nets that are wanted have entries.
fn check_ports(
    alloc: Global,
    circuit: &Circuit,
    graph: &Fabric,
    layout: &Layout,
) -> Result<Option<Wrong>, AllocError>
    ensures { IfOk result (λ found. MatchOption found (ArePortsRight circuit.now graph.now layout.now) (IsWrong circuit.now graph.now layout.now)) }
{
    let blocks = layout.blocks();
    let inputs = has_pads(alloc, blocks, PadUse::Input, circuit.inputs.as_slice())?;
    if !inputs {
        return Ok(Some(Wrong::Inputs));
    }
    let outputs = has_pads(alloc, blocks, PadUse::Output, circuit.outputs.as_slice())?;
    if !outputs {
        return Ok(Some(Wrong::Outputs));
    }
    match check_wanted(alloc, graph.arch(), layout)? {
        Some(block) => Ok(Some(Wrong::NoEntry(block))),
        None => Ok(None),
    }
}

/// Finds what is wrong with a layout on a strip, in this order: blocks by themselves, places, nets
/// on the global network and entries; the pads, and nets without entries; the basic logic elements
/// (BLEs), of which each table and each latch is in exactly one; the nets between blocks. What
/// passes implements the circuit. A layout that has something wrong doesn't, if the circuit is
/// lawful, as each is that is read from a netlist.
pub fn check_layout(
    alloc: Global,
    circuit: &Circuit,
    graph: &Fabric,
    layout: &Layout,
) -> Result<Result<(), Wrong>, AllocError>
    ensures exact { IfOk result (λ checked. MatchResult checked
        (λ _. IsConnected circuit.now graph.now.arch graph.now.strip layout.now)
        (IsWrong circuit.now graph.now layout.now)) }
    ensures implements { IfOk result (λ checked. MatchResult checked
        (λ _. Implements circuit.now graph.now.arch graph.now.strip layout.now)
        (λ _. IsCircuit circuit.now →
        Implements circuit.now graph.now.arch graph.now.strip layout.now → ⊥)) }
{
    if let Some(wrong) = check_lists(circuit, graph, layout) {
        return Ok(Err(wrong));
    }
    if let Some(wrong) = check_ports(alloc, circuit, graph, layout)? {
        return Ok(Err(wrong));
    }
    if let Some(wrong) = check_held(alloc, circuit, graph, layout)? {
        return Ok(Err(wrong));
    }
    match check_nets(alloc, circuit, graph, layout)? {
        Some(fault) => Ok(Err(Wrong::Net(fault))),
        None => Ok(Ok(())),
    }
}
