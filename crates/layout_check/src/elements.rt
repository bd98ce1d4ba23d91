//! The BLEs of a layout, traced: each input followed to the net that comes to it.
ghost use Rattle.std.specs.Prelude.{◌≡◌, ◌++◌, ◌<◌, OnOk, IfOk, length, map, option_and_then};
ghost use Rattle.std.specs.List.{flat_map};
ghost use Rattle.std.specs.Option.{option_to_list};
ghost use Rattle.layout_check.specs.Prelude.{Clock, input_net, on_pin, traced_ble};
ghost use Rattle.layout_check.specs.Helds.{IsNumberOf};

use crate::fault::BleNumber;
use crate::inside::{input_net, on_pin};
use arch_file::{Arch, PinClass};
use layouts::{LaidBle, LaidBlock};
use std::alloc::{AllocError, Global};
use std::marker::Model;

/// A traced BLE: the nets that come to its inputs, the net that it drives, and the net that clocks
/// it.
#[derive(Drop)]
pub(crate) struct Element {
    inputs: Vec<u32>,
    output: u32,
    clock: Option<u32>,
}

impl Model for Element {
    ghost use Rattle.ble_cluster.specs.Bles.{LogicElement};

    ghost Value = { LogicElement };

    ghost view = { λ e. record { inputs = e.inputs.items; output = e.output; clock = e.clock } };
}

impl Element {
    /// The nets that come to its inputs.
    pub(crate) fn inputs(&self) -> &[u32]
        ensures { result.now ≡ self.now.inputs }
    {
        self.inputs.as_slice()
    }

    /// The net that it drives.
    pub(crate) fn output(&self) -> u32
        ensures { result ≡ self.now.output }
    {
        self.output
    }

    /// The net that clocks it, if one does.
    pub(crate) fn clock(&self) -> Option<u32>
        ensures { result ≡ self.now.clock }
    {
        self.clock
    }
}

/// The net that comes to the clock pin, if the BLE has one.
fn clock_net(arch: &Arch, block: &LaidBlock, clock: Option<usize>) -> Option<u32>
    ensures { result ≡ option_and_then (on_pin arch.now block.now Clock) clock }
{
    match clock {
        Some(pin) => on_pin(arch, block, PinClass::Clock, pin),
        None => None,
    }
}

/// The BLE, traced.
fn trace(
    alloc: Global,
    arch: &Arch,
    block: &LaidBlock,
    ble: &LaidBle,
) -> Result<Element, AllocError>
    ensures { IfOk result (λ element. element ≡ traced_ble arch.now block.now ble.now) }
{
    let mut inputs = Vec::new(alloc);
    let feeds = ble.inputs();
    for feed in feeds {
        if let Some(net) = input_net(arch, block, *feed) {
            inputs.push(net)?;
        }
    }
    Ok(Element {
        inputs,
        output: ble.name(),
        clock: clock_net(arch, block, ble.clock()),
    })
}

/// Adds the BLEs of the block, traced.
fn add_bles(
    alloc: Global,
    arch: &Arch,
    block: &LaidBlock,
    elements: &mut Vec<Element>,
) -> Result<(), AllocError>
    ensures { OnOk result (elements.new.items ≡ elements.old.items
        ++ map (traced_ble arch.now block.now) block.now.bles) }
{
    let bles = block.bles();
    for ble in bles {
        elements.push(trace(alloc, arch, block, ble)?)?;
    }
    Ok(())
}

/// The BLEs of all blocks, traced.
pub(crate) fn trace_bles(
    alloc: Global,
    arch: &Arch,
    blocks: &[LaidBlock],
) -> Result<Vec<Element>, AllocError>
    ensures { IfOk result (λ elements. elements.items
        ≡ flat_map (λ block. map (traced_ble arch.now block) block.bles) blocks.now) }
{
    let mut elements = Vec::new(alloc);
    for block in blocks {
        add_bles(alloc, arch, block, &mut elements)?;
    }
    Ok(elements)
}

/// Which BLE is the one at this place among the BLEs of all blocks.
pub(crate) fn ble_number(blocks: &[LaidBlock], place: usize) -> BleNumber
    requires { place < length (flat_map (λ block. block.bles) blocks.now) }
    ensures { IsNumberOf blocks.now place result }
{
    let mut left = place;
    for (number, block) in blocks.iter().enumerate() {
        let count = block.bles().len();
        if left < count {
            return BleNumber {
                block: number,
                ble: left,
            };
        }
        left -= count;
    }
    BleNumber {
        block: blocks.len(),
        ble: left,
    }
}
