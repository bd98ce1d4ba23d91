//! The blocks of a strip, by the names of a netlist.
ghost use Rattle.std.specs.Prelude.{◌≡◌};
ghost use Rattle.path_stops.specs.Blocks.{block_named, driver_block, has_element, input_pad, is_input, is_output, latch_storing, net_name, output_pad, stored_block};

use blif::{Circuit, Latch};
use strip_files::{BlockKind, PlacedBlock, RoutedStrip};

/// The name of a net; empty if there is no such net.
pub(crate) fn net_name(circuit: &Circuit, net: u32) -> &[u8]
    ensures { result.now ≡ net_name circuit.now net }
{
    if (net as usize) < circuit.nets.len() {
        circuit.nets.name(net as usize)
    } else {
        b""
    }
}

/// The block that drives a net: the input pad or the block with the BLE of that name, or the block
/// whose BLE also has the latch that reads the net, and has its name.
pub(crate) fn driver_block(strip: &RoutedStrip<'_>, circuit: &Circuit, net: u32) -> Option<usize>
    ensures { result ≡ driver_block strip.now circuit.now net }
{
    let name = net_name(circuit, net);
    if let Some(pad) = input_pad(strip, name) {
        return Some(pad);
    }
    if let Some(block) = block_named(strip, name) {
        return Some(block);
    }
    stored_block(strip, circuit, latch_storing(circuit, net))
}

/// The input pad of that name.
fn input_pad(strip: &RoutedStrip<'_>, name: &[u8]) -> Option<usize>
    ensures { result ≡ input_pad strip.now name.now }
{
    strip.blocks.iter().position(|block| is_input(block, name))
}

/// Returns whether a block is the input pad of that name.
fn is_input(block: &PlacedBlock<'_>, name: &[u8]) -> bool
    ensures { result ≡ is_input name.now block.now }
{
    match block.kind {
        BlockKind::InputPad => block.name == name,
        BlockKind::OutputPad | BlockKind::Cluster => false,
    }
}

/// The output pad that reads the net of that name.
pub(crate) fn output_pad(strip: &RoutedStrip<'_>, name: &[u8]) -> Option<usize>
    ensures { result ≡ output_pad strip.now name.now }
{
    strip.blocks.iter().position(|block| is_output(block, name))
}

/// Returns whether a block is the output pad that reads the net of that name.
fn is_output(block: &PlacedBlock<'_>, name: &[u8]) -> bool
    ensures { result ≡ is_output name.now block.now }
{
    match block.kind {
        BlockKind::OutputPad => {
            let (out, net) = block.name.split_at(block.name.len().min(4));
            out == b"out:".as_slice() && net == name
        }
        BlockKind::InputPad | BlockKind::Cluster => false,
    }
}

/// The block with the BLE of that name.
pub(crate) fn block_named(strip: &RoutedStrip<'_>, name: &[u8]) -> Option<usize>
    ensures { result ≡ block_named strip.now name.now }
{
    (0..strip.blocks.len()).find(|block| has_element(strip, *block, name))
}

/// Returns whether a block has the BLE of that name.
fn has_element(strip: &RoutedStrip<'_>, block: usize, name: &[u8]) -> bool
    ensures { result ≡ has_element strip.now name.now block }
{
    strip
        .elements_of(block)
        .iter()
        .any(|element| *element == name)
}

/// The first latch that reads a net.
fn latch_storing(circuit: &Circuit, net: u32) -> Option<Latch>
    ensures { result ≡ latch_storing circuit.now net }
{
    match circuit
        .latches
        .as_slice()
        .iter()
        .find(|latch| latch.input == net)
    {
        Some(latch) => Some(*latch),
        None => None,
    }
}

/// The block with the BLE of a latch.
fn stored_block(strip: &RoutedStrip<'_>, circuit: &Circuit, latch: Option<Latch>) -> Option<usize>
    ensures { result ≡ stored_block strip.now circuit.now latch }
{
    match latch {
        Some(latch) => block_named(strip, net_name(circuit, latch.output)),
        None => None,
    }
}
