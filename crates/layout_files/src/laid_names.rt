//! The names of a layout's blocks.
ghost use Rattle.std.specs.Prelude.{◌≡◌, ◌++◌, [], slice_get};
ghost use Rattle.std.specs.Option.{option_map_or};
ghost use Rattle.layout_files.specs.Prelude.{net_name, laid_name};

use blif::Circuit;
use cluster::Block;
use layouts::{LaidBle, LaidBlock};

/// The name of a net of the circuit, or no bytes if there is no such net.
pub(crate) fn net_name(circuit: &Circuit, net: u32) -> &[u8]
    ensures { result.now ≡ net_name circuit.now net }
{
    let names = &circuit.nets;
    if (net as usize) < names.len() {
        names.name(net as usize)
    } else {
        &[]
    }
}

/// The name of a cluster: that of the net that its first BLE drives.
pub(crate) fn cluster_name<'c>(circuit: &'c Circuit, bles: &[LaidBle]) -> &'c [u8]
    ensures { result.now ≡ option_map_or (λ ble. net_name circuit.now ble.name)
        (slice_get bles.now 0) [] }
{
    match bles.first() {
        Some(ble) => net_name(circuit, ble.name()),
        None => &[],
    }
}

/// The name of a block, in two parts: what is before the name of a net, and that name.
#[derive(Clone, Copy)]
pub(crate) struct LaidName<'c> {
    pub(crate) before: &'c [u8],
    pub(crate) net: &'c [u8],
}

/// The name of a block.
pub(crate) fn laid_name<'c>(circuit: &'c Circuit, laid: &LaidBlock) -> LaidName<'c>
    ensures { result.before.now ++ result.net.now ≡ laid_name circuit.now laid.now }
{
    match laid.block() {
        Block::InputPad(net) => LaidName {
            before: &[],
            net: net_name(circuit, net),
        },
        Block::OutputPad(net) => LaidName {
            before: b"out:",
            net: net_name(circuit, net),
        },
        Block::Cluster(_) => LaidName {
            before: &[],
            net: cluster_name(circuit, laid.bles()),
        },
    }
}
