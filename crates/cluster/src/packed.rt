//! A packed circuit.
ghost use Rattle.std.specs.Prelude.{◌≡◌, ◌+◌, ◌<◌, length, slice_get, Some};
ghost use Rattle.cluster.specs.Prelude.{bles_of};
ghost use Rattle.cluster.specs.Blocks.{block_name, blocks_of, block_nets, net_on_pin, net_name, pins_of};
ghost use Rattle.cluster.specs.Keys.{keys_of};
ghost use Rattle.cluster.specs.LawfulPackings.{IsPacked};
ghost use Rattle.cluster.specs.PackedTables.{ArePartsOf};

use crate::block::{Block, BlockKey, BlockKind, BlockNet};
use crate::packed_tables::PackedTables;
use arch_file::{Arch, PinClass, SharedArch};
use ble_cluster::{Ble, Bles};
use blif::{Circuit, SharedCircuit};
use rows::Rows;
use std::marker::Model;

/// A packed circuit: clusters of its BLEs, with the blocks, nets and pins that result.
#[derive(Drop)]
pub struct Packed {
    circuit: SharedCircuit,
    arch: SharedArch,
    bles: Bles,
    clusters: Rows,
    tables: PackedTables,
}

impl Model for Packed {
    ghost use Rattle.cluster.specs.Clusters.{PackedCircuit};
    ghost use Rattle.cluster.specs.PackedTables.{ArePartsOf};

    ghost Value = { PackedCircuit };

    ghost view = { λ p. record { circuit = p.circuit; arch = p.arch; clusters = p.clusters } };

    ghost invariant = { λ p. ArePartsOf (record {
      circuit = p.circuit;
      arch = p.arch;
      clusters = p.clusters;
    }) p.bles p.tables };
}

impl Packed {
    /// The packed circuit of these parts. Takes no memory.
    pub(crate) fn new(
        circuit: SharedCircuit,
        arch: SharedArch,
        bles: Bles,
        clusters: Rows,
        tables: PackedTables,
    ) -> Self
        requires { ArePartsOf (record { circuit = circuit; arch = arch; clusters = clusters }) bles
            tables }
        ensures { result ≡ record { circuit = circuit; arch = arch; clusters = clusters } }
    {
        Packed {
            circuit,
            arch,
            bles,
            clusters,
            tables,
        }
    }

    /// The circuit.
    pub fn circuit(&self) -> &Circuit
        ensures value { result.now ≡ self.now.circuit }
        ensures lawful { IsPacked self.now }
    {
        self.circuit.circuit()
    }

    /// The architecture.
    pub fn arch(&self) -> &Arch
        ensures value { result.now ≡ self.now.arch }
        ensures lawful { IsPacked self.now }
    {
        self.arch.arch()
    }

    /// The packing is lawful. Does nothing.
    pub fn laws(&self)
        ensures { IsPacked self.now }
    {
        let _ = self.circuit();
    }

    /// The number of BLEs of the circuit.
    pub fn ble_count(&self) -> usize
        ensures { result ≡ length (bles_of self.now.circuit) }
    {
        self.bles.len()
    }

    /// The BLE with this number.
    pub fn ble(&self, number: usize) -> Ble<'_>
        requires { number < length (bles_of self.now.circuit) }
        ensures { slice_get (bles_of self.now.circuit) number
            ≡ Some (record {
              inputs = result.inputs.now;
              output = result.output;
              clock = result.clock;
            }) }
    {
        self.bles.ble(number)
    }

    /// The number of clusters.
    pub fn cluster_count(&self) -> usize
        ensures { result ≡ length self.now.clusters }
    {
        self.clusters.len()
    }

    /// The numbers of the BLEs of a cluster, the seed first.
    pub fn cluster(&self, number: usize) -> &[u32]
        requires { number < length self.now.clusters }
        ensures { slice_get self.now.clusters number ≡ Some result.now }
    {
        self.clusters.row(number)
    }

    /// The number of blocks that are pads: one for each input, and one for each output.
    pub fn pad_count(&self) -> usize
        ensures { result ≡ length self.now.circuit.inputs + length self.now.circuit.outputs }
    {
        let circuit = self.circuit.circuit();
        circuit.inputs.as_slice().len() + circuit.outputs.as_slice().len()
    }

    /// The number of blocks: pads for inputs, pads for outputs, and clusters.
    pub fn block_count(&self) -> usize
        ensures { result ≡ length (blocks_of self.now) }
    {
        self.pad_count() + self.clusters.len()
    }

    /// The block with this number.
    pub fn block(&self, number: usize) -> Block
        requires { number < length (blocks_of self.now) }
        ensures { slice_get (blocks_of self.now) number ≡ Some result }
    {
        let inputs = self.circuit.circuit().inputs.as_slice();
        let outputs = self.circuit.circuit().outputs.as_slice();
        if number < inputs.len() {
            Block::InputPad(inputs[number])
        } else if number - inputs.len() < outputs.len() {
            Block::OutputPad(outputs[number - inputs.len()])
        } else {
            Block::Cluster((number - inputs.len() - outputs.len()) as u32)
        }
    }

    /// The key of the block with this number: its kind and its name.
    pub fn key(&self, number: usize) -> BlockKey<'_>
        requires { number < length (blocks_of self.now) }
        ensures { slice_get (keys_of self.now) number
            ≡ Some (record { kind = result.kind; name = result.name.now }) }
    {
        self.laws();
        match self.block(number) {
            Block::InputPad(net) => BlockKey {
                kind: BlockKind::InputPad,
                name: self.net_name(net),
            },
            Block::OutputPad(net) => BlockKey {
                kind: BlockKind::OutputPad,
                name: self.net_name(net),
            },
            Block::Cluster(cluster) => BlockKey {
                kind: BlockKind::Cluster,
                name: self.net_name(self.seed_output(cluster as usize)),
            },
        }
    }

    fn net_name(&self, net: u32) -> &[u8]
        requires { net < length self.now.circuit.nets }
        ensures { result.now ≡ net_name self.now.circuit net }
    {
        self.circuit.circuit().nets.name(net as usize)
    }

    /// The net that a cluster's seed drives.
    fn seed_output(&self, cluster: usize) -> u32
        requires { cluster < length self.now.clusters }
        ensures name { net_name self.now.circuit result
            ≡ block_name self.now (Block.Cluster cluster) }
        ensures named { result < length self.now.circuit.nets }
    {
        let seed = self.clusters.row(cluster)[0];
        self.bles.ble(seed as usize).output
    }

    /// The number of nets between blocks.
    pub fn net_count(&self) -> usize
        ensures { result ≡ length (block_nets self.now) }
    {
        self.tables.nets.len()
    }

    /// The net with this number, which differs from its number in the circuit.
    pub fn net(&self, number: usize) -> BlockNet<'_>
        requires { number < length (block_nets self.now) }
        ensures { slice_get (block_nets self.now) number
            ≡ Some (record {
              net = result.net;
              driver = result.driver;
              readers = result.readers.now;
              global = result.global;
            }) }
    {
        self.tables.nets.net(number)
    }

    /// The circuit's net on a pin of a cluster, by the pin's number; `None` if the pin is open.
    pub fn pin(&self, cluster: usize, pin: usize) -> Option<u32>
        requires cluster { cluster < length self.now.clusters }
        requires pin { pin < length self.now.arch.pins }
        ensures { slice_get (pins_of self.now cluster) pin ≡ Some result }
    {
        let rank = self.tables.ranks[pin];
        match self.arch.arch().pins.as_slice()[pin].class {
            PinClass::Input => entry(self.tables.inputs.row(cluster), rank),
            PinClass::Output => self.leaving_output(cluster, rank),
            PinClass::Clock => entry(self.tables.clocks.row(cluster), rank),
        }
    }

    /// The output of the BLE at this index of a cluster, if the net leaves the cluster.
    fn leaving_output(&self, cluster: usize, place: usize) -> Option<u32>
        requires { cluster < length self.now.clusters }
        ensures { result ≡ net_on_pin self.now cluster PinClass.Output place }
    {
        let members = self.clusters.row(cluster);
        if place >= members.len() {
            return None;
        }
        let net = self.bles.ble(members[place] as usize).output;
        let block = (self.pad_count() + cluster) as u32;
        if self.tables.uses.leaves(block, net) {
            Some(net)
        } else {
            None
        }
    }
}

/// The entry at this index of a row, `None` if the row is shorter.
fn entry(row: &[u32], place: usize) -> Option<u32>
    ensures { result ≡ slice_get row.now place }
{
    row.get(place).copied()
}
