//! The tables that are stored with a packed circuit, so that its pins and nets can be looked up
//! quickly.
ghost use Rattle.std.specs.Prelude.{◌≡◌, ◌++◌, IfOk, length};
ghost use Rattle.cluster.specs.Prelude.{distinct_nets};
ghost use Rattle.cluster.specs.ClusterPins.{pin_ranks, readers_by_net};
ghost use Rattle.cluster.specs.NetUses.{UsesBlocks, cluster_nets, controls_of, input_nets};
ghost use Rattle.cluster.specs.PackedTables.{AreTablesOf, IsPackedOf};

use crate::block_nets::BlockNets;
use crate::driven_nets::add_nets;
use crate::net_uses::NetUses;
use crate::pin_nets::PinNets;
use crate::pin_ranks::ranks_of;
use arch_file::Arch;
use ble_cluster::Bles;
use blif::Circuit;
use rows::Rows;
use std::alloc::{AllocError, Global};

/// The outside inputs and the clocks of each cluster, the users of each net, the nets between
/// blocks, and the ranks of pins.
#[derive(Drop)]
pub(crate) struct PackedTables {
    pub(crate) inputs: Rows,
    pub(crate) clocks: Rows,
    pub(crate) uses: NetUses,
    pub(crate) nets: BlockNets,
    pub(crate) ranks: Vec<usize>,
}

impl PackedTables {
    /// The tables of a packed circuit. Takes time proportional to its size.
    pub(crate) fn new(
        alloc: Global,
        circuit: &Circuit,
        arch: &Arch,
        bles: &Bles,
        clusters: &Rows,
    ) -> Result<Self, AllocError>
        requires { IsPackedOf (record {
          circuit = circuit.now;
          arch = arch.now;
          clusters = clusters.now;
        }) bles.now }
        ensures { IfOk result (λ tables.
            AreTablesOf (record { circuit = circuit.now; arch = arch.now; clusters = clusters.now })
            tables) }
    {
        let PinNets {
            inputs,
            clocks,
            readers,
        } = PinNets::new(alloc, circuit, bles, clusters)?;
        match uses_of(alloc, circuit, arch, bles, clusters, readers) {
            Ok((uses, nets, ranks)) => Ok(PackedTables {
                inputs,
                clocks,
                uses,
                nets,
                ranks,
            }),
            Err(error) => {
                drop(inputs);
                drop(clocks);
                Err(error)
            }
        }
    }
}

/// The users of each net, the nets between blocks, and the ranks of pins.
fn uses_of(
    alloc: Global,
    circuit: &Circuit,
    arch: &Arch,
    bles: &Bles,
    clusters: &Rows,
    readers: Rows,
) -> Result<(NetUses, BlockNets, Vec<usize>), AllocError>
    requires parts { IsPackedOf (record {
      circuit = circuit.now;
      arch = arch.now;
      clusters = clusters.now;
    }) bles.now }
    requires readers { readers ≡ readers_by_net circuit.now bles.now clusters.now }
    ensures globals { IfOk result (λ made.
        made.0.globals ≡ record {
          count = length circuit.now.nets;
          nets = distinct_nets (controls_of circuit.now.latches);
        }) }
    ensures readers { IfOk result (λ made.
        made.0.readers ≡ readers_by_net circuit.now bles.now clusters.now) }
    ensures nets { IfOk result (λ made.
        made.1 ≡ input_nets circuit.now made.0 (length circuit.now.inputs)
        ++ cluster_nets circuit.now made.0 bles.now clusters.now (length clusters.now)) }
    ensures ranks { IfOk result (λ made. made.2.items ≡ pin_ranks arch.now.pins) }
{
    let uses = NetUses::new(alloc, circuit, readers)?;
    match nets_of(alloc, circuit, arch, bles, clusters, &uses) {
        Ok((nets, ranks)) => Ok((uses, nets, ranks)),
        Err(error) => {
            drop(uses);
            Err(error)
        }
    }
}

/// The nets between blocks, from the users of each net, and the ranks of pins.
fn nets_of(
    alloc: Global,
    circuit: &Circuit,
    arch: &Arch,
    bles: &Bles,
    clusters: &Rows,
    uses: &NetUses,
) -> Result<(BlockNets, Vec<usize>), AllocError>
    requires { UsesBlocks circuit.now uses.now bles.now clusters.now }
    ensures nets { IfOk result (λ made.
        made.0 ≡ input_nets circuit.now uses.now (length circuit.now.inputs)
        ++ cluster_nets circuit.now uses.now bles.now clusters.now (length clusters.now)) }
    ensures ranks { IfOk result (λ made. made.1.items ≡ pin_ranks arch.now.pins) }
{
    let mut nets = BlockNets::new(alloc);
    match add_nets(&mut nets, circuit, uses, bles, clusters) {
        Ok(()) => with_ranks(alloc, arch, nets),
        Err(error) => {
            drop(nets);
            Err(error)
        }
    }
}

/// Adds the ranks of pins to these nets.
fn with_ranks(
    alloc: Global,
    arch: &Arch,
    nets: BlockNets,
) -> Result<(BlockNets, Vec<usize>), AllocError>
    ensures nets { IfOk result (λ made. made.0 ≡ nets) }
    ensures ranks { IfOk result (λ made. made.1.items ≡ pin_ranks arch.now.pins) }
{
    match ranks_of(alloc, arch.pins.as_slice()) {
        Ok(ranks) => Ok((nets, ranks)),
        Err(error) => {
            drop(nets);
            Err(error)
        }
    }
}
