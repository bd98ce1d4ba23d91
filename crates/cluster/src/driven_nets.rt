//! The nets that blocks drive.
ghost use Rattle.std.specs.Prelude.{◌≡◌, ◌++◌, IfOk, length};
ghost use Rattle.cluster.specs.Prelude.{elements_at};
ghost use Rattle.cluster.specs.NetUses.{UsesBlocks, UsesInputs, UsesMembers, input_nets, driven_nets, cluster_nets};

use crate::block::BlockNet;
use crate::block_nets::BlockNets;
use crate::net_uses::NetUses;
use ble_cluster::Bles;
use blif::Circuit;
use rows::Rows;
use std::alloc::AllocError;

/// Adds the nets that the input pads drive.
fn add_input_nets(nets: &mut BlockNets, circuit: &Circuit, uses: &NetUses) -> Result<(), AllocError>
    requires { UsesInputs circuit.now uses.now }
    ensures { IfOk result (λ _. nets.new
        ≡ nets.old ++ input_nets circuit.now uses.now (length circuit.now.inputs)) }
{
    for (pad, net) in circuit.inputs.as_slice().iter().enumerate() {
        nets.push(BlockNet {
            net: *net,
            driver: pad as u32,
            readers: uses.readers(*net),
            global: uses.is_global(*net),
        })?;
    }
    Ok(())
}

/// Adds the nets that the input pads and the clusters drive.
pub(crate) fn add_nets(
    nets: &mut BlockNets,
    circuit: &Circuit,
    uses: &NetUses,
    bles: &Bles,
    clusters: &Rows,
) -> Result<(), AllocError>
    requires { UsesBlocks circuit.now uses.now bles.now clusters.now }
    ensures { IfOk result (λ _. nets.new
        ≡ nets.old ++ input_nets circuit.now uses.now (length circuit.now.inputs)
        ++ cluster_nets circuit.now uses.now bles.now clusters.now (length clusters.now)) }
{
    add_input_nets(nets, circuit, uses)?;
    let first = circuit.inputs.as_slice().len() + circuit.outputs.as_slice().len();
    for cluster in 0..clusters.len() {
        let members = clusters.row(cluster);
        add_driven(nets, (first + cluster) as u32, uses, bles, members)?;
    }
    Ok(())
}

/// Adds the nets that a block with these members drives.
fn add_driven(
    nets: &mut BlockNets,
    driver: u32,
    uses: &NetUses,
    bles: &Bles,
    members: &[u32],
) -> Result<(), AllocError>
    requires { UsesMembers uses.now bles.now members.now }
    ensures { IfOk result (λ _. nets.new
        ≡ nets.old ++ driven_nets uses.now driver (elements_at bles.now members.now)) }
{
    for member in members {
        let net = bles.ble(*member as usize).output;
        if uses.leaves(driver, net) {
            nets.push(BlockNet {
                net,
                driver,
                readers: uses.readers(net),
                global: uses.is_global(net),
            })?;
        }
    }
    Ok(())
}
