//! The names of blocks.
ghost use Rattle.std.specs.Prelude.{◌≡◌, ◌++◌};
ghost use Rattle.vpr_files.specs.Prelude.{block_name};
ghost use Rattle.vpr_files.specs.BlockClusters.{HasCluster};

use crate::net_file::{cluster_name, net_name};
use cluster::{Block, Packed};

/// The name of a block, in two parts: the part before the name of a net, and that name.
#[derive(Clone, Copy)]
pub(crate) struct BlockName<'a> {
    pub(crate) before: &'a [u8],
    pub(crate) net: &'a [u8],
}

pub(crate) fn block_name(packed: &Packed, block: Block) -> BlockName<'_>
    requires { HasCluster packed.now block }
    ensures { result.before.now ++ result.net.now ≡ block_name packed.now block }
{
    match block {
        Block::InputPad(net) => BlockName {
            before: &[],
            net: net_name(packed.circuit(), net),
        },
        Block::OutputPad(net) => BlockName {
            before: b"out:",
            net: net_name(packed.circuit(), net),
        },
        Block::Cluster(cluster) => BlockName {
            before: &[],
            net: cluster_name(packed, cluster as usize),
        },
    }
}
