//! The nets between blocks.
ghost use Rattle.std.specs.Prelude.{◌≡◌, ◌<◌, ◌≤◌, ◌++◌, [], ◌∷◌, IfOk, OnOk, length, slice_get, Some};
ghost use Rattle.cluster.specs.NetUses.{other_readers};

use crate::block::BlockNet;
use rows::Span;
use std::alloc::{AllocError, Global};
use std::marker::Model;

/// A net between blocks without its readers, and the span of these among all readers.
#[derive(Clone, Copy)]
pub(crate) struct NetSpan {
    pub(crate) net: u32,
    pub(crate) driver: u32,
    pub(crate) readers: Span,
    pub(crate) global: bool,
}

/// Nets between blocks, by number. Its value is their list.
#[derive(Drop)]
pub(crate) struct BlockNets {
    readers: Vec<u32>,
    nets: Vec<NetSpan>,
}

impl Model for BlockNets {
    ghost use Rattle.std.specs.Prelude.{List, length, map};
    ghost use Rattle.cluster.specs.Blocks.{BlockNet};
    ghost use Rattle.cluster.specs.FlatNets.{net_at, AreNetsWithin};

    ghost Value = { List BlockNet };

    ghost view = { λ n. map (net_at n.readers.items) n.nets.items };

    ghost invariant = { λ n. AreNetsWithin (length n.readers.items) n.nets.items };
}

impl BlockNets {
    /// No nets.
    pub(crate) fn new(alloc: Global) -> Self
        ensures { result ≡ [] }
    {
        BlockNets {
            readers: Vec::new(alloc),
            nets: Vec::new(alloc),
        }
    }

    /// The number of nets.
    pub(crate) fn len(&self) -> usize
        ensures { result ≡ length self.now }
    {
        self.nets.len()
    }

    /// The net with this number.
    pub(crate) fn net(&self, number: usize) -> BlockNet<'_>
        requires { number < length self.now }
        ensures { slice_get self.now number
            ≡ Some (record {
              net = result.net;
              driver = result.driver;
              readers = result.readers.now;
              global = result.global;
            }) }
    {
        let net = self.nets[number];
        BlockNet {
            net: net.net,
            driver: net.driver,
            readers: &self.readers[net.readers.start..net.readers.end],
            global: net.global,
        }
    }

    /// Adds a net at the end. Its driver is left out of its readers.
    pub(crate) fn push(&mut self, net: BlockNet<'_>) -> Result<(), AllocError>
        ensures { IfOk result (λ _. self.new
            ≡ self.old ++ record {
              net = net.entry.net;
              driver = net.entry.driver;
              readers = other_readers net.entry.driver net.entry.readers.now;
              global = net.entry.global;
            }
            ∷ []) }
    {
        let start = self.readers.len();
        add_others(&mut self.readers, net.driver, net.readers)?;
        let end = self.readers.len();
        self.nets.push(NetSpan {
            net: net.net,
            driver: net.driver,
            readers: Span { start, end },
            global: net.global,
        })?;
        Ok(())
    }
}

/// Appends the blocks that aren't the driver.
fn add_others(readers: &mut Vec<u32>, driver: u32, blocks: &[u32]) -> Result<(), AllocError>
    ensures added { OnOk result (readers.new.items
        ≡ readers.old.items ++ other_readers driver blocks.now) }
    ensures grown { length readers.old.items ≤ length readers.new.items }
{
    for block in blocks {
        if *block != driver {
            readers.push(*block)?;
        }
    }
    Ok(())
}
