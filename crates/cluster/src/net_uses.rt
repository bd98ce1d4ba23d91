//! The users of each net.
ghost use Rattle.std.specs.Prelude.{◌≡◌, ◌<◌, ◌==◌, [], IfOk, length, not};
ghost use Rattle.std.specs.List.{list_any, slice_index_or};
ghost use Rattle.cluster.specs.Prelude.{IsCircuit, has, distinct_nets};
ghost use Rattle.cluster.specs.NetUses.{IsUsed, controls_of, leaves_by};

use ble_cluster::NetSet;
use blif::Circuit;
use rows::Rows;
use std::alloc::{AllocError, Global};

/// The nets that control latches, which are global, and for each net the blocks that read it.
#[derive(Drop)]
pub(crate) struct NetUses {
    pub(crate) globals: NetSet,
    pub(crate) readers: Rows,
}

impl NetUses {
    /// The uses of the circuit's nets; `readers` are the blocks that read each net.
    pub(crate) fn new(alloc: Global, circuit: &Circuit, readers: Rows) -> Result<Self, AllocError>
        requires { IsCircuit circuit.now }
        ensures globals { IfOk result (λ uses.
            uses.globals ≡ record {
              count = length circuit.now.nets;
              nets = distinct_nets (controls_of circuit.now.latches);
            }) }
        ensures readers { IfOk result (λ uses. uses.readers ≡ readers) }
    {
        match globals_of(alloc, circuit) {
            Ok(globals) => Ok(NetUses { globals, readers }),
            Err(error) => {
                drop(readers);
                Err(error)
            }
        }
    }

    /// Whether the net is global.
    pub(crate) fn is_global(&self, net: u32) -> bool
        requires { net < self.now.globals.count }
        ensures { result ≡ has self.now.globals.nets net }
    {
        self.globals.has(net)
    }

    /// The blocks that read the net.
    pub(crate) fn readers(&self, net: u32) -> &[u32]
        requires { net < length self.now.readers }
        ensures { result.now ≡ slice_index_or self.now.readers net [] }
    {
        self.readers.row(net as usize)
    }

    /// Whether the net leaves the block that drives it.
    pub(crate) fn leaves(&self, driver: u32, net: u32) -> bool
        requires { IsUsed self.now net }
        ensures { result ≡ leaves_by self.now driver net }
    {
        self.is_global(net) || has_other(self.readers(net), driver)
    }
}

/// The nets that control latches.
fn globals_of(alloc: Global, circuit: &Circuit) -> Result<NetSet, AllocError>
    requires { IsCircuit circuit.now }
    ensures { IfOk result (λ globals.
        globals ≡ record {
          count = length circuit.now.nets;
          nets = distinct_nets (controls_of circuit.now.latches);
        }) }
{
    let mut globals = NetSet::new(alloc, circuit.nets.len())?;
    match add_controls(&mut globals, circuit) {
        Ok(()) => Ok(globals),
        Err(error) => {
            drop(globals);
            Err(error)
        }
    }
}

/// Adds the nets that control latches to an empty set.
fn add_controls(globals: &mut NetSet, circuit: &Circuit) -> Result<(), AllocError>
    requires circuit { IsCircuit circuit.now }
    requires none { globals.old ≡ record { count = length circuit.now.nets; nets = [] } }
    ensures { IfOk result (λ _. globals.new
        ≡ record {
          count = length circuit.now.nets;
          nets = distinct_nets (controls_of circuit.now.latches);
        }) }
{
    for latch in circuit.latches.as_slice() {
        if let Some(control) = latch.control {
            globals.insert(control)?;
        }
    }
    Ok(())
}

/// Whether one of the readers isn't the driver.
fn has_other(readers: &[u32], driver: u32) -> bool
    ensures { result ≡ list_any (λ reader. not (reader == driver)) readers.now }
{
    readers.iter().any(|reader| *reader != driver)
}
