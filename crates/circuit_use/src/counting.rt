//! The elements of a circuit, counted.
ghost use Rattle.std.specs.Prelude.{◌≡◌, ◌==◌, ◌≤◌, IfOk, count_by, length};
ghost use Rattle.arch_file.specs.declared.arch.TheConstants.{MAX_CLUSTER_SIZE};
ghost use Rattle.grid.specs.declared.TheConstants.{MAX_COLUMNS, MAX_ROWS};
ghost use Rattle.ble_cluster.specs.Bles.{bles_of};
ghost use Rattle.blif.specs.LawfulCircuits.{IsCircuit};
ghost use Rattle.circuit_use.specs.Counts.{bles_there, global_nets, has_inputs, is_control, is_global, use_of};

use ble_cluster::Bles;
use blif::{Circuit, Tables};
use device_report::ResourceUse;
use std::alloc::{AllocError, Global};

/// The elements of a circuit, and how many of them a device can have.
#[derive(Clone, Copy)]
pub struct CircuitUse {
    /// Basic logic elements: tables, latches, and tables with a latch.
    pub bles: ResourceUse,
    /// Latches. Each BLE of a device can have one.
    pub latches: ResourceUse,
    /// Nets that control latches; they are on the global network.
    pub globals: usize,
}

/// Counts the elements of a circuit, on a device of that size whose logic blocks have
/// `cluster_size` BLEs each. Fails with [`AllocError`] if memory runs out.
pub fn circuit_use(
    alloc: Global,
    circuit: &Circuit,
    cluster_size: u32,
    columns: u32,
    rows: u32,
) -> Result<CircuitUse, AllocError>
    requires circuit { IsCircuit circuit.now }
    requires cluster_size { cluster_size ≤ MAX_CLUSTER_SIZE }
    requires columns { columns ≤ MAX_COLUMNS }
    requires rows { rows ≤ MAX_ROWS }
    ensures { IfOk result (λ counted.
        counted ≡ use_of circuit.now (bles_there cluster_size columns rows)) }
{
    let there = bles_there(cluster_size, columns, rows);
    let bles = bles_in(alloc, circuit)?;
    Ok(CircuitUse {
        bles: ResourceUse { used: bles, there },
        latches: ResourceUse {
            used: circuit.latches.as_slice().len(),
            there,
        },
        globals: global_nets(circuit),
    })
}

/// The number of BLEs of a device.
fn bles_there(cluster_size: u32, columns: u32, rows: u32) -> u32
    requires cluster_size { cluster_size ≤ MAX_CLUSTER_SIZE }
    requires columns { columns ≤ MAX_COLUMNS }
    requires rows { rows ≤ MAX_ROWS }
    ensures { result ≡ bles_there cluster_size columns rows }
{
    let blocks = columns * rows;
    prove!(blocks <= 16_384);
    blocks * cluster_size
}

/// The number of BLEs of a circuit.
fn bles_in(alloc: Global, circuit: &Circuit) -> Result<usize, AllocError>
    requires { IsCircuit circuit.now }
    ensures { IfOk result (λ count. count ≡ length (bles_of circuit.now)) }
{
    let bles = Bles::new(alloc, circuit)?;
    let count = bles.len();
    drop(bles);
    Ok(count)
}

/// The number of nets that control a latch.
fn global_nets(circuit: &Circuit) -> usize
    ensures { result ≡ global_nets circuit.now }
{
    (0..circuit.nets.len())
        .filter(|net| is_global(circuit, *net))
        .count()
}

/// Returns whether a net controls a latch.
fn is_global(circuit: &Circuit, net: usize) -> bool
    ensures { result ≡ is_global circuit.now net }
{
    circuit
        .latches
        .as_slice()
        .iter()
        .any(|latch| is_control(latch.control, net))
}

/// Returns whether the net that controls a latch, if one does, is this one.
fn is_control(control: Option<u32>, net: usize) -> bool
    ensures { result ≡ is_control control net }
{
    match control {
        Some(control) => control as usize == net,
        None => false,
    }
}

/// The number of tables with that number of inputs.
pub(crate) fn tables_with(tables: &Tables, inputs: usize) -> usize
    ensures { result ≡ count_by (has_inputs inputs) tables.now }
{
    let mut count = 0;
    for place in 0..tables.len() {
        let table = tables.table(place);
        if has_inputs(table.inputs, inputs) {
            count += 1;
        }
    }
    count
}

/// Returns whether there are that many nets.
fn has_inputs(nets: &[u32], inputs: usize) -> bool
    ensures { result ≡ (length nets.now == inputs) }
{
    nets.len() == inputs
}
