//! The BLEs of a circuit, and a packing that is given up.
use crate::circuits::{packed_netlist, start_packing};
use blif::SharedCircuit;
use cluster::{Bles, Packing};
use std::alloc::Global;

/// A table and a latch after it, shown by an output.
const STORED: &str = "\
.model r
.inputs a c
.outputs q
.names a f
1 1
.latch f q re c 0
";

/// Returns whether a table and the latch that alone reads it are one BLE.
fn is_one_ble(alloc: Global, circuit: &SharedCircuit) -> bool {
    match Bles::new(alloc, circuit.circuit()) {
        Ok(bles) => {
            let is_so = has_one_ble(&bles);
            drop(bles);
            is_so
        }
        Err(_) => false,
    }
}

/// Returns whether there is one BLE, from net 0 to net 2, with a latch that net 1 clocks.
fn has_one_ble(bles: &Bles) -> bool {
    if bles.len() != 1 {
        return false;
    }
    let ble = bles.ble(0);
    ble.inputs == [0].as_slice() && ble.output == 2 && ble.clock == Some(1)
}

/// Returns whether these are the circuit's inputs.
fn has_inputs(circuit: &SharedCircuit, inputs: &[u32]) -> bool {
    circuit.circuit().inputs.as_slice() == inputs
}

/// Returns whether a packing that is given up leaves its circuit.
fn leaves_its_circuit(alloc: Global, packing: Packing) -> bool {
    let was_there = has_inputs(packing.circuit(), &[0, 1]);
    let circuit = packing.into_circuit();
    let is_so = has_inputs(&circuit, &[0, 1]) && is_one_ble(alloc, &circuit);
    drop(circuit);
    was_there && is_so
}

/// Returns whether the circuit is there when its packing is given up.
fn packing_is_given_up(alloc: Global) -> bool {
    match start_packing(alloc, STORED) {
        Some(packing) => leaves_its_circuit(alloc, packing),
        None => false,
    }
}

/// Returns whether what is packed has one BLE.
fn packs_one_ble(alloc: Global) -> bool {
    match packed_netlist(alloc, STORED) {
        Some(packed) => {
            let count = packed.packed().ble_count();
            drop(packed);
            count == 1
        }
        None => false,
    }
}

#[test]
fn packings(rt: HostRuntime) {
    assert!(rt; packing_is_given_up(rt.alloc()));
    assert!(rt; packs_one_ble(rt.alloc()));
}
