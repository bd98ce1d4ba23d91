//! The keys by which free BLEs are found: the seed is the BLE with most inputs, and a BLE that
//! joins a cluster must read few nets from outside.
ghost use Rattle.std.specs.Prelude.{◌≡◌, ◌==◌, filter, length, not, IfOk};
ghost use Rattle.ble_cluster.specs.BleIndex.{AreLawful};
ghost use Rattle.ble_cluster.specs.FirstFree.{AreKeysUpTo, AreLacks, AreOutsideCounts, HaveAtMost};

use crate::bles::{Ble, Bles};
use std::alloc::{AllocError, Global};

/// The largest number of inputs of a BLE. The numbers of the BLEs' nets are below `count`.
pub(crate) fn most_inputs(bles: &Bles, count: usize) -> usize
    requires { AreLawful (record { elements = bles.now; nets = count }) }
    ensures { HaveAtMost bles.now result }
{
    let mut most = 0;
    for number in 0..bles.len() {
        let inputs = bles.ble(number).inputs.len();
        if most < inputs {
            most = inputs;
        }
    }
    most
}

/// For each BLE, `most` minus the number of its inputs.
pub(crate) fn lacks(alloc: Global, bles: &Bles, most: usize) -> Result<Vec<usize>, AllocError>
    requires { HaveAtMost bles.now most }
    ensures lacks { IfOk result (λ keys. AreLacks bles.now keys.items) }
    ensures within { IfOk result (λ keys. AreKeysUpTo keys.items most) }
{
    let mut keys = Vec::new(alloc);
    for number in 0..bles.len() {
        keys.push(most - bles.ble(number).inputs.len())?;
    }
    Ok(keys)
}

/// The number of nets that the BLE reads and doesn't drive itself.
pub(crate) fn outside_inputs(ble: Ble<'_>) -> usize
    ensures { result ≡ length (filter (λ net. not (net == ble.entry.output)) ble.entry.inputs.now) }
{
    ble.inputs.iter().filter(|net| **net != ble.output).count()
}

/// For each BLE, the number of nets that it reads and doesn't drive itself.
pub(crate) fn outside_counts(
    alloc: Global,
    bles: &Bles,
    most: usize,
) -> Result<Vec<usize>, AllocError>
    requires { HaveAtMost bles.now most }
    ensures counts { IfOk result (λ keys. AreOutsideCounts bles.now keys.items) }
    ensures within { IfOk result (λ keys. AreKeysUpTo keys.items most) }
{
    let mut keys = Vec::new(alloc);
    for number in 0..bles.len() {
        keys.push(outside_inputs(bles.ble(number)))?;
    }
    Ok(keys)
}
