//! The BLEs of a circuit, by number and by net.
ghost use Rattle.std.specs.Prelude.{◌≡◌, ◌<◌, ◌≤◌, ◌++◌, [], ◌∷◌, ℕ, length, IfOk, slice_get, Some};
ghost use Rattle.ble_cluster.specs.Prelude.{MAX_NETS, pairs_with};
ghost use Rattle.ble_cluster.specs.Nets.{IsOnce, distinct_nets};
ghost use Rattle.ble_cluster.specs.BleIndex.{AreHaving, AreLawful, pairs_from};
ghost use Rattle.ble_cluster.specs.FreeBles.{IsElement};

use crate::bles::{Ble, Bles};
use rows::{Keyed, Rows};
use std::alloc::{AllocError, Global};
use std::marker::Model;

/// The BLEs of a circuit, and for each net the BLEs that have it. Its value is the list of the BLEs
/// and the number of nets.
#[derive(Drop)]
pub(crate) struct BleIndex {
    bles: Bles,
    by_net: Rows,
}

impl Model for BleIndex {
    ghost use Rattle.std.specs.Prelude.{length};
    ghost use Rattle.ble_cluster.specs.BleIndex.{AreElements, BlesOver};

    ghost Value = { BlesOver };

    ghost view = { λ e. record { elements = e.bles; nets = length e.by_net } };

    ghost invariant = { λ e. AreElements e.bles e.by_net };
}

impl BleIndex {
    /// An index of these BLEs, whose nets are numbered below `nets`.
    pub(crate) fn new(alloc: Global, bles: Bles, nets: usize) -> Result<Self, AllocError>
        requires { AreLawful (record { elements = bles; nets = nets }) }
        ensures { IfOk result (λ elements. elements ≡ record { elements = bles; nets = nets }) }
    {
        let pairs = nets_with_elements(alloc, &bles)?;
        let by_net = Rows::by_key(alloc, nets, pairs.as_slice())?;
        Ok(BleIndex { bles, by_net })
    }

    pub(crate) fn bles(&self) -> &Bles
        ensures { result.now ≡ self.now.elements }
    {
        &self.bles
    }

    /// The number of BLEs.
    pub(crate) fn len(&self) -> usize
        ensures count { result ≡ length self.now.elements }
        ensures all { AreLawful self.now }
    {
        self.bles.len()
    }

    /// The number of nets.
    pub(crate) fn nets(&self) -> usize
        ensures { result ≡ self.now.nets }
    {
        self.by_net.len()
    }

    /// The BLE with this number.
    pub(crate) fn ble(&self, number: usize) -> Ble<'_>
        requires { number < length self.now.elements }
        ensures found { slice_get self.now.elements number
            ≡ Some (record {
              inputs = result.inputs.now;
              output = result.output;
              clock = result.clock;
            }) }
        ensures few { self.now.nets ≤ MAX_NETS }
        ensures all { AreLawful self.now }
        ensures lawful { IsElement self.now.nets
            (record { inputs = result.inputs.now; output = result.output; clock = result.clock }) }
    {
        self.bles.ble(number)
    }

    /// The BLEs that have the net.
    pub(crate) fn having(&self, net: u32) -> &[u32]
        requires { net < self.now.nets }
        ensures having { AreHaving self.now.elements net result.now }
        ensures all { AreLawful self.now }
    {
        self.by_net.row(net as usize)
    }

    /// The BLEs, without the index.
    pub(crate) fn into_bles(self) -> Bles
        ensures { result ≡ self.elements }
    {
        let BleIndex { bles, by_net: _ } = self;
        bles
    }
}

/// Each BLE's number, once with each of its nets.
fn nets_with_elements(alloc: Global, bles: &Bles) -> Result<Vec<Keyed>, AllocError>
    requires { (nets : ℕ) × AreLawful (record { elements = bles.now; nets = nets }) }
    ensures { IfOk result (λ pairs. pairs.items ≡ pairs_from 0 bles.now) }
{
    let mut pairs = Vec::new(alloc);
    for number in 0..bles.len() {
        let ble = bles.ble(number);
        push_nets(&mut pairs, number as u32, ble.inputs, ble.output)?;
    }
    Ok(pairs)
}

/// Appends the BLE's number, once with each of its nets.
fn push_nets(
    pairs: &mut Vec<Keyed>,
    number: u32,
    inputs: &[u32],
    output: u32,
) -> Result<(), AllocError>
    requires { IsOnce inputs.now }
    ensures { IfOk result (λ _. pairs.new.items
        ≡ pairs.old.items ++ pairs_with number (distinct_nets (inputs.now ++ output ∷ []))) }
{
    let mut reads_own = false;
    for net in inputs {
        pairs.push(Keyed {
            key: *net,
            item: number,
        })?;
        reads_own |= *net == output;
    }
    if !reads_own {
        pairs.push(Keyed {
            key: output,
            item: number,
        })?;
    }
    Ok(())
}
