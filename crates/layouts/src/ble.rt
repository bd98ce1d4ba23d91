//! A basic logic element (BLE) of a layout.
ghost use Rattle.std.specs.Prelude.{◌≡◌};

use implements::Feed;
use std::marker::Model;

/// A BLE: the net that it drives, where its inputs come from, the pin by which its net leaves the
/// block, and the pin by which its clock comes in.
#[derive(Drop)]
pub struct LaidBle {
    name: u32,
    inputs: Vec<Feed>,
    output: Option<usize>,
    clock: Option<usize>,
}

impl Model for LaidBle {
    ghost use Rattle.implements.specs.Layouts.{LaidBle as BleValue};

    ghost Value = { BleValue };

    ghost view = { λ b. record {
      name = b.name;
      inputs = b.inputs.items;
      output = b.output;
      clock = b.clock;
    } };
}

impl LaidBle {
    /// The BLE of these parts. Takes no memory.
    pub fn new(name: u32, inputs: Vec<Feed>, output: Option<usize>, clock: Option<usize>) -> Self
        ensures { result ≡ record {
          name = name;
          inputs = inputs.items;
          output = output;
          clock = clock;
        } }
    {
        LaidBle {
            name,
            inputs,
            output,
            clock,
        }
    }

    /// The net that it drives, by its number in the circuit.
    pub fn name(&self) -> u32
        ensures { result ≡ self.now.name }
    {
        self.name
    }

    /// Where its inputs come from, in order.
    pub fn inputs(&self) -> &[Feed]
        ensures { result.now ≡ self.now.inputs }
    {
        self.inputs.as_slice()
    }

    /// The number of the block's pin by which its net leaves the block, if it leaves.
    pub fn output(&self) -> Option<usize>
        ensures { result ≡ self.now.output }
    {
        self.output
    }

    /// The number of the block's pin by which its clock comes in, if it has one.
    pub fn clock(&self) -> Option<usize>
        ensures { result ≡ self.now.clock }
    {
        self.clock
    }
}
