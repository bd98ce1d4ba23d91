//! What a device consists of.
ghost use Rattle.std.specs.Prelude.{◌≡◌, ◌<◌, ◌↔◌, IsTrue};

use std::alloc::AllocError;
use std::marker::Model;

/// The most inputs of a logic block.
pub const MAX_INPUTS: u32 = 128;

/// The most inputs of a table.
pub const MAX_LUT_SIZE: u32 = 8;

/// The most BLEs of a logic block.
pub const MAX_CLUSTER_SIZE: u32 = 16;

/// The most pins of a logic block: 128 inputs, 16 outputs and a clock.
pub const MAX_PINS: u32 = 145;

/// The most pads at each end of a column.
pub const MAX_IO_RAT: u32 = 8;

/// The most tracks of a channel.
pub const MAX_TRACKS: u32 = 64;

/// What a pin of a logic block is used for.
#[derive(Clone, Copy, PartialEq, Eq)]
pub enum PinClass {
    /// Class 0, an input of a table.
    Input,
    /// Class 1, the output of a BLE.
    Output,
    /// Class 2, the clock, which arrives on the global network.
    Clock,
}

/// The sides of a logic block on which a pin can be reached.
#[derive(Clone, Copy, PartialEq, Eq)]
pub struct Sides {
    pub top: bool,
    pub bottom: bool,
    pub left: bool,
    pub right: bool,
}

/// A pin of a logic block.
#[derive(Clone, Copy, PartialEq, Eq)]
pub struct Pin {
    pub class: PinClass,
    pub sides: Sides,
}

/// The pins of a logic block, numbered from 0 in the order of their lines. Its value is their list.
#[derive(Drop)]
pub struct Pins {
    pins: Vec<Pin>,
}

impl Model for Pins {
    ghost use Rattle.std.specs.Prelude.{List};
    ghost use Rattle.arch_file.specs.declared.arch.Pin.{Pin};

    ghost Value = { List Pin };

    ghost view = { λ a. a.pins.items };
}

impl Pins {
    /// These pins, in order. Takes no memory.
    pub fn new(pins: Vec<Pin>) -> Self
        ensures { result ≡ pins.items }
    {
        Pins { pins }
    }

    /// The pins in order.
    pub fn as_slice(&self) -> &[Pin]
        ensures { result.now ≡ self.now }
    {
        self.pins.as_slice()
    }
}

impl Clone for Pins {
    ghost is_clone = { λ pins copy. copy ≡ pins };

    fn clone(&self) -> Result<Self, AllocError> {
        Ok(Pins {
            pins: Vec::from_slice(*self.pins.allocator(), self.pins.as_slice())?,
        })
    }
}

/// What a device consists of, except for its size.
#[derive(Drop)]
pub struct Arch {
    /// Pads at each end of a column, 1 to 8.
    pub io_rat: u32,
    pub pins: Pins,
    /// BLEs of a logic block, 1 to 16.
    pub cluster_size: u32,
    /// Inputs of a table, 1 to 8.
    pub lut_size: u32,
    /// Tracks of each channel, 1 to 64.
    pub tracks: u32,
    /// Tracks that an output pin reaches, 1 to all.
    pub fc_output: u32,
    /// Tracks that an input pin reaches, 1 to all.
    pub fc_input: u32,
    /// Tracks that a pad reaches, 1 to all.
    pub fc_pad: u32,
}

impl Arch {
    /// Returns whether both architectures have the same numbers and the same pins.
    pub fn same(&self, other: &Arch) -> bool
        ensures { IsTrue result ↔ (self.now ≡ other.now) }
    {
        self.io_rat == other.io_rat
            && self.cluster_size == other.cluster_size
            && self.lut_size == other.lut_size
            && self.tracks == other.tracks
            && self.fc_output == other.fc_output
            && self.fc_input == other.fc_input
            && self.fc_pad == other.fc_pad
            && same_pins(self.pins.as_slice(), other.pins.as_slice())
    }
}

/// Returns whether both have the same pins, in order.
fn same_pins(pins: &[Pin], others: &[Pin]) -> bool
    ensures { IsTrue result ↔ (pins.now ≡ others.now) }
{
    pins == others
}

impl Clone for Arch {
    ghost is_clone = { λ arch copy. copy ≡ arch };

    fn clone(&self) -> Result<Self, AllocError> {
        Ok(Arch {
            io_rat: self.io_rat,
            pins: self.pins.clone()?,
            cluster_size: self.cluster_size,
            lut_size: self.lut_size,
            tracks: self.tracks,
            fc_output: self.fc_output,
            fc_input: self.fc_input,
            fc_pad: self.fc_pad,
        })
    }
}
