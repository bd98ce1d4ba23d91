//! Parts of lines.

use grid::Place;

/// The place of a BLE: the column and the row of its block, and its number in the block, from 0.
#[derive(Clone, Copy)]
pub struct BlePlace {
    pub x: u32,
    pub y: u32,
    pub n: usize,
}

/// What drives a net.
#[derive(Clone, Copy)]
pub enum Driver {
    /// The pad at this place.
    PadAt(Place),
    /// The BLE at this place.
    BleAt(BlePlace),
}

/// What an input of a table takes.
#[derive(Clone, Copy)]
pub enum Signal {
    /// The input pin of this number of its block.
    FromPin(usize),
    /// What the BLE at this place of its block drives.
    FromBle(usize),
    /// The global net of this number.
    FromGlobal(usize),
}
