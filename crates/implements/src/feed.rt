//! Where inputs come from.

/// Where an input of a BLE comes from.
#[derive(Clone, Copy)]
pub enum Feed {
    /// The input pin of that number of its block.
    Pin(usize),
    /// What the BLE at that place of its block drives.
    Ble(usize),
}
