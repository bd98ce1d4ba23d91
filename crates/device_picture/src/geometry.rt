//! The positions in the picture: columns, rows and tracks as [`picture_lines::Lattice`] has them.
//! The pads of row 0 are at its upper end, those above the last row at the lower end of theirs.
ghost use Rattle.std.specs.Prelude.{◌-◌, ◌+◌, ◌*◌, ◌≤◌};
ghost use Rattle.arch_file.specs.declared.arch.TheConstants.{MAX_PINS};
ghost use Rattle.grid.specs.declared.TheConstants.{MAX_COLUMNS, MAX_ROWS};

use crate::view::last_pin;
use device_lines::ListedDevice;
use picture_lines::Lattice;

/// The positions in the picture. Heights count upwards.
#[derive(Clone, Copy)]
pub(crate) struct Geometry {
    /// The sizes of blocks and channels.
    pub(crate) lattice: Lattice,
    /// Columns of the device.
    pub(crate) columns: u32,
    /// Rows of the device.
    pub(crate) rows: u32,
    /// The length of a pad, with the gap after it.
    pub(crate) pad: u32,
    /// The height of a pad.
    pub(crate) pad_height: u32,
    /// The number of pins side by side in a block.
    pub(crate) side: u32,
    /// The width and height of a pin, with the gap after it.
    pub(crate) pin: u32,
    /// The distance of the pins from the sides of their block.
    pub(crate) inset: u32,
    ghost columns_small: { (1 ≤ columns) × (columns ≤ MAX_COLUMNS) },
    ghost rows_small: { (1 ≤ rows) × (rows ≤ MAX_ROWS) },
    ghost pad_small: { (2 ≤ pad) × (pad ≤ 65) },
    ghost pad_low: { (2 ≤ pad_height) × (pad_height ≤ lattice.block) },
    ghost side_small: { (1 ≤ side) × (side ≤ 13) },
    ghost pin_small: { (1 ≤ pin) × (pin ≤ 65) },
    ghost inset_small: { inset ≤ 65 },
}

impl Geometry {
    /// The positions for a device: pins are as large as the largest pin number allows.
    pub(crate) fn of(device: &ListedDevice<'_>) -> Self {
        let size = device.size;
        let side = side_of(last_pin(device));
        let channel = size.tracks + 1;
        let block = channel.max(side + 2).max(2 * size.pads).max(4);
        let pin = (block - 2) / side;
        Geometry {
            lattice: Lattice { block, channel },
            columns: size.columns,
            rows: size.rows,
            pad: block / size.pads,
            pad_height: (block / 4).max(2),
            side,
            pin,
            inset: (block - side * pin) / 2,
        }
    }

    /// The length of the device, from its first channel to its last one.
    pub(crate) fn length(&self) -> u32
        ensures { result ≤ 33_500 }
    {
        self.lattice.span(self.columns) + self.lattice.channel
    }

    /// The height of the device, from the lower pads to the upper ones.
    pub(crate) fn height(&self) -> u32
        ensures { result ≤ 33_700 }
    {
        self.lattice.span(self.rows) + self.lattice.channel + 2 * self.pad_height
    }

    /// The height of the lower end of the lower pads.
    pub(crate) fn bottom(&self) -> u32
        ensures { result ≤ 65 }
    {
        self.lattice.block - self.pad_height
    }
}

/// The side, in pins, of the smallest square that holds the pins up to this one.
fn side_of(last_pin: u32) -> u32
    requires { last_pin ≤ MAX_PINS - 1 }
    ensures { (1 ≤ result) × (result ≤ 13) }
{
    for side in 1..13 {
        if last_pin < side * side {
            return side;
        }
    }
    13
}
