//! The size of the device that is drawn.
ghost use Rattle.std.specs.Prelude.{◌≤◌, IfNone, IfSome};
ghost use Rattle.device_lines.specs.Prelude.{MAX_IO_RAT, MAX_TRACKS, MAX_COLUMNS, MAX_ROWS};

use arch_file::{MAX_IO_RAT, MAX_TRACKS};
use grid::{MAX_COLUMNS, MAX_ROWS};

/// The size of the device, of its channels and of its columns' ends, within the service's limits.
#[derive(Clone, Copy)]
pub struct DeviceSize {
    /// Columns of the device, 1 to 256.
    pub columns: u32,
    /// Rows of the device, 1 to 64.
    pub rows: u32,
    /// Tracks of each channel, 1 to 64.
    pub tracks: u32,
    /// Pads at each end of a column, 1 to 8.
    pub pads: u32,
    ghost columns_lawful: { (1 ≤ columns) × (columns ≤ MAX_COLUMNS) },
    ghost rows_lawful: { (1 ≤ rows) × (rows ≤ MAX_ROWS) },
    ghost tracks_lawful: { (1 ≤ tracks) × (tracks ≤ MAX_TRACKS) },
    ghost pads_lawful: { (1 ≤ pads) × (pads ≤ MAX_IO_RAT) },
}

impl DeviceSize {
    ghost use Rattle.device_lines.specs.Sizes.{AreLawful, Holds};

    /// Returns this size; `None` if it isn't within the limits.
    pub fn new(columns: u32, rows: u32, tracks: u32, pads: u32) -> Option<Self>
        ensures some { IfSome result (λ size. Holds size columns rows tracks pads) }
        ensures none { IfNone result (AreLawful columns rows tracks pads → ⊥) }
    {
        let device = (1..=MAX_COLUMNS).contains(&columns) && (1..=MAX_ROWS).contains(&rows);
        let channel = (1..=MAX_TRACKS).contains(&tracks) && (1..=MAX_IO_RAT).contains(&pads);
        if !device || !channel {
            return None;
        }
        Some(DeviceSize {
            columns,
            rows,
            tracks,
            pads,
        })
    }
}
