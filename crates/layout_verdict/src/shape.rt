//! The size of a strip and of its channels.
ghost use Rattle.std.specs.Prelude.{◌≤◌, IfNone, IfSome};
ghost use Rattle.arch_file.specs.declared.arch.TheConstants.{MAX_TRACKS};
ghost use Rattle.grid.specs.declared.TheConstants.{MAX_COLUMNS, MAX_ROWS};

use arch_file::MAX_TRACKS;
use grid::{MAX_COLUMNS, MAX_ROWS};

/// The size of a strip and of its channels, within the service's limits.
#[derive(Clone, Copy)]
pub struct StripShape {
    /// Columns, 1 to 256.
    pub columns: u32,
    /// Rows, 1 to 64.
    pub rows: u32,
    /// Tracks of each channel, 1 to 64.
    pub tracks: u32,
    ghost columns_lawful: { (1 ≤ columns) × (columns ≤ MAX_COLUMNS) },
    ghost rows_lawful: { (1 ≤ rows) × (rows ≤ MAX_ROWS) },
    ghost tracks_lawful: { (1 ≤ tracks) × (tracks ≤ MAX_TRACKS) },
}

impl StripShape {
    ghost use Rattle.layout_verdict.specs.Shapes.{AreLawful, Holds};

    /// Returns this shape; `None` if a number is out of its range.
    pub fn new(columns: u32, rows: u32, tracks: u32) -> Option<Self>
        ensures some { IfSome result (λ shape. Holds shape columns rows tracks) }
        ensures none { IfNone result (AreLawful columns rows tracks → ⊥) }
    {
        let size = (1..=MAX_COLUMNS).contains(&columns) && (1..=MAX_ROWS).contains(&rows);
        if !size || !(1..=MAX_TRACKS).contains(&tracks) {
            return None;
        }
        Some(StripShape {
            columns,
            rows,
            tracks,
        })
    }
}
