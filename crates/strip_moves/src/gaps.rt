//! The gaps between strips.
ghost use Rattle.std.specs.Prelude.{◌≡◌, ◌≤◌, ◌<◌, IfOk};
ghost use Rattle.grid.specs.declared.TheConstants.{MAX_COLUMNS};
ghost use Rattle.device_report.specs.Columns.{is_free};
ghost use Rattle.strip_moves.specs.Gaps.{begins, free_from, gap_at, gaps_of};

use device_report::{Room, is_beside_any, is_used};
use std::alloc::{AllocError, Global};
use strips::PlacedStrip;

/// The gaps of a device with `columns` columns and these strips, from left to right: free columns
/// side by side. A strip of a gap's width, or a narrower one, can be admitted there.
pub fn gaps_of(alloc: Global, columns: u32, strips: &[PlacedStrip]) -> Result<Vec<Room>, AllocError>
    requires { columns ≤ MAX_COLUMNS }
    ensures { IfOk result (λ gaps. gaps.items ≡ gaps_of columns strips.now) }
{
    (0..columns)
        .map(|offset| gap_at(columns, strips, offset))
        .filter(|gap| gap.width > 0)
        .collect(alloc)
}

/// The gap that begins after that offset; of width 0 if none does.
fn gap_at(columns: u32, strips: &[PlacedStrip], offset: u32) -> Room
    requires columns { columns ≤ MAX_COLUMNS }
    requires offset { offset < columns }
    ensures { result ≡ gap_at columns strips.now offset }
{
    let width = if offset == 0 || !is_free(strips, offset) {
        free_from(columns, strips, offset)
    } else {
        0
    };
    Room { offset, width }
}

/// The number of free columns side by side after that offset.
fn free_from(columns: u32, strips: &[PlacedStrip], offset: u32) -> u32
    requires columns { columns ≤ MAX_COLUMNS }
    requires offset { offset < columns }
    ensures { result ≡ free_from columns strips.now offset }
{
    let count = (offset + 1..columns + 1)
        .take_while(|column| is_free(strips, *column))
        .count();
    count as u32
}

/// Whether a column, counted from 1, is unused and not beside a strip.
fn is_free(strips: &[PlacedStrip], column: u32) -> bool
    ensures { result ≡ is_free strips.now column }
{
    !is_beside_any(strips, column) && !is_used(strips, column)
}
