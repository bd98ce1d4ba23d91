//! The use of columns.
ghost use Rattle.std.specs.Prelude.{◌≡◌, ◌≤◌};
ghost use Rattle.grid.specs.declared.TheConstants.{MAX_COLUMNS};
ghost use Rattle.device_report.specs.Columns.{IsColumnUse, columns_that, is_beside, is_beside_any, is_free, is_guard, is_in, is_used};

use strips::PlacedStrip;

/// The numbers of the device's columns in strips, and outside.
#[derive(Clone, Copy, PartialEq, Eq)]
pub struct ColumnUse {
    /// Columns of strips.
    pub used: usize,
    /// Unused columns right beside a strip, which stay unused as long as the strip is there.
    pub guard: usize,
    /// All others.
    pub free: usize,
}

impl ColumnUse {
    /// The use of the columns of a device with `columns` columns and these strips.
    pub(crate) fn of(columns: u32, strips: &[PlacedStrip]) -> Self
        requires { columns ≤ MAX_COLUMNS }
        ensures { IsColumnUse columns strips.now result }
    {
        ColumnUse {
            used: used_columns(columns, strips),
            guard: guard_columns(columns, strips),
            free: free_columns(columns, strips),
        }
    }
}

/// The number of columns in strips.
fn used_columns(columns: u32, strips: &[PlacedStrip]) -> usize
    requires { columns ≤ MAX_COLUMNS }
    ensures { result ≡ columns_that columns (is_used strips.now) }
{
    (1..columns + 1)
        .filter(|column| is_used(strips, *column))
        .count()
}

/// The number of unused columns beside a strip.
fn guard_columns(columns: u32, strips: &[PlacedStrip]) -> usize
    requires { columns ≤ MAX_COLUMNS }
    ensures { result ≡ columns_that columns (is_guard strips.now) }
{
    (1..columns + 1)
        .filter(|column| is_beside_any(strips, *column) && !is_used(strips, *column))
        .count()
}

/// The number of unused columns that aren't beside a strip.
fn free_columns(columns: u32, strips: &[PlacedStrip]) -> usize
    requires { columns ≤ MAX_COLUMNS }
    ensures { result ≡ columns_that columns (is_free strips.now) }
{
    (1..columns + 1)
        .filter(|column| !is_beside_any(strips, *column) && !is_used(strips, *column))
        .count()
}

/// Returns whether a column, counted from 1, is one of a strip's.
pub fn is_used(strips: &[PlacedStrip], column: u32) -> bool
    ensures { result ≡ is_used strips.now column }
{
    strips.iter().any(|strip| is_in(*strip, column))
}

/// Returns whether a column, counted from 1, is right beside a strip.
pub fn is_beside_any(strips: &[PlacedStrip], column: u32) -> bool
    ensures { result ≡ is_beside_any strips.now column }
{
    strips.iter().any(|strip| is_beside(*strip, column))
}

/// Returns whether a column, counted from 1, is one of the strip's.
fn is_in(strip: PlacedStrip, column: u32) -> bool
    ensures { result ≡ is_in column strip }
{
    strip.offset < column && column - strip.offset <= strip.width
}

/// Returns whether a column is right beside the strip.
fn is_beside(strip: PlacedStrip, column: u32) -> bool
    ensures { result ≡ is_beside column strip }
{
    column == strip.offset || strip.offset < column && column - strip.offset - 1 == strip.width
}
