//! The widest strip that would be admitted now.
ghost use Rattle.std.specs.Prelude.{◌≡◌, ◌↔◌, ◌+◌, ◌≤◌, ◌<◌, All, AllPairs, IsTrue};
ghost use Rattle.grid.specs.declared.TheConstants.{MAX_COLUMNS};
ghost use Rattle.strips.specs.Plan.{AreApart, IsFirstFit, IsParted};
ghost use Rattle.device_report.specs.Widest.{IsWidest};

use strips::{MAX_STRIPS, PlacedStrip};

/// A strip of that width, and the offset that it would get.
#[derive(Clone, Copy, PartialEq, Eq)]
pub struct Room {
    /// The columns to the left of it.
    pub offset: u32,
    /// Its columns.
    pub width: u32,
}

/// The widest strip that a device with `columns` columns and these strips would admit, at the
/// offset that the service would choose; `None` if it would admit no strip.
pub(crate) fn widest_strip(columns: u32, strips: &[PlacedStrip]) -> Option<Room>
    requires columns { columns ≤ MAX_COLUMNS }
    requires strips { All (λ s. s.offset + s.width ≤ MAX_COLUMNS) strips.now }
    ensures { IsWidest (record { columns = columns; strips = strips.now }) result }
{
    if strips.len() >= MAX_STRIPS || !are_parted(columns, strips) {
        return None;
    }
    for missing in 0..columns {
        let width = columns - missing;
        if let Some(offset) = first_fit(columns, strips, width) {
            return Some(Room { offset, width });
        }
    }
    None
}

/// The least offset at which a strip of that width is separated from all others.
fn first_fit(columns: u32, strips: &[PlacedStrip], width: u32) -> Option<u32>
    requires columns { columns ≤ MAX_COLUMNS }
    requires width { (1 ≤ width) × (width ≤ columns) }
    requires parted { IsParted (record { columns = columns; strips = strips.now }) }
    ensures { IsFirstFit (record { columns = columns; strips = strips.now }) width result }
{
    for offset in 0..columns - width + 1 {
        let strip = PlacedStrip {
            id: 0,
            offset,
            width,
        };
        if is_apart_from_all(strips, strip) {
            return Some(offset);
        }
    }
    None
}

/// Returns whether each strip is within the device, and a column between any two is unused.
fn are_parted(columns: u32, strips: &[PlacedStrip]) -> bool
    requires columns { columns ≤ MAX_COLUMNS }
    requires strips { All (λ s. s.offset + s.width ≤ MAX_COLUMNS) strips.now }
    ensures { IsTrue result ↔ IsParted (record { columns = columns; strips = strips.now }) }
{
    are_inside(columns, strips) && are_apart(strips)
}

/// Returns whether each strip is within the device.
fn are_inside(columns: u32, strips: &[PlacedStrip]) -> bool
    requires { All (λ s. s.offset + s.width ≤ MAX_COLUMNS) strips.now }
    ensures { IsTrue result ↔ All (λ s. s.offset + s.width ≤ columns) strips.now }
{
    strips
        .iter()
        .all(|strip| strip.offset + strip.width <= columns)
}

/// Returns whether a column between any two of the strips is unused.
fn are_apart(strips: &[PlacedStrip]) -> bool
    requires { All (λ s. s.offset + s.width ≤ MAX_COLUMNS) strips.now }
    ensures { IsTrue result ↔ AllPairs AreApart strips.now }
{
    for place in 0..strips.len() {
        let (before, _) = strips.split_at(place);
        if !is_apart_from_all(before, strips[place]) {
            return false;
        }
    }
    true
}

/// Returns whether a column between the strip and each of those is unused.
pub fn is_apart_from_all(strips: &[PlacedStrip], strip: PlacedStrip) -> bool
    requires strip { strip.offset + strip.width ≤ MAX_COLUMNS }
    requires strips { All (λ s. s.offset + s.width ≤ MAX_COLUMNS) strips.now }
    ensures { IsTrue result ↔ All (λ s. AreApart s strip) strips.now }
{
    strips.iter().all(|s| {
        s.offset + s.width < strip.offset || strip.offset + strip.width < s.offset
    })
}
