//! The size of a strip.
ghost use Rattle.std.specs.Prelude.{◌≡◌, ◌↔◌, ◌≤◌, ◌+◌, ◌⊎◌, IfNone, IfSome, IsTrue, true};
ghost use Rattle.strip_files.specs.Prelude.{MAX_COLUMNS, MAX_ROWS};
ghost use Rattle.strip_files.specs.Sizes.{BeginsAt};

use grid::{MAX_COLUMNS, MAX_ROWS};
use rr_graph::NodeKind;

/// Columns and rows of a strip, within the service's limits.
#[derive(Clone, Copy, PartialEq, Eq)]
pub struct StripSize {
    /// Columns of logic blocks, 1 to 256.
    pub columns: u32,
    /// Rows of logic blocks, 1 to 64.
    pub rows: u32,
    ghost columns_lawful: { (1 ≤ columns) × (columns ≤ MAX_COLUMNS) },
    ghost rows_lawful: { (1 ≤ rows) × (rows ≤ MAX_ROWS) },
}

impl StripSize {
    /// Returns this size; `None` if it isn't within the limits.
    pub fn new(columns: u32, rows: u32) -> Option<Self>
        ensures some { IfSome result (λ size. (size.columns ≡ columns) × (size.rows ≡ rows)) }
        ensures none { IfNone result ((1 ≤ columns) × (columns ≤ MAX_COLUMNS) × (1 ≤ rows)
            × (rows ≤ MAX_ROWS) → ⊥) }
    {
        if !(1..=MAX_COLUMNS).contains(&columns) || !(1..=MAX_ROWS).contains(&rows) {
            return None;
        }
        Some(StripSize { columns, rows })
    }

    /// Returns whether logic blocks are there.
    pub fn has_block(&self, x: u32, y: u32) -> bool
        ensures there { IsTrue result ↔ (1 ≤ x) × (x ≤ self.now.columns) × (1 ≤ y)
            × (y ≤ self.now.rows) }
        ensures column { result ≡ true → (1 ≤ x) × (x ≤ MAX_COLUMNS) }
        ensures row { result ≡ true → (1 ≤ y) × (y ≤ MAX_ROWS) }
    {
        x >= 1 && x <= self.columns && y >= 1 && y <= self.rows
    }

    /// Returns whether pads are there: in row 0, and above the last row.
    pub fn has_pads(&self, x: u32, y: u32) -> bool
        ensures there { IsTrue result ↔ (1 ≤ x) × (x ≤ self.now.columns)
            × ((y ≡ 0) ⊎ (y ≡ self.now.rows + 1)) }
        ensures column { result ≡ true → (1 ≤ x) × (x ≤ MAX_COLUMNS) }
        ensures row { result ≡ true → y ≤ MAX_ROWS + 1 }
    {
        x >= 1 && x <= self.columns && (y == 0 || y == self.rows + 1)
    }

    /// Returns whether a channel of wires of that kind is there.
    pub fn has_channel(&self, kind: NodeKind, x: u32, y: u32) -> bool
        ensures there { IsTrue result ↔ BeginsAt kind x y × (x ≤ self.now.columns)
            × (y ≤ self.now.rows) }
        ensures column { result ≡ true → x ≤ MAX_COLUMNS }
        ensures row { result ≡ true → y ≤ MAX_ROWS }
    {
        let inside = x <= self.columns && y <= self.rows;
        match kind {
            NodeKind::ChanX => inside && x >= 1,
            NodeKind::ChanY => inside && y >= 1,
            _ => false,
        }
    }
}
