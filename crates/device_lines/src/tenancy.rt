//! Live tenancies.
ghost use Rattle.std.specs.Prelude.{◌≡◌, ◌↔◌, ◌+◌, ◌≤◌, ◌<◌, IsTrue, length, true};
ghost use Rattle.device_lines.specs.Prelude.{MAX_COLUMNS};

use rr_graph::{Resource, ResourceKind};

/// A live tenancy of the device.
#[derive(Clone, Copy)]
pub struct Tenancy<'t> {
    pub id: u32,
    /// Letters, digits and `_`, 1 to 32 of them.
    pub name: &'t [u8],
    /// The number of columns before its strip.
    pub offset: u32,
    /// The number of its strip's columns.
    pub width: u32,
    /// The name of its state: letters.
    pub state: &'t [u8],
    ghost on_largest: { offset + width ≤ MAX_COLUMNS },
    ghost name_short: { length name.now ≤ 32 },
}

impl<'t> Tenancy<'t> {
    ghost use Rattle.device_lines.specs.Lines.{listed_of};
    ghost use Rattle.device_lines.specs.Reading.{are_parted, is_in_strip};

    /// Returns whether a column is one of its strip's.
    pub fn has_column(&self, column: u32) -> bool
        ensures { IsTrue result ↔ (self.now.offset < column)
            × (column ≤ self.now.offset + self.now.width) }
    {
        self.offset < column && column <= self.offset + self.width
    }

    /// Returns whether a node is one of its strip's. The vertical channel before the strip's first
    /// column belongs to it.
    pub(crate) fn has_node(&self, node: Resource) -> bool
        ensures { result ≡ is_in_strip node (listed_of self.now) }
    {
        (self.offset < node.x && node.x <= self.offset + self.width)
            || (node.kind == ResourceKind::ChanY && node.x == self.offset)
    }

    /// Returns whether an unused column is between the two strips.
    pub(crate) fn is_parted(&self, other: &Tenancy<'_>) -> bool
        ensures { result ≡ are_parted (listed_of self.now) (listed_of other.now) }
    {
        self.offset + self.width < other.offset || other.offset + other.width < self.offset
    }
}
