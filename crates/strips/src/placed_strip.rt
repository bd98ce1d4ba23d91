//! A strip at its offset.

/// The strip of one tenancy: the columns from `offset` on, `width` of them.
#[derive(Clone, Copy, Default, PartialEq, Eq)]
pub struct PlacedStrip {
    /// The id of the tenancy that has the strip.
    pub id: u32,
    /// The number of columns to the left of the strip.
    pub offset: u32,
    /// The number of its columns.
    pub width: u32,
}
