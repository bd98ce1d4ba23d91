//! The pins that a net's planes show.

/// A source, a sink or a pin that a net's planes show, with its place.
#[derive(Clone, Copy)]
pub struct PinAt {
    pub place: usize,
    pub number: usize,
    /// The row of its ends in the first track's plane, and by how much the row of the next track
    /// differs.
    pub row: usize,
    pub per_track: usize,
    /// What is added to the row's numbers.
    pub base: usize,
}
