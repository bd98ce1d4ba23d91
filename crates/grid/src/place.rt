//! A place, its kind, and all places of one kind.
ghost use Rattle.grid.specs.Sizes.{IsStripSize};

use crate::Strip;

/// What a place is for.
#[derive(Clone, Copy, PartialEq, Eq)]
pub enum Kind {
    /// A logic block.
    Logic,
    /// A pad, for an input or an output.
    Pad,
}

/// A place of a strip.
#[derive(Clone, Copy, PartialEq, Eq, PartialOrd, Ord)]
pub struct Place {
    /// The column, from 1.
    pub x: u32,
    /// The row: from 1 for a logic block; 0 or the row above the last for a pad.
    pub y: u32,
    /// The number of the pad among those at its end of the column, from 0; 0 for a logic block.
    pub subblock: u32,
}

/// The places of a strip that are of one kind, in order.
#[derive(Clone, Copy)]
pub struct Places {
    pub(crate) strip: Strip,
    pub(crate) kind: Kind,
    ghost lawful: { IsStripSize strip },
}
