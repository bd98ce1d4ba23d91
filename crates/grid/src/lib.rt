//! The places of a strip.
//!
//! A strip has columns 1 to `width` of logic blocks in rows 1 to `rows`. At both ends of each
//! column, in row 0 and in row `rows + 1`, it has `io_rat` pads. [`Strip::places`] returns the
//! places of one kind in order, by arithmetic and without memory: by column, then row, then the
//! pad's number. [`laws_of_places`] states what placing and routing may assume of them.
#![tactic(auto)]

mod laws;
mod place;
mod places;

pub use laws::laws_of_places;
pub use place::{Kind, Place, Places};

/// The most rows of logic blocks that a device can have.
pub const MAX_ROWS: u32 = 64;

/// The most columns of logic blocks that a device can have.
pub const MAX_COLUMNS: u32 = 256;

/// The size of a strip: the part of the device that a tenancy has, whatever its offset.
#[derive(Clone, Copy, PartialEq, Eq)]
pub struct Strip {
    /// Columns of logic blocks, 1 to 256.
    pub width: u32,
    /// Rows of logic blocks, 1 to 64.
    pub rows: u32,
    /// Pads at each end of a column, 1 to 8.
    pub io_rat: u32,
}
