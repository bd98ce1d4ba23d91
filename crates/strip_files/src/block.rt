//! The blocks of a strip.
ghost use Rattle.std.specs.Prelude.{◌+◌, ◌≤◌};
ghost use Rattle.strip_files.specs.Prelude.{MAX_COLUMNS, MAX_ROWS};

use grid::Place;

/// The kind of a block.
#[derive(Clone, Copy, PartialEq, Eq)]
pub enum BlockKind {
    InputPad,
    OutputPad,
    Cluster,
}

/// A block as the `.net` file lists it.
#[derive(Clone, Copy)]
pub(crate) struct ListedBlock<'t> {
    pub(crate) kind: BlockKind,
    pub(crate) name: &'t [u8],
    /// The number of BLEs that the file lists before this block's.
    pub(crate) first_element: usize,
}

/// A block at its place.
#[derive(Clone, Copy)]
pub struct PlacedBlock<'t> {
    pub kind: BlockKind,
    pub name: &'t [u8],
    /// The index, among the strip's BLEs, of its first one. Its others follow, up to the next
    /// block's first.
    pub first_element: usize,
    pub place: Place,
    ghost on_largest: { (place.x ≤ MAX_COLUMNS) × (place.y ≤ MAX_ROWS + 1) × (place.subblock ≤ 7) },
}
