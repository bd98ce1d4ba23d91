//! The sides of blocks and pads.
ghost use Rattle.std.specs.Prelude.{◌<◌};

/// A side of a block or pad by its number: above, below, to the right, to the left.
#[derive(Clone, Copy)]
pub(crate) struct Side {
    pub(crate) number: usize,
    ghost few: { number < 4 },
}
