//! The kind of place that a block needs.
ghost use Rattle.std.specs.Prelude.{◌≡◌};
ghost use Rattle.block_places.specs.Fits.{kind_of};

use cluster::Block;
use grid::Kind;

/// The kind of place that the block needs.
pub fn kind_of(block: Block) -> Kind
    ensures { result ≡ kind_of block }
{
    match block {
        Block::InputPad(_) | Block::OutputPad(_) => Kind::Pad,
        Block::Cluster(_) => Kind::Logic,
    }
}
