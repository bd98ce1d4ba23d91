//! Whether blocks have room, and are on places of their kind.
ghost use Rattle.std.specs.Prelude.{◌≡◌, ◌≢◌, ◌<◌, ℕ, All, AllPairs, Contains, MatchBool, MatchOption, None, Some, length, slice_get};
ghost use Rattle.layout_check.specs.Prelude.{kind_of, IsPlaceIn, places_of, IsStripSize, ble_places, LaidBlock as BlockValue};
ghost use Rattle.layout_check.specs.BlockFaults.{IsBlockFault, IsBlockRight};

use crate::bles::check_bles;
use crate::fault::BlockFault;
use arch_file::Arch;
use block_places::kind_of;
use cluster::Block;
use grid::{Kind, Place, Strip};
use layouts::LaidBlock;

/// Whether the place is in a column of the strip, and in a row for its kind.
fn is_place(strip: Strip, kind: Kind, place: Place) -> bool
    ensures { MatchBool result (IsPlaceIn strip kind place) (IsPlaceIn strip kind place → ⊥) }
{
    if place.x < 1 || place.x > strip.width {
        return false;
    }
    match kind {
        Kind::Logic => 1 <= place.y && place.y <= strip.rows && place.subblock == 0,
        Kind::Pad => {
            (place.y == 0 || place.y as u64 == strip.rows as u64 + 1)
                && place.subblock < strip.io_rat
        }
    }
}

/// How many BLEs the block has room for.
fn ble_places(arch: &Arch, block: Block) -> u32
    ensures { result ≡ ble_places arch.now block }
{
    match block {
        Block::Cluster(_) => arch.cluster_size,
        Block::InputPad(_) => 0,
        Block::OutputPad(_) => 0,
    }
}

/// Finds what is wrong with a block by itself.
fn check_block(arch: &Arch, strip: Strip, block: &LaidBlock) -> Option<BlockFault>
    requires { IsStripSize strip }
    ensures { MatchOption result (IsBlockRight arch.now strip block.now) (IsBlockFault arch.now strip block.now) }
{
    if !is_place(strip, kind_of(block.block()), block.place()) {
        return Some(BlockFault::NoPlace);
    }
    let bles = block.bles();
    if bles.len() > ble_places(arch, block.block()) as usize {
        return Some(BlockFault::TooManyBles);
    }
    match check_bles(arch, block, bles) {
        Some(found) => Some(BlockFault::Ble(found.0, found.1)),
        None => None,
    }
}

/// The first of the blocks that has a fault by itself.
pub(crate) fn check_blocks(
    arch: &Arch,
    strip: Strip,
    blocks: &[LaidBlock],
) -> Option<(usize, BlockFault)>
    requires { IsStripSize strip }
    ensures { MatchOption result (All (IsBlockRight arch.now strip) blocks.now)
        (λ found. (block : BlockValue) × (slice_get blocks.now found.0 ≡ Some block) × IsBlockFault arch.now strip block found.1) }
{
    for (number, block) in blocks.iter().enumerate() {
        if let Some(fault) = check_block(arch, strip, block) {
            return Some((number, fault));
        }
    }
    None
}
