//! Whether places differ, and nets have one entry each.
ghost use Rattle.std.specs.Prelude.{◌≡◌, ◌≢◌, ◌<◌, ℕ, AllPairs, MatchOption, Some, slice_get};
ghost use Rattle.layout_check.specs.Prelude.{Place as PlaceValue, LaidBlock as BlockValue, LaidNet as NetValue};

use grid::Place;
use layouts::{LaidBlock, LaidNet};

/// The number of a block before this end that has the place.
fn block_at(blocks: &[LaidBlock], end: usize, place: Place) -> Option<usize>
    ensures { MatchOption result
        ((k : ℕ) (block : BlockValue) → k < end → slice_get blocks.now k ≡ Some block → block.place ≢ place)
        (λ k. (k < end) × (block : BlockValue) × (slice_get blocks.now k ≡ Some block) × (block.place ≡ place)) }
{
    for (k, block) in blocks.iter().enumerate() {
        if k < end && block.place() == place {
            return Some(k);
        }
    }
    None
}

/// The numbers of two blocks that have one place, the earlier block first.
pub(crate) fn same_place(blocks: &[LaidBlock]) -> Option<(usize, usize)>
    ensures { MatchOption result
        (AllPairs (λ laid other. laid.place ≢ other.place) blocks.now)
        (λ found. (found.0 < found.1) × (laid : BlockValue) × (other : BlockValue) × (slice_get blocks.now found.0 ≡ Some laid) × (slice_get blocks.now found.1 ≡ Some other) × (laid.place ≡ other.place)) }
{
    for (number, block) in blocks.iter().enumerate() {
        if let Some(earlier) = block_at(blocks, number, block.place()) {
            return Some((earlier, number));
        }
    }
    None
}

/// The number of an entry before this end that has the net.
fn entry_of(nets: &[LaidNet], end: usize, net: u32) -> Option<usize>
    ensures { MatchOption result
        ((k : ℕ) (laid : NetValue) → k < end → slice_get nets.now k ≡ Some laid → laid.net ≢ net)
        (λ k. (k < end) × (laid : NetValue) × (slice_get nets.now k ≡ Some laid) × (laid.net ≡ net)) }
{
    for (k, laid) in nets.iter().enumerate() {
        if k >= end {
            return None;
        }
        if laid.net() == net {
            return Some(k);
        }
    }
    None
}

/// The numbers of two entries of one net, the earlier entry first.
pub(crate) fn same_net(nets: &[LaidNet]) -> Option<(usize, usize)>
    ensures { MatchOption result
        (AllPairs (λ laid other. laid.net ≢ other.net) nets.now)
        (λ found. (found.0 < found.1) × (laid : NetValue) × (other : NetValue) × (slice_get nets.now found.0 ≡ Some laid) × (slice_get nets.now found.1 ≡ Some other) × (laid.net ≡ other.net)) }
{
    for (number, laid) in nets.iter().enumerate() {
        if let Some(earlier) = entry_of(nets, number, laid.net()) {
            return Some((earlier, number));
        }
    }
    None
}
