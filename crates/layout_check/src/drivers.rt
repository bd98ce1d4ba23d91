//! The blocks that drive a net, and those at which it is wanted.
ghost use Rattle.std.specs.Prelude.{◌≡◌, ◌<◌, All, Contains, MatchOption, Some, length, option_map, slice_get};
ghost use Rattle.layout_check.specs.Prelude.{LaidBlock as BlockValue, sink_at, source_at};

use layouts::LaidBlock;
use rr_graph::Node;

/// The node at which the block with this number drives a net.
pub(crate) fn source_of(blocks: &[LaidBlock], driver: usize) -> Node
    requires { driver < length blocks.now }
    ensures { (block : BlockValue) → slice_get blocks.now driver ≡ Some block →
        result ≡ source_at block.block block.place }
{
    blocks[driver].source()
}

/// The first of the numbers of the blocks that drive a net.
pub(crate) fn first_driver(drivers: &[usize]) -> Option<usize>
    ensures { result ≡ slice_get drivers.now 0 }
{
    match drivers.get(0) {
        Some(driver) => Some(*driver),
        None => None,
    }
}

/// The first of the numbers that differs from the driver's.
pub(crate) fn other_driver(drivers: &[usize], driver: usize) -> Option<usize>
    ensures { MatchOption result
        (All (λ k. k ≡ driver) drivers.now)
        (λ other. Contains drivers.now other × (other ≡ driver → ⊥)) }
{
    for other in drivers {
        if *other != driver {
            return Some(*other);
        }
    }
    None
}

/// The node at which the block with this number reads nets, if there is such a block.
pub(crate) fn sink_of(blocks: &[LaidBlock], number: usize) -> Option<Node>
    ensures { result ≡ option_map (λ laid. sink_at laid.block laid.place) (slice_get blocks.now number) }
{
    match blocks.get(number) {
        Some(block) => Some(block.sink()),
        None => None,
    }
}
