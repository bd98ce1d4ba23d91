//! The nodes of routes.
ghost use Rattle.std.specs.Prelude.{◌+◌, ◌-◌, ◌≤◌};
ghost use Rattle.strip_files.specs.Prelude.{MAX_PINS, MAX_COLUMNS, MAX_ROWS};

use rr_graph::Node;

/// A node of a net's route.
#[derive(Clone, Copy)]
pub struct RouteNode {
    pub node: Node,
    ghost on_largest: { (node.x ≤ MAX_COLUMNS) × (node.y ≤ MAX_ROWS + 1)
        × (node.n ≤ MAX_PINS - 1) },
}
