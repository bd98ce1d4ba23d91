//! How a strip's routing graph lies in its device's.
ghost use Rattle.std.specs.Prelude.{◌≡◌, ◌+◌, ◌<◌, ◌≤◌, ◌^◌, true, false};
ghost use Rattle.arch_file.specs.declared.arch.Arch.{Arch};
ghost use Rattle.grid.specs.declared.Strip.{Strip};
ghost use Rattle.rr_graph.specs.declared.node.Node.{Node};
ghost use Rattle.rr_graph.specs.Geometry.{is_edge, is_node, node_at_offset};
ghost use Rattle.strips.specs.declared.placed_strip.PlacedStrip.{PlacedStrip};
ghost use Rattle.strips.specs.Plan.{AreApart};
ghost use Rattle.strips.specs.Windows.{IsBeside, is_in_window, moved_back, strip_of_width, in_strip_columns};

use rr_graph::{Node, laws_of_geometry};

/// Returns the device's node for a node of a strip at that offset: the node moved `offset` columns
/// to the right.
pub fn shift(offset: u32, node: Node) -> Node
    requires { offset + node.x < 2 ^ 32 }
    ensures { result ≡ node_at_offset offset node }
{
    Node {
        x: node.x + offset,
        ..node
    }
}

/// Returns the strip's node for a node of the device, for a strip at that offset; `None` if the
/// node lies to the left of the strip's columns.
pub fn unshift(offset: u32, node: Node) -> Option<Node>
    ensures { result ≡ in_strip_columns offset node }
{
    if node.x < offset {
        return None;
    }
    Some(Node {
        x: node.x - offset,
        ..node
    })
}

/// The laws of windows. The device is a strip of all its columns. A strip on it sees the nodes in
/// its window as those of a device of its own width, and an edge that leaves the window reaches no
/// other strip.
pub fn laws_of_windows()
    // A strip's node, moved to the strip's offset, is in its window, and moved back it is the node
    // again.
    ensures there { (arch : Arch) (device : Strip) (strip : PlacedStrip) (node : Node) →
        is_node arch (strip_of_width device strip.width) node ≡ true →
        (is_in_window arch device strip (node_at_offset strip.offset node) ≡ true)
        × (moved_back strip.offset (node_at_offset strip.offset node) ≡ node) }
    // An edge of the device's graph with both ends in a strip's window is an edge of the strip's
    // graph, moved there, and each edge of the strip's graph is one of these.
    ensures pairs { (arch : Arch) (device : Strip) (strip : PlacedStrip) (a b : Node) →
        strip.offset + strip.width ≤ device.width →
        is_in_window arch device strip a ≡ true → is_in_window arch device strip b ≡ true →
        is_edge arch device a b
        ≡ is_edge arch (strip_of_width device strip.width) (moved_back strip.offset a)
        (moved_back strip.offset b) }
    // An edge that leaves a window ends in a pin, or in a wire above a row, of a column beside the
    // strip.
    ensures leaving { (arch : Arch) (device : Strip) (strip : PlacedStrip) (a b : Node) →
        is_edge arch device a b ≡ true →
        is_in_window arch device strip a ≡ true → is_in_window arch device strip b ≡ false →
        IsBeside strip b }
    // Those pins and wires are in no window of a strip that is apart from this one.
    ensures beside { (arch : Arch) (device : Strip) (strip other : PlacedStrip) (node : Node) →
        AreApart strip other → IsBeside strip node →
        is_in_window arch device other node ≡ false }
    // No node is in the windows of two strips that are apart.
    ensures apart { (arch : Arch) (device : Strip) (strip other : PlacedStrip) (node : Node) →
        AreApart strip other →
        is_in_window arch device strip node ≡ true → is_in_window arch device other node ≡ false }
{
    laws_of_geometry();
}
