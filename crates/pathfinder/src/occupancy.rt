//! The occupancy of each node.
ghost use Rattle.std.specs.Prelude.{◌≡◌, ◌+◌, ◌<◌, ◌^◌, ℕ, All, length, slice_index};
ghost use Rattle.pathfinder.specs.Tables.{AreHeld, times_in};

/// Adds one to the occupancy of these nodes, for one more tree.
pub(crate) fn occupy(held: &mut [u32], nodes: &[usize])
    requires within { All (λ node. node < length held.old) nodes.now }
    requires few { (node : ℕ) → slice_index held.old node + times_in node nodes.now < 2 ^ 32 }
    ensures len { length held.new ≡ length held.old }
    ensures counted { (node : ℕ) → slice_index held.new node
        ≡ slice_index held.old node + times_in node nodes.now }
{
    for node in nodes {
        held[*node] += 1;
    }
}

/// Subtracts one from the occupancy of these nodes, for one tree less.
pub(crate) fn release(held: &mut [u32], nodes: &[usize])
    requires { AreHeld held.old nodes.now }
    ensures len { length held.new ≡ length held.old }
    ensures counted { (node : ℕ) → slice_index held.new node + times_in node nodes.now
        ≡ slice_index held.old node }
{
    for node in nodes {
        held[*node] -= 1;
    }
}
