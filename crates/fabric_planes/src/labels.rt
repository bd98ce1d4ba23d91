//! Graphs whose nodes are labeled with places.
ghost use Rattle.fabric_planes.specs.Prelude.{IsFamily};
ghost use Rattle.fabric_planes.specs.Labels.{Labels, AreLabels, family_of};

/// A graph with labeled nodes consists of the planes of its tracks.
pub fn labels_law()
    ensures { (l : Labels) → AreLabels l → IsFamily (family_of l) }
{}
