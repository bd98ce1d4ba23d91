//! What placing and routing may assume of a packed circuit.
ghost use Rattle.cluster.specs.Clusters.{PackedCircuit};
ghost use Rattle.cluster.specs.LawfulPackings.{IsPacked};
ghost use Rattle.cluster.specs.PackingLaws.{IsLawfulPacking};

/// Each packed circuit satisfies the laws by which a placer and a router index: each BLE is in one
/// cluster, each cluster fits, and nets lead from a block to other blocks, in order. The readers of
/// `Packed` ensure that its value is such a circuit.
pub fn laws_of_packing()
    ensures { (packed : PackedCircuit) → IsPacked packed → IsLawfulPacking packed }
{}
