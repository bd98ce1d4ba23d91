//! The laws of the bound.
ghost use Rattle.std.specs.Prelude.{ℕ, ◌≡◌, ◌+◌, ◌*◌, ◌≤◌, List};
ghost use Rattle.arch_file.specs.declared.arch.Arch.{Arch};
ghost use Rattle.block_places.specs.Placed.{ArePlaced};
ghost use Rattle.cluster.specs.Clusters.{PackedCircuit};
ghost use Rattle.cluster.specs.PackingLaws.{IsLawfulPacking};
ghost use Rattle.grid.specs.declared.Strip.{Strip};
ghost use Rattle.grid.specs.declared.place.Place.{Place};
ghost use Rattle.pathfinder.specs.LegalRoutes.{IsLegal};
ghost use Rattle.pathfinder.specs.Negotiation.{Done, routed_after};
ghost use Rattle.pathfinder.specs.PlacedNets.{nets_to_route, wiring_of};
ghost use Rattle.rr_graph.specs.Graph.{Basis, IsBasis};
ghost use Rattle.rr_graph.specs.declared.node.Node.{Node};
ghost use Rattle.track_bound.specs.Crossings.{crossing_count};

use grid::laws_of_places;
use pathfinder::done_is_legal;
use rr_graph::one_graph;

/// Where routes are legal, no more nets cross a column than it has horizontal wires: one for each
/// track of each channel over it. Computes nothing.
pub fn few_cross()
    ensures { (arch : Arch) (strip : Strip) (packed : PackedCircuit) (places : List Place)
        (routes : List (List (List Node))) → IsLegal arch strip packed places routes →
        (column : ℕ) → crossing_count packed places column ≤ (strip.rows + 1) * arch.tracks }
{}

/// If no node is overused after an iteration of a routing, no more nets cross a column than it has
/// horizontal wires. So with fewer tracks a routing never ends with routes. Computes nothing.
pub fn few_cross_at_end()
    ensures { (basis : Basis) (packed : PackedCircuit) (places : List Place) (iterations : ℕ) →
        IsBasis basis → IsLawfulPacking packed → ArePlaced basis.strip packed places →
        (routed_after (wiring_of basis) (nets_to_route basis packed places) iterations).standing
        ≡ Done →
        (column : ℕ) →
        crossing_count packed places column ≤ (basis.strip.rows + 1) * basis.arch.tracks }
{
    laws_of_places();
    one_graph();
    done_is_legal();
    few_cross();
}
