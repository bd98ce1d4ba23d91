//! The law.
ghost use Rattle.cluster.specs.Clusters.{PackedCircuit};
ghost use Rattle.cluster.specs.LawfulPackings.{IsPacked};
ghost use Rattle.grid.specs.declared.Strip.{Strip};
ghost use Rattle.grid.specs.declared.place.Place.{Place};
ghost use Rattle.implements.specs.LayoutOf.{layout_of};
ghost use Rattle.layout_text.specs.LayoutText.{net_text, place_text, route_text};
ghost use Rattle.rr_graph.specs.declared.node.Node.{Node};
ghost use Rattle.std.specs.Prelude.{◌≡◌, List};
ghost use Rattle.vpr_files.specs.NetFile.{net_text_of};
ghost use Rattle.vpr_files.specs.PlaceFile.{place_text_of};
ghost use Rattle.vpr_files.specs.RouteFile.{route_text_of};

use cluster::laws_of_packing;

/// The bytes of the three files of a packed circuit, of any places and of any routes are the
/// printing of its layout.
pub fn printed_results()
    ensures net { (packed : PackedCircuit) (places : List Place)
        (routes : List (List (List Node))) → IsPacked packed →
        net_text_of packed
        ≡ net_text packed.circuit packed.arch (layout_of packed places routes) }
    ensures place { (packed : PackedCircuit) (strip : Strip) (places : List Place)
        (routes : List (List (List Node))) → IsPacked packed →
        place_text_of strip packed places
        ≡ place_text packed.circuit strip (layout_of packed places routes) }
    ensures route { (packed : PackedCircuit) (strip : Strip) (places : List Place)
        (routes : List (List (List Node))) → IsPacked packed →
        route_text_of strip packed places routes
        ≡ route_text packed.circuit strip (layout_of packed places routes) }
{
    laws_of_packing();
}
