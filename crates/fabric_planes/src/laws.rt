//! Laws of a strip's planes.
ghost use Rattle.std.specs.Prelude.{◌≡◌, ◌<◌, ◌⊎◌, ℕ, List, All, sum_by};
ghost use Rattle.fabric_planes.specs.Prelude.{Basis, IsBasis, graph_of, Sink, IsPath, Leads, IsFamily};
ghost use Rattle.fabric_planes.specs.Layout.{Terminals, AreCosts, IsNetSearch, graph_at, planes_of};
ghost use Rattle.fabric_planes.specs.Sides.{AreSideBounds, IsBySide, IsFromPin, IsFromWire, IsStartKind};
ghost use Rattle.fabric_planes.specs.Ways.{IsWireAt, IsWayOver};

use rr_graph::one_graph;

/// A strip's routing graph consists of planes: a way from a wire stays on the wire's track.
pub fn planes_law()
    ensures { (basis : Basis) (cost : ℕ → ℕ) (starts : List ℕ) (goal : ℕ) (t : Terminals) →
        IsBasis basis → IsNetSearch basis cost starts goal t →
        IsFamily (planes_of basis cost starts goal t) }
{
    one_graph();
}

/// Each way from a wire to a sink leads over a last wire of its track, and over a pin. It has as
/// many wires at least as the distance of the two demands, and each costs at least 1.
pub fn ways_law()
    ensures { (basis : Basis) (cost : ℕ → ℕ) (goal from : ℕ) (rest : List ℕ) →
        IsBasis basis → AreCosts basis cost → ((graph_of basis).node goal).kind ≡ Sink →
        IsWireAt basis from → Leads (graph_at basis cost) goal from rest →
        IsWayOver basis cost goal from rest }
{}

/// Lower bounds of ways from a wire to a sink, by the sides at which they may end.
pub fn sides_law()
    ensures { (basis : Basis) (cost : ℕ → ℕ) (goal from : ℕ) (rest : List ℕ) (pins : ℕ → ℕ)
        (lasts : ℕ → ℕ → ℕ) →
        IsBasis basis → AreCosts basis cost → goal < (graph_of basis).count →
        ((graph_of basis).node goal).kind ≡ Sink →
        AreSideBounds basis cost ((graph_of basis).node goal) pins lasts →
        IsWireAt basis from → Leads (graph_at basis cost) goal from rest →
        IsBySide basis from ((graph_of basis).node goal) pins lasts
        (sum_by cost rest) }
{}

/// Lower bounds of paths: a path begins at a wire, or it leads over an output pin and a wire that
/// the pin meets. What follows that wire is bounded by [`sides_law`].
pub fn paths_law()
    ensures { (basis : Basis) (cost : ℕ → ℕ) (starts : List ℕ) (goal : ℕ) (path : List ℕ)
        (pins : ℕ → ℕ) (lasts : ℕ → ℕ → ℕ) →
        IsBasis basis → AreCosts basis cost → goal < (graph_of basis).count →
        ((graph_of basis).node goal).kind ≡ Sink →
        AreSideBounds basis cost ((graph_of basis).node goal) pins lasts →
        All (λ start. (start < (graph_of basis).count)
        × IsStartKind ((graph_of basis).node start).kind) starts →
        IsPath (graph_at basis cost) starts goal path →
        IsFromWire basis cost ((graph_of basis).node goal) pins lasts path
        ⊎ IsFromPin basis cost ((graph_of basis).node goal) pins lasts path }
{}
