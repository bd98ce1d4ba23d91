//! What placing and routing may assume of a strip's places.
ghost use Rattle.std.specs.Prelude.{◌≢◌, ◌≤◌, All, AllPairs, Contains, length};
ghost use Rattle.grid.specs.declared.Strip.{Strip};
ghost use Rattle.grid.specs.declared.place.Kind.{Kind};
ghost use Rattle.grid.specs.declared.place.Kind.TheVariants.{Logic, Pad};
ghost use Rattle.grid.specs.declared.place.Place.{Place};
ghost use Rattle.grid.specs.Sizes.{IsStripSize};
ghost use Rattle.grid.specs.Places.{places_of};
ghost use Rattle.grid.specs.PlaceLaws.{IsPlaceIn};

/// Laws of the places of a strip.
pub fn laws_of_places()
    // Each is in the strip, in a row for its kind.
    ensures within { (strip : Strip) (kind : Kind) → IsStripSize strip →
        All (IsPlaceIn strip kind) (places_of strip kind) }
    // No two places of one kind are equal, and no place is of both kinds.
    ensures apart { (strip : Strip) (kind : Kind) → IsStripSize strip →
        AllPairs (λ place other. place ≢ other) (places_of strip kind) }
    ensures kinds_apart { (strip : Strip) (place : Place) → IsStripSize strip →
        Contains (places_of strip Logic) place → Contains (places_of strip Pad) place → ⊥ }
    // There are at most 16,384 places for logic blocks and 4,096 for pads.
    ensures few_logic { (strip : Strip) → IsStripSize strip →
        length (places_of strip Logic) ≤ 16384 }
    ensures few_pads { (strip : Strip) → IsStripSize strip → length (places_of strip Pad) ≤ 4096 }
{}
