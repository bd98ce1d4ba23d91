//! What may be assumed of passes and of kept places.
ghost use Rattle.std.specs.Prelude.{◌≡◌, ◌+◌, ◌≤◌, ℕ, true, false, []};
ghost use Rattle.strip_place.specs.Prelude.{Strip};
ghost use Rattle.strip_place.specs.Anneal.{is_past_last};
ghost use Rattle.strip_place.specs.Keeping.{AreKeptOn};

/// Laws of the passes of a placing.
pub fn laws_of_passes()
    // The number of passes before the last is at most the number of columns and rows.
    ensures few { (strip : Strip) (passes : ℕ) → is_past_last strip passes ≡ false →
        passes ≤ strip.width + strip.rows }
    // After the last pass no further pass follows.
    ensures stays { (strip : Strip) (few more : ℕ) → few ≤ more → is_past_last strip few ≡ true →
        is_past_last strip more ≡ true }
{}

/// Laws of kept places.
pub fn laws_of_kept()
    // An empty map suits every strip.
    ensures none { (strip : Strip) → AreKeptOn strip [] }
{}
