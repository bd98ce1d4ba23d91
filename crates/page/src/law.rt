//! Why nothing of a text is markup.
ghost use Rattle.std.specs.Prelude.{◌≡◌, ℕ, List, true};
ghost use Rattle.std.specs.List.{flat_map, list_all};
ghost use Rattle.page.specs.Shown.{is_inert, escape_of};

/// Whatever bytes a text has, none that is written for them begins or ends a tag or the value of an
/// attribute.
pub fn texts_are_inert()
    ensures { (bytes : List ℕ) → list_all is_inert (flat_map escape_of bytes) ≡ true }
{}
