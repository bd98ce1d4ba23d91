//! The law of the lines that a live service takes.
ghost use Rattle.std.specs.Prelude.{◌≡◌, ◌++◌, ◌∷◌, [], ℕ, List, true};
ghost use Rattle.live_lines.specs.Prelude.{is_name, items_to_come, Tagged, have_tags, output_of, told_in, told_to};
ghost use Rattle.live_lines.specs.Acts.{Telling, Tells};
ghost use Rattle.live_lines.specs.Laws.{items_for, replies_for, said_by};
ghost use Rattle.live_lines.specs.Live.{LiveState, Takes};

/// If a live service takes the lines of many clients, each client's items are those of its own
/// lines, and the lines that are written with its tag are its replies.
pub fn live_law()
    // The items of a name are those of its own lines, whatever lines are between them.
    ensures items { (name : List ℕ) (old new : LiveState) (number : ℕ) (lines : List (List ℕ))
        (tellings : List Telling) (told : List Tagged) → is_name name ≡ true →
        Takes old number lines tellings told new →
        items_to_come (old.texts name) (said_by name lines)
        ≡ items_for name tellings ++ items_to_come (new.texts name) [] }
    // The lines that are written with a name's tag are its replies, byte for byte.
    ensures replies { (name : List ℕ) (old new : LiveState) (number : ℕ)
        (lines : List (List ℕ)) (tellings : List Telling) (told : List Tagged) →
        Takes old number lines tellings told new →
        told_to (64 ∷ name) (output_of told) ≡ replies_for name tellings }
    // So are the texts that are for its tag.
    ensures texts { (name : List ℕ) (old new : LiveState) (number : ℕ)
        (lines : List (List ℕ)) (tellings : List Telling) (told : List Tagged) →
        Takes old number lines tellings told new → told_in (64 ∷ name) told ≡ replies_for name tellings }
    ensures tags { (old new : LiveState) (number : ℕ) (lines : List (List ℕ))
        (tellings : List Telling) (told : List Tagged) → Takes old number lines tellings told new →
        have_tags told ≡ true }
    // The acts are answered one after another, as those of a script.
    ensures tells { (old new : LiveState) (number : ℕ) (lines : List (List ℕ))
        (tellings : List Telling) (told : List Tagged) → Takes old number lines tellings told new →
        Tells old.stage tellings new.stage }
{}
