//! What the bits of a table are.
ghost use Rattle.std.specs.Prelude.{◌≡◌, ◌<◌, ◌^◌, ◌==◌, ℕ, Bool, true, List, All, map, slice_get, Some};
ghost use Rattle.std.specs.List.{list_any};
ghost use Rattle.table_rows.specs.TableBits.{bit_of, bits_of, value_of};

/// The bit of a table at a number is the value that the table's rows give at the values of its
/// inputs, by name, if net j has the value of the number's bit j. An input that is named twice has
/// one value. Here `inputs` are the nets that the table reads, in the order of its rows'
/// characters, and `nets` are the nets that come to the inputs of its BLE.
pub fn bits_are_rows()
    ensures { (width : ℕ) (rows : List (List (List ℕ))) (inputs nets : List ℕ) (number : ℕ)
        (values : ℕ → Bool) → number < 2 ^ width →
        All (λ net. list_any (λ other. other == net) nets ≡ true) inputs →
        ((j net : ℕ) → slice_get nets j ≡ Some net → values net ≡ bit_of number j) →
        slice_get (bits_of width rows inputs nets) number
        ≡ Some (value_of rows (map values inputs)) }
{}
