//! The law of tagged lines.
ghost use Rattle.std.specs.Prelude.{◌≡◌, ℕ, List, true};
ghost use Rattle.line_text.specs.Lines.{physical_lines};
ghost use Rattle.tagged_lines.specs.Tags.{Tagged, are_of, with_last_feed, have_tags, is_of, is_tag, is_whole, output_of, tagged_text, told_in, told_to};

/// Texts that are written one after another, each with its tag, can be separated again. The lines
/// of one owner are exactly the texts for that owner, in order, whatever bytes the texts have. Each
/// line that is written has the tag of one of the texts.
pub fn told_apart()
    // The lines of an owner are the texts for that owner.
    ensures apart { (owner : List ℕ) (all : List Tagged) → have_tags all ≡ true →
        told_to owner (output_of all) ≡ told_in owner all }
    // A text comes back with its last line ended by LF.
    ensures back { (owner tag text : List ℕ) → is_tag tag ≡ true → is_of owner tag ≡ true →
        told_to owner (tagged_text tag text) ≡ with_last_feed text }
    // If its last line is ended by LF already, it comes back byte for byte.
    ensures same { (text : List ℕ) → is_whole text ≡ true → with_last_feed text ≡ text }
    // No line is anyone else's.
    ensures lines { (all : List Tagged) → have_tags all ≡ true →
        are_of all (physical_lines (output_of all)) ≡ true }
    ensures whole { (all : List Tagged) → is_whole (output_of all) ≡ true }
{}
