//! The law of a front.
ghost use Rattle.std.specs.Prelude.{◌≡◌, List, ℕ, true};
ghost use Rattle.front_lines.specs.Speakers.{tag_in};
ghost use Rattle.front_lines.specs.declared.speaker.Speaker.{Speaker};
ghost use Rattle.std.specs.List.{list_all};
ghost use Rattle.std.specs.Str.{bytes_eq};
ghost use Rattle.front_lines.specs.Prelude.{physical_lines, is_tag, is_whole, tag_of};
ghost use Rattle.front_lines.specs.Commands.{ClientState, handed};

/// Whatever lines a client says, what is handed over is whole lines, and each has his tag.
pub fn only_own_lines()
    ensures own { (who : Speaker) (state : ClientState) (lines : List (List ℕ)) →
        is_tag (tag_in who) ≡ true → list_all (λ line. bytes_eq (tag_of line) (tag_in who))
        (physical_lines (handed who state lines)) ≡ true }
    ensures whole { (who : Speaker) (state : ClientState) (lines : List (List ℕ)) →
        is_whole (handed who state lines) ≡ true }
{}
