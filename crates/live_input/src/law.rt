//! The laws of the lines of an input.
ghost use Rattle.std.specs.Prelude.{◌≡◌, ◌∷◌, ◌++◌, ◌+◌, ℕ, List, None, length};
ghost use Rattle.sessions.specs.Items.{items_of};
ghost use Rattle.sessions.specs.Reading.{items_to_come};
ghost use Rattle.tagged_lines.specs.Tags.{told_to};
ghost use Rattle.line_service.specs.Conversation.{AreAnswered};
ghost use Rattle.live_lines.specs.Laws.{said_by};
ghost use Rattle.live_lines.specs.Live.{LiveState};
ghost use Rattle.live_input.specs.Serving.{AnswersLine, AreTaken, kept_input, kept_lines};

/// The items of what the lines with a name's tag say, as a session's input, are the items of those
/// lines.
pub fn input_law()
    ensures { (name input : List ℕ) →
        items_of (told_to (64 ∷ name) (kept_input input))
        ≡ items_to_come None (said_by name (kept_lines input)) }
{}

/// Lines that are answered one after another are taken one after another: so the laws of a live
/// service hold of them. Lines that are answered after other lines are answered as one list.
pub fn served_law()
    ensures taken { (old new : LiveState) (number : ℕ) (lines : List (List ℕ)) (text : List ℕ) →
        AreAnswered AnswersLine old number lines text new →
        AreTaken old number lines text new }
    ensures one { (old mid new : LiveState) (number : ℕ) (lines more : List (List ℕ))
        (text reply : List ℕ) → AreAnswered AnswersLine old number lines text mid →
        AreAnswered AnswersLine mid (number + length lines) more reply new →
        AreAnswered AnswersLine old number (lines ++ more) (text ++ reply) new }
{}
