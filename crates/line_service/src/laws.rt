//! The laws of lines that are answered one after another.
ghost use Rattle.std.specs.Prelude.{ℕ, ◌+◌, ◌++◌, List, length};
ghost use Rattle.line_service.specs.Conversation.{AreAnswered};

use crate::answers::Answers;

/// Lines that are answered after other lines are answered as one list of lines.
pub fn laws_of_lines<A: Answers>()
    ensures { (old mid new : A) (number : ℕ) (lines more : List (List ℕ)) (text reply : List ℕ) →
        AreAnswered A.answers old number lines text mid →
        AreAnswered A.answers mid (number + length lines) more reply new →
        AreAnswered A.answers old number (lines ++ more) (text ++ reply) new }
{}
