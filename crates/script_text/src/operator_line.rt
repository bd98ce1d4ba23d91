//! The lines of the operator.
ghost use Rattle.std.specs.Prelude.{◌≡◌, map, option_map};
ghost use Rattle.script_text.specs.Script.{named_operator, operator_line};

use crate::name::is_name;
use line_text::{decimal_u32, is_word};
use std::alloc::AllocError;

/// A line of the operator, for a tenancy by its name.
pub enum OperatorLine<N> {
    Admit(N, u32),
    Evict(N),
    /// Moves the tenancy's strip to that offset.
    Move(N, u32),
    List,
    /// Asks who owns which pin, wire and pad.
    Owners,
    /// Makes that number of steps of the tenancy's running job.
    Step(N, u32),
    /// Takes the next step of the tenancy's running job, to be held.
    Take(N),
    /// Steps and puts the held job of that number.
    Put(u32),
}

impl<N: Copy> Clone for OperatorLine<N> {
    ghost use Rattle.std.specs.Prelude.{◌≡◌};

    ghost is_clone = { λ line copy. copy ≡ line };

    ghost is_infallible = { λ _. Unit {0} };

    fn clone(&self) -> Result<Self, AllocError> {
        Ok(*self)
    }
}

impl<N: Copy> Copy for OperatorLine<N> {}

/// Returns the operator's line for the words after `op`; `None` if they aren't one.
pub(crate) fn operator_line<'t>(words: &[&'t [u8]]) -> Option<OperatorLine<&'t [u8]>>
    ensures { option_map named_operator result ≡ operator_line (map (λ w. w.now) words.now) }
{
    match words {
        [verb] => {
            if is_word(*verb, "list") {
                Some(OperatorLine::List)
            } else if is_word(*verb, "owners") {
                Some(OperatorLine::Owners)
            } else {
                None
            }
        }
        [verb, name] => {
            if is_word(*verb, "evict") && is_name(*name) {
                Some(OperatorLine::Evict(*name))
            } else if is_word(*verb, "take") && is_name(*name) {
                Some(OperatorLine::Take(*name))
            } else if is_word(*verb, "put") {
                Some(OperatorLine::Put(decimal_u32(*name)?))
            } else {
                None
            }
        }
        [verb, name, number] => {
            if is_word(*verb, "admit") && is_name(*name) {
                Some(OperatorLine::Admit(*name, decimal_u32(*number)?))
            } else if is_word(*verb, "move") && is_name(*name) {
                Some(OperatorLine::Move(*name, decimal_u32(*number)?))
            } else if is_word(*verb, "step") && is_name(*name) {
                Some(OperatorLine::Step(*name, decimal_u32(*number)?))
            } else {
                None
            }
        }
        _ => None,
    }
}
