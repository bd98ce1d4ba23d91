//! Seats and passes, handed out one at a time.
ghost use Rattle.std.specs.Prelude.{◌≡◌, ◌++◌, [], All, IfNone, IfSome, option_to_list};

use crate::injector::Pass;
use crate::ready::Ready;
use crate::rule::Law;
use crate::seat::Seat;

/// Takes the last of a queue's seats. `None` if there are no more.
pub fn a_seat<J: Law>(seats: &mut Vec<Seat<J>>, ready: &Ready<J>) -> Option<Seat<J>>
    requires { All (λ s. s.of ≡ ready.now) seats.old.items }
    ensures taken { seats.old.items ≡ seats.new.items ++ option_to_list result }
    ensures rest { All (λ s. s.of ≡ ready.now) seats.new.items }
    ensures of { IfSome result (λ s. s.of ≡ ready.now) }
    ensures none { IfNone result (seats.old.items ≡ []) }
{
    seats.pop()
}

/// Takes the last of a queue's passes. `None` if there are no more.
pub fn a_pass<J: Law>(passes: &mut Vec<Pass<J>>, ready: &Ready<J>) -> Option<Pass<J>>
    requires { All (λ p. p.of ≡ ready.now) passes.old.items }
    ensures taken { passes.old.items ≡ passes.new.items ++ option_to_list result }
    ensures rest { All (λ p. p.of ≡ ready.now) passes.new.items }
    ensures of { IfSome result (λ p. p.of ≡ ready.now) }
    ensures none { IfNone result (passes.old.items ≡ []) }
{
    passes.pop()
}
