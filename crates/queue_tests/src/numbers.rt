//! Many pushes, and many pops.
ghost use Rattle.std.specs.Prelude.{◌≡◌};

use job_queue::{Pass, Popped, Ready, Seat};
use std::sync::Wait;

/// The numbers that are pushed are below this one.
pub(crate) const NUMBERS: usize = 1000;

/// How often each number was popped.
pub(crate) type Counts = [u32; NUMBERS];

/// Counts a number that was popped.
pub(crate) fn count(counts: &mut Counts, number: u32) {
    let place = number as usize;
    if place < NUMBERS {
        counts[place] = counts[place].saturating_add(1);
    }
}

/// Pushes the numbers from the first to below the second, as a session. Returns whether all were
/// pushed.
pub(crate) fn push_numbers<R: Wait>(
    rt: &R,
    ready: &Ready,
    pass: &mut Pass,
    numbers: (u32, u32),
) -> bool
    requires { pass.old.of ≡ ready.now }
    ensures { pass.new.of ≡ pass.old.of }
{
    let mut are_pushed = true;
    for number in numbers.0..numbers.1 {
        are_pushed &= ready.push(rt, pass, number).is_ok();
    }
    are_pushed
}

/// Pushes the numbers from the first to below the second, as a worker. Returns whether all were
/// pushed.
pub(crate) fn push_own_numbers<R: Wait>(
    rt: &R,
    ready: &Ready,
    seat: &mut Seat,
    numbers: (u32, u32),
) -> bool
    requires { seat.old.of ≡ ready.now }
    ensures { seat.new.of ≡ seat.old.of }
{
    let mut are_pushed = true;
    for number in numbers.0..numbers.1 {
        are_pushed &= ready.push_own(rt, seat, number).is_ok();
    }
    are_pushed
}

/// Returns whether the numbers from the first to below the second are popped in order.
pub(crate) fn gives<R: Wait>(rt: &R, ready: &Ready, seat: &mut Seat, numbers: (u32, u32)) -> bool
    requires { seat.old.of ≡ ready.now }
    ensures { seat.new.of ≡ seat.old.of }
{
    let mut are_popped = true;
    for number in numbers.0..numbers.1 {
        are_popped &= ready.pop(rt, seat) == Popped::Number(number);
    }
    are_popped
}

/// Pops `pops` numbers, and counts them.
pub(crate) fn pop_numbers<R: Wait>(
    rt: &R,
    ready: &Ready,
    seat: &mut Seat,
    pops: u32,
    counts: &mut Counts,
)
    requires { seat.old.of ≡ ready.now }
    ensures { seat.new.of ≡ seat.old.of }
{
    for _ in 0..pops {
        if let Popped::Number(number) = ready.pop(rt, seat) {
            count(counts, number);
        }
    }
}
