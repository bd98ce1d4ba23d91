//! A queue that is closed.
ghost use Rattle.std.specs.Prelude.{◌≡◌};

use crate::crew::Crew;
use crate::numbers::{gives, push_numbers, push_own_numbers};
use crate::showing::{Shown, shows};
use job_queue::{Popped, Ready, Seat};
use std::sync::Wait;

/// Returns whether numbers that were pushed before the queue was closed are popped afterwards, and
/// then numbers that were pushed later.
pub(crate) fn is_drained<R: Wait>(rt: &R, crew: &mut Crew) -> bool {
    let are_pushed = push_numbers(rt, &crew.ready, &mut crew.pass, (0, 5));
    crew.ready.close();
    let early = drains(rt, &crew.ready, &mut crew.first, 5);
    let later = push_numbers(rt, &crew.ready, &mut crew.pass, (1, 2))
        & push_own_numbers(rt, &crew.ready, &mut crew.first, (0, 1));
    let late = drains(rt, &crew.ready, &mut crew.first, 2);
    are_pushed & early & later & late
}

/// Returns whether the numbers below `end` are popped in order, and then that the queue is closed.
fn drains<R: Wait>(rt: &R, ready: &Ready, seat: &mut Seat, end: u32) -> bool
    requires { seat.old.of ≡ ready.now }
    ensures { seat.new.of ≡ seat.old.of }
{
    gives(rt, ready, seat, (0, end)) && ready.pop(rt, seat) == Popped::Closed
}

/// Returns whether the injector and a deque each take many numbers, and return them in order: first
/// the worker's own, and then the session's.
pub(crate) fn is_roomy<R: Wait>(rt: &R, crew: &mut Crew) -> bool {
    let are_pushed = push_numbers(rt, &crew.ready, &mut crew.pass, (0, 1000))
        & push_own_numbers(rt, &crew.ready, &mut crew.first, (0, 1000));
    crew.ready.close();
    let are_popped = gives(rt, &crew.ready, &mut crew.first, (0, 1000))
        & drains(rt, &crew.ready, &mut crew.first, 1000);
    are_pushed & are_popped
}

/// Returns whether one worker serves seven numbers if it begins when the queue is closed with 2 and
/// 3, and pushes the number below after each except 0.
pub(crate) fn serves_seven<R: Wait>(rt: &R, crew: &mut Crew) -> bool {
    let are_pushed = push_numbers(rt, &crew.ready, &mut crew.pass, (2, 4));
    crew.ready.close();
    serve(rt, &crew.ready, &mut crew.first) == 7 && are_pushed
}

/// Serves the queue until it is closed and empty: each number except 0 is followed by the number
/// below it. Returns how many were served.
fn serve<R: Wait>(rt: &R, ready: &Ready, seat: &mut Seat) -> u32
    requires { seat.old.of ≡ ready.now }
    ensures { seat.new.of ≡ seat.old.of }
{
    let mut served: u32 = 0;
    for _ in rt.forever() {
        match ready.pop(rt, seat) {
            Popped::Number(number) => follow(rt, ready, seat, number),
            Popped::Closed => return served,
        }
        served = served.saturating_add(1);
    }
    unreachable!()
}

/// Pushes the number below that one, if there is one.
fn follow<R: Wait>(rt: &R, ready: &Ready, seat: &mut Seat, number: u32)
    requires { seat.old.of ≡ ready.now }
    ensures { seat.new.of ≡ seat.old.of }
{
    push_own_numbers(rt, ready, seat, (number.saturating_sub(1), number));
}

#[test]
fn worker_drains_a_closed_queue(rt: HostRuntime) {
    assert!(rt; shows(&rt, Shown::Drained));
}

#[test]
fn many_numbers_are_taken(rt: HostRuntime) {
    assert!(rt; shows(&rt, Shown::Roomy));
}

#[test]
fn a_worker_serves_what_follows_after_the_end(rt: HostRuntime) {
    assert!(rt; shows(&rt, Shown::ServedAlone));
}
