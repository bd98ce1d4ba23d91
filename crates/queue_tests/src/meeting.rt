//! Seats on threads of their own.
ghost use Rattle.std.specs.Prelude.{◌≡◌};

use crate::crew::Crew;
use crate::numbers::{Counts, NUMBERS, pop_numbers, push_own_numbers};
use job_queue::{Popped, Ready, Seat};
use std::alloc::AllocGlobal;
use std::sync::Wait;
use std::thread;
use std::thread::Threads;

/// Pushes the numbers from the first to below the second, and then pops the given number of times.
/// Returns how often each was popped.
fn push_and_pop<R: Wait>(
    rt: &R,
    ready: &Ready,
    seat: Seat,
    numbers: (u32, u32),
    pops: u32,
) -> Counts
    requires { seat.of ≡ ready.now }
{
    let mut seat = seat;
    let mut counts = [0; NUMBERS];
    push_own_numbers(rt, ready, &mut seat, numbers);
    pop_numbers(rt, ready, &mut seat, pops, &mut counts);
    drop(seat);
    counts
}

/// Three seats push 1,000 numbers, and pop as often: the third pushes none, and must steal.
fn by_three<R: Threads + Wait + Sync>(
    rt: &R,
    ready: &Ready,
    first: Seat,
    second: Seat,
    third: Seat,
) -> (Counts, (Counts, Counts))
    requires first { first.of ≡ ready.now }
    requires second { second.of ≡ ready.now }
    requires third { third.of ≡ ready.now }
{
    thread::join(
        rt,
        move || -> Counts
            requires { first.of ≡ ready.now }
        { push_and_pop(rt, ready, first, (0, 700), 334) },
        move || -> (Counts, Counts)
            requires second { second.of ≡ ready.now }
            requires third { third.of ≡ ready.now }
        { by_two(rt, ready, second, third) },
    )
}

/// The second and the third of them.
fn by_two<R: Threads + Wait + Sync>(
    rt: &R,
    ready: &Ready,
    second: Seat,
    third: Seat,
) -> (Counts, Counts)
    requires second { second.of ≡ ready.now }
    requires third { third.of ≡ ready.now }
{
    thread::join(
        rt,
        move || -> Counts
            requires { second.of ≡ ready.now }
        { push_and_pop(rt, ready, second, (700, 1000), 333) },
        move || -> Counts
            requires { third.of ≡ ready.now }
        { push_and_pop(rt, ready, third, (0, 0), 333) },
    )
}

/// Returns whether each of the 1,000 numbers was popped once.
fn is_each_popped_once<R: Threads + Wait + Sync>(
    rt: &R,
    ready: &Ready,
    first: Seat,
    second: Seat,
    third: Seat,
) -> bool
    requires first { first.of ≡ ready.now }
    requires second { second.of ≡ ready.now }
    requires third { third.of ≡ ready.now }
{
    let (one, (two, three)) = by_three(rt, ready, first, second, third);
    is_each_once(&one, &two, &three)
}

/// Returns whether each number was counted once.
fn is_each_once(one: &Counts, two: &Counts, three: &Counts) -> bool {
    let mut once = true;
    for number in 0..NUMBERS {
        let times = one[number]
            .saturating_add(two[number])
            .saturating_add(three[number]);
        once &= times == 1;
    }
    once
}

/// Does nothing for that many turns.
fn idle(turns: u32) {
    for _ in 0..turns {
        thread::yield_now();
    }
}

/// Returns whether two pops that begin while the queue is empty give a number that is pushed later,
/// and that the queue is closed, which is later still.
fn waits<R: Threads + Wait + Sync>(rt: &R, ready: &Ready, first: Seat, second: Seat) -> bool
    requires first { first.of ≡ ready.now }
    requires second { second.of ≡ ready.now }
{
    let (are_popped, ()) = thread::join(
        rt,
        move || -> bool
            requires { first.of ≡ ready.now }
        { pop_twice(rt, ready, first) },
        move || -> ()
            requires { second.of ≡ ready.now }
        { push_and_close(rt, ready, second) },
    );
    are_popped
}

/// Pops twice. Returns whether a number comes first, and then the end.
fn pop_twice<R: Wait>(rt: &R, ready: &Ready, seat: Seat) -> bool
    requires { seat.of ≡ ready.now }
{
    let mut seat = seat;
    let is_first = ready.pop(rt, &mut seat) == Popped::Number(7);
    let is_closed = ready.pop(rt, &mut seat) == Popped::Closed;
    drop(seat);
    is_first & is_closed
}

/// Pushes a number later, and closes the queue later still.
fn push_and_close<R: Wait>(rt: &R, ready: &Ready, seat: Seat)
    requires { seat.of ≡ ready.now }
{
    let mut seat = seat;
    idle(1000);
    push_own_numbers(rt, ready, &mut seat, (7, 8));
    idle(1000);
    ready.close();
    drop(seat);
}

/// What seats on threads of their own are to show.
#[derive(Clone, Copy)]
enum Met {
    /// They pop each number once.
    EachOnce,
    /// A pop waits for a number that another worker pushes, and the next one for the closing.
    Waiting,
}

/// Returns whether the seats of a crew show that.
fn is_met<R: Threads + Wait + Sync>(rt: &R, crew: Crew, met: Met) -> bool {
    let Crew {
        ready,
        first,
        second,
        third,
        pass,
    } = crew;
    drop(pass);
    let is_so = match met {
        Met::EachOnce => is_each_popped_once(rt, &ready, first, second, third),
        Met::Waiting => {
            drop(third);
            waits(rt, &ready, first, second)
        }
    };
    drop(ready);
    is_so
}

/// Returns whether the seats of a new crew show that.
fn meets<R: Threads + Wait + AllocGlobal + Sync>(rt: &R, met: Met) -> bool {
    match Crew::new(rt.alloc()) {
        Some(crew) => is_met(rt, crew, met),
        None => false,
    }
}

#[test]
fn three_seats_pop_each_number_once(rt: HostRuntime) {
    assert!(rt; meets(&rt, Met::EachOnce));
}

#[test]
fn a_pop_waits_for_a_number_or_the_end(rt: HostRuntime) {
    assert!(rt; meets(&rt, Met::Waiting));
}
