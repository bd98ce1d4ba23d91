//! The former queue: one line of 64 places, for all sessions and workers, first in, first out.
ghost use Rattle.std.specs.Prelude.{◌≤◌};

use crate::crew::Crew;
use crate::numbers::{Counts, NUMBERS, count, pop_numbers, push_numbers, push_own_numbers};
use crate::showing::{Shown, shows};
use crossbeam_queue::ArrayQueue;
use std::alloc::{AllocGlobal, Global};
use std::sync::Wait;

/// The number of places of the former queue.
const PLACES: usize = 64;

/// Returns whether the former queue returns the older number first.
fn gives_oldest<R: Wait>(rt: &R, queue: &ArrayQueue<u32>) -> bool {
    queue.push(rt, 1).is_ok()
        && queue.push(rt, 2).is_ok()
        && queue.pop(rt) == Some(1)
        && queue.pop(rt) == Some(2)
}

/// Rounds of pushes and pops: in each a session and two workers push twenty numbers each, some of
/// them twice or three times, and three workers pop a third each.
const ROUNDS: u32 = 50;

/// A round of pushes to the ready queue, and of pops, which are counted.
fn push_and_pop<R: Wait>(rt: &R, crew: &mut Crew, from: u32, counts: &mut Counts)
    requires { from ≤ 63 }
{
    push_numbers(rt, &crew.ready, &mut crew.pass, (from, from + 20));
    push_own_numbers(rt, &crew.ready, &mut crew.first, (from + 10, from + 30));
    push_own_numbers(rt, &crew.ready, &mut crew.second, (from + 15, from + 35));
    pop_numbers(rt, &crew.ready, &mut crew.third, 20, counts);
    pop_numbers(rt, &crew.ready, &mut crew.first, 20, counts);
    pop_numbers(rt, &crew.ready, &mut crew.second, 20, counts);
}

/// Counts how often each number is popped from the ready queue.
fn pop_ready<R: Wait>(rt: &R, crew: &mut Crew, counts: &mut Counts) {
    for round in 0..ROUNDS {
        push_and_pop(rt, crew, round % 10 * 7, counts);
    }
}

/// Counts how often each number is popped from the former queue, by equal pushes and pops.
fn pop_first<R: Wait>(rt: &R, queue: &ArrayQueue<u32>, counts: &mut Counts) {
    for round in 0..ROUNDS {
        let from = round % 10 * 7;
        push_each(rt, queue, (from, from + 20));
        push_each(rt, queue, (from + 10, from + 30));
        push_each(rt, queue, (from + 15, from + 35));
        pop_each(rt, queue, 60, counts);
    }
}

/// Pushes the numbers from the first to below the second, if there is a place.
fn push_each<R: Wait>(rt: &R, queue: &ArrayQueue<u32>, numbers: (u32, u32)) {
    for number in numbers.0..numbers.1 {
        let _is_pushed = queue.push(rt, number).is_ok();
    }
}

/// Pops `pops` numbers, and counts them.
fn pop_each<R: Wait>(rt: &R, queue: &ArrayQueue<u32>, pops: u32, counts: &mut Counts) {
    for _ in 0..pops {
        if let Some(number) = queue.pop(rt) {
            count(counts, number);
        }
    }
}

/// The former queue, if memory suffices.
fn first_queue(alloc: Global) -> Option<ArrayQueue<u32>> {
    ArrayQueue::new(alloc, PLACES).ok()
}

/// Returns whether each number is popped as often as this from a new former queue.
fn is_same_there<R: Wait>(rt: &R, alloc: Global, counts: &Counts) -> bool {
    match first_queue(alloc) {
        Some(queue) => {
            let mut others = [0; NUMBERS];
            pop_first(rt, &queue, &mut others);
            drop(queue);
            counts.as_slice() == others.as_slice()
        }
        None => false,
    }
}

/// The number of pops that were counted.
fn sum_of(counts: &Counts) -> u32 {
    let mut sum: u32 = 0;
    for times in counts.iter() {
        sum = sum.saturating_add(*times);
    }
    sum
}

/// Returns whether both queues return each number equally often, and all that was pushed.
pub(crate) fn pops_as_often<R: Wait + AllocGlobal>(rt: &R, crew: &mut Crew) -> bool {
    let mut counts = [0; NUMBERS];
    pop_ready(rt, crew, &mut counts);
    sum_of(&counts) == 60 * ROUNDS && is_same_there(rt, rt.alloc(), &counts)
}

/// Returns whether a new former queue returns the older number first.
fn is_oldest_first<R: Wait>(rt: &R, alloc: Global) -> bool {
    let Some(queue) = first_queue(alloc) else {
        return false;
    };
    gives_oldest(rt, &queue)
}

#[test]
fn the_first_queue_gives_the_oldest(rt: HostRuntime) {
    assert!(rt; is_oldest_first(&rt, rt.alloc()));
}

#[test]
fn both_queues_give_each_number_as_often(rt: HostRuntime) {
    assert!(rt; shows(&rt, Shown::AsOften));
}
