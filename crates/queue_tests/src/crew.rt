//! A queue with three seats and a pass.
ghost use Rattle.std.specs.Prelude.{◌≡◌, All, IfSome};

use job_queue::{Pass, Ready, Seat, a_pass, a_seat};
use std::alloc::Global;
use std::marker::Model;

/// An open queue, the seats of its three workers, by rising index, and the pass of its session.
#[derive(Drop)]
pub(crate) struct Crew {
    pub(crate) ready: Ready,
    pub(crate) first: Seat,
    pub(crate) second: Seat,
    pub(crate) third: Seat,
    pub(crate) pass: Pass,
}

impl Model for Crew {
    ghost use Rattle.std.specs.Prelude.{◌≡◌};
    ghost use Rattle.job_queue.specs.Seats.{ReadyId};

    ghost Value = { ReadyId };

    ghost view = { λ c. c.ready };

    ghost invariant = { λ c. (c.first.of ≡ c.ready) × (c.second.of ≡ c.ready)
        × (c.third.of ≡ c.ready) × (c.pass.of ≡ c.ready) };
}

impl Crew {
    /// A new queue with its seats and its pass, if memory suffices.
    pub(crate) fn new(alloc: Global) -> Option<Crew> {
        match Ready::new(alloc, 3, 1) {
            Ok((ready, seats, passes)) => crew_of(ready, seats, passes),
            Err(_) => None,
        }
    }
}

/// The queue with three of its seats and one of its passes.
fn crew_of(ready: Ready, seats: Vec<Seat>, passes: Vec<Pass>) -> Option<Crew>
    requires seats { All (λ s. s.of ≡ ready) seats.items }
    requires passes { All (λ p. p.of ≡ ready) passes.items }
{
    let mut seats = seats;
    let mut passes = passes;
    let third = a_seat(&mut seats, &ready);
    let second = a_seat(&mut seats, &ready);
    let first = a_seat(&mut seats, &ready);
    let pass = a_pass(&mut passes, &ready);
    drop(seats);
    drop(passes);
    match (first, second, third, pass) {
        (Some(first), Some(second), Some(third), Some(pass)) => Some(Crew {
            ready,
            first,
            second,
            third,
            pass,
        }),
        _ => {
            drop(ready);
            None
        }
    }
}
