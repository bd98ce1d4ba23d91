//! What is shown of a queue that is made, lent and dropped here.
use crate::closing::{is_drained, is_roomy, serves_seven};
use crate::crew::Crew;
use crate::first_queue::pops_as_often;
use crate::order::{leaves_the_younger, serves_own_first, steals_in_rising_number};
use std::alloc::AllocGlobal;
use std::sync::Wait;

/// What a new queue is to show.
#[derive(Clone, Copy)]
pub(crate) enum Shown {
    Drained,
    Roomy,
    ServedAlone,
    OwnFirst,
    RisingNumber,
    YoungerLeft,
    AsOften,
}

/// Returns whether the queue shows that.
fn is_shown<R: Wait + AllocGlobal>(rt: &R, crew: &mut Crew, shown: Shown) -> bool {
    match shown {
        Shown::Drained => is_drained(rt, crew),
        Shown::Roomy => is_roomy(rt, crew),
        Shown::ServedAlone => serves_seven(rt, crew),
        Shown::OwnFirst => serves_own_first(rt, crew),
        Shown::RisingNumber => steals_in_rising_number(rt, crew),
        Shown::YoungerLeft => leaves_the_younger(rt, crew),
        Shown::AsOften => pops_as_often(rt, crew),
    }
}

/// Returns whether a new queue shows that.
pub(crate) fn shows<R: Wait + AllocGlobal>(rt: &R, shown: Shown) -> bool {
    let Some(mut crew) = Crew::new(rt.alloc()) else {
        return false;
    };
    is_shown(rt, &mut crew, shown)
}
