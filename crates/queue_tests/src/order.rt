//! Which number is popped first.
use crate::crew::Crew;
use crate::numbers::{gives, push_numbers, push_own_numbers};
use crate::showing::{Shown, shows};
use job_queue::Popped;
use std::sync::Wait;

/// Returns whether a worker's own number is popped before a session's that was pushed earlier.
pub(crate) fn serves_own_first<R: Wait>(rt: &R, crew: &mut Crew) -> bool {
    let are_pushed = push_numbers(rt, &crew.ready, &mut crew.pass, (1, 2))
        & push_own_numbers(rt, &crew.ready, &mut crew.first, (2, 3));
    let are_popped = gives(rt, &crew.ready, &mut crew.first, (2, 3))
        & gives(rt, &crew.ready, &mut crew.first, (1, 2));
    are_pushed & are_popped
}

/// Returns whether a worker without numbers takes a session's, and then those of the others by
/// rising index. They were pushed in falling order.
pub(crate) fn steals_in_rising_number<R: Wait>(rt: &R, crew: &mut Crew) -> bool {
    let are_pushed = push_own_numbers(rt, &crew.ready, &mut crew.third, (4, 6))
        & push_own_numbers(rt, &crew.ready, &mut crew.first, (2, 4))
        & push_numbers(rt, &crew.ready, &mut crew.pass, (1, 2));
    gives(rt, &crew.ready, &mut crew.second, (1, 6)) & are_pushed
}

/// Returns whether another worker takes the older of a worker's two numbers, and leaves the other
/// one to it.
pub(crate) fn leaves_the_younger<R: Wait>(rt: &R, crew: &mut Crew) -> bool {
    let are_pushed = push_own_numbers(rt, &crew.ready, &mut crew.second, (1, 3));
    let are_popped = gives(rt, &crew.ready, &mut crew.first, (1, 2))
        & gives(rt, &crew.ready, &mut crew.second, (2, 3));
    crew.ready.close();
    let is_closed = crew.ready.pop(rt, &mut crew.first) == Popped::Closed;
    are_pushed & are_popped & is_closed
}

#[test]
fn a_worker_serves_its_own_numbers_first(rt: HostRuntime) {
    assert!(rt; shows(&rt, Shown::OwnFirst));
}

#[test]
fn a_worker_steals_in_rising_number(rt: HostRuntime) {
    assert!(rt; shows(&rt, Shown::RisingNumber) && shows(&rt, Shown::YoungerLeft));
}
