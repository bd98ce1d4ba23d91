//! A backlog up to its bounds.
ghost use Rattle.std.specs.Prelude.{◌≡◌};

use backlog::{Backlog, Turn, Weighs};
use std::alloc::Global;

/// What is put: a number, and what it weighs.
#[derive(Drop)]
struct Parcel {
    number: u32,
    weight: u64,
}

impl Weighs for Parcel {
    ghost weight = { λ parcel. parcel.weight };

    fn weight(&self) -> u64 {
        self.weight
    }
}

/// Puts that many items of that weight, numbered from 0.
fn put_many(backlog: &mut Backlog<Parcel>, count: u32, weight: u64) {
    for number in 0..count {
        backlog.put(Parcel { number, weight });
    }
}

/// Takes up to 10,000 items. Returns how many came out as themselves, in order and before all that
/// were lost, and how many were lost.
fn take_all(backlog: &mut Backlog<Parcel>) -> (u32, u32) {
    let mut came_out: u32 = 0;
    let mut lost: u32 = 0;
    for _ in 0..10_000 {
        match backlog.take() {
            Turn::Item(parcel) => {
                if parcel.number == came_out && lost == 0 {
                    came_out = came_out.saturating_add(1);
                }
            }
            Turn::Lost => lost = lost.saturating_add(1),
            Turn::Nothing => {}
        }
    }
    (came_out, lost)
}

/// Puts that many items of that weight, and takes them. Returns how many come out, and how many are
/// lost.
fn counts_of(alloc: Global, count: u32, weight: u64) -> (u32, u32) {
    let mut backlog = Backlog::new(alloc);
    put_many(&mut backlog, count, weight);
    let counts = take_all(&mut backlog);
    drop(backlog);
    counts
}

/// Returns whether an item that is put after a lost one is lost, and one that is put after both
/// were taken is not.
fn has_room_again(alloc: Global) -> bool {
    let mut backlog = Backlog::new(alloc);
    put_many(&mut backlog, 2, 1_500_000);
    put_many(&mut backlog, 1, 0);
    let first = take_all(&mut backlog);
    put_many(&mut backlog, 1, 1_500_000);
    let second = take_all(&mut backlog);
    drop(backlog);
    first == (1, 2) && second == (1, 0)
}

#[test]
fn a_backlog_takes_4096_items(rt: HostRuntime) {
    assert!(rt;
        counts_of(rt.alloc(), 4_096, 0) == (4_096, 0)
            && counts_of(rt.alloc(), 4_100, 1) == (4_096, 4)
    );
}

#[test]
fn a_backlog_takes_two_mib(rt: HostRuntime) {
    assert!(rt;
        counts_of(rt.alloc(), 2, 1_048_576) == (2, 0)
            && counts_of(rt.alloc(), 3, 1_048_576) == (2, 1)
    );
    assert!(rt; counts_of(rt.alloc(), 1, 2_097_153) == (0, 1) && has_room_again(rt.alloc()));
}
