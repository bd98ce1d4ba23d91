//! A worker on its thread.
use crate::crew::Crew;
use crate::letters::{LackingJob, MadeStep, Order, StepLetter, StepOrder};
use service_core::window_for;
use std::sync::Wait;
use std::thread;
use std::time::{Clock, Duration};
use strips::DeviceGraph;

/// Makes steps until the service is over.
pub(crate) fn run_worker<R: Wait + Clock>(rt: &R, crew: &Crew, graph: &DeviceGraph) {
    for _ in rt.forever() {
        let Some(order) = crew.orders.take(rt) else {
            return;
        };
        let letter = carry_out(rt, graph, order);
        put_letter(rt, crew, letter);
    }
    unreachable!()
}

/// Makes a step, or pauses.
fn carry_out<R: Clock>(rt: &R, graph: &DeviceGraph, order: Order) -> StepLetter {
    match order {
        Order::Make(order) => make_step(graph, order),
        Order::Pause(id, tries) => {
            pause(rt, tries);
            StepLetter::Paused(id)
        }
    }
}

/// Makes a step through the window at the offset of its strip. A job that has no such window is
/// given back: it would be no job of this device.
fn make_step(graph: &DeviceGraph, order: StepOrder) -> StepLetter {
    let (job, offset) = order.into_parts();
    let window = match offset {
        Some(offset) => window_for(&job, graph, offset),
        None => None,
    };
    let Some(window) = window else {
        return StepLetter::NoMemory(LackingJob::new(job.into_back()));
    };
    match job.step(&window) {
        Ok(done) => StepLetter::Made(MadeStep::new(done)),
        Err(back) => StepLetter::NoMemory(LackingJob::new(back)),
    }
}

/// Puts a letter. If memory runs out it is put again after a pause, until there is some.
fn put_letter<R: Wait + Clock>(rt: &R, crew: &Crew, letter: StepLetter) {
    let mut letter = letter;
    let mut tries = 0;
    for _ in rt.forever() {
        match crew.mailbox.put(rt, letter) {
            Ok(()) => return,
            Err(back) => letter = back,
        }
        pause(rt, tries);
        tries = tries.saturating_add(1);
    }
    unreachable!()
}

/// Pauses after memory ran out that many times in a row.
fn pause<R: Clock>(rt: &R, tries: u32) {
    thread::sleep(rt, Duration::from_millis(millis(tries)));
}

/// The length of that pause in milliseconds: 1, doubled each time, up to 64.
fn millis(tries: u32) -> u64 {
    match tries {
        0 | 1 => 1,
        2 => 2,
        3 => 4,
        4 => 8,
        5 => 16,
        6 => 32,
        _ => 64,
    }
}
