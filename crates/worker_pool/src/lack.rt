//! What a worker does if memory runs out: it pauses and tries again, and gives the number up in the
//! end.
ghost use Rattle.std.specs.Prelude.{◌≡◌};
ghost use Rattle.worker_pool.specs.Lack.{is_last_try as is_last, one_more as one_more_than, pause_of};

use std::thread;
use std::time::{Clock, Duration};

/// The number of steps in a row that run out of memory before a number is given up.
const TRIES: u32 = 16;

/// The outcome of serving a number.
#[derive(Clone, Copy)]
pub(crate) enum Served {
    /// There was no step to make.
    Nothing,
    /// A step was put. If there is a next step, with the number, which is marked again.
    Made(Option<u32>),
    /// Memory ran out. If the step is to be tried again, with the number, which is marked again.
    NoMemory(Option<u32>),
}

/// A number that a worker serves next, and how many of its steps in a row ran out of memory.
#[derive(Clone, Copy)]
pub(crate) struct Kept {
    pub(crate) slot: u32,
    pub(crate) lacks: u32,
}

/// Whether the number of a step that ran out of memory is given up, after this number of such steps
/// in a row before it.
pub(crate) fn is_last_try(lacks: u32) -> bool
    ensures { result ≡ is_last lacks }
{
    lacks >= TRIES - 1
}

/// The count after one more step that ran out of memory, up to 16.
pub(crate) fn one_more(lacks: u32) -> u32
    ensures { result ≡ one_more_than lacks }
{
    if lacks < TRIES { lacks + 1 } else { TRIES }
}

/// Pauses after a step that ran out of memory, after this number of such steps in a row before it.
pub(crate) fn pause<R: Clock>(rt: &R, lacks: u32) {
    thread::sleep(rt, Duration::from_millis(millis(lacks)));
}

/// The length of that pause in milliseconds: 1, doubled with each step that ran out of memory, up
/// to 64.
fn millis(lacks: u32) -> u64
    ensures { result ≡ pause_of lacks }
{
    match lacks {
        0 => 1,
        1 => 2,
        2 => 4,
        3 => 8,
        4 => 16,
        5 => 32,
        _ => 64,
    }
}
