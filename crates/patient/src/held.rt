//! A job that is stepped and put again if memory runs out.
use crate::again::TIMES;
use job_state::AnyJob;
use service_core::{PutReply, Service, window_for};
use sessions::step_word;
use strips::DeviceGraph;

/// A job that was taken, and its strip's offset.
pub(crate) struct Held {
    job: AnyJob,
    offset: u32,
}

/// Takes the next step of that tenancy's job, if there is one to take.
pub(crate) fn take(core: &mut Service, id: u32) -> Option<Held> {
    let offset = core.offset(id)?;
    let job = core.take(id)?;
    Some(Held { job, offset })
}

/// Makes the step and puts it, and returns the outcome, if memory sufficed in the end.
pub(crate) fn put(core: &mut Service, graph: &DeviceGraph, held: Held) -> Option<&'static [u8]> {
    let Held { mut job, offset } = held;
    for _ in 0..TIMES {
        let Some(window) = window_for(&job, graph, offset) else {
            break;
        };
        match job.step(&window) {
            Ok(done) => match core.put(done) {
                Ok(PutReply::Recorded(reply)) => return Some(step_word(reply)),
                Ok(PutReply::Full) => return Some(b"full"),
                Ok(PutReply::Gone) => return Some(b"gone"),
                Err((done, _)) => job = done.into_back().park().leave(),
            },
            Err(back) => job = back.park().leave(),
        }
    }
    core.give_back(job.into_back());
    None
}

/// Gives a job back, if there is one.
pub(crate) fn give_back(core: &mut Service, held: Option<Held>) {
    if let Some(Held { job, offset: _ }) = held {
        core.give_back(job.into_back());
    }
}
