//! A worker's turns under the lock, each said of the core that it borrows. None of them leaves a
//! step to take whose number is nobody's, unless the number is given up.
ghost use Rattle.worker_pool.specs.Turns.{PutsStep, Returns, Takes};

use crate::lack::{Served, is_last_try};
use job_state::{AnyJob, Back, Done};
use shared_core::{Begun, Core, Share};
use std::sync::ledger::Ledger;

/// A step that was taken, and the offset of its strip.
pub(crate) struct Taken {
    pub(crate) job: AnyJob,
    pub(crate) offset: Option<u32>,
}

/// Unmarks a number that was popped, and takes the next step of its tenancy's job. None if there is
/// no step to take.
pub(crate) fn take<C: Begun, P: Ledger>(core: &mut Core<C, P>, slot: u32) -> Option<Taken>
    ensures { Takes core.old slot result core.new }
{
    let id = core.unmark_number(slot)?;
    let job = core.take(id)?;
    let offset = core.offset(id);
    Some(Taken { job, offset })
}

/// Puts a step, and marks the number of the tenancy's next one. If memory runs out the step is
/// given back, to be put later.
pub(crate) fn put<C: Begun, P: Ledger>(
    core: &mut Core<C, P>,
    share: &mut Share<P>,
    done: Done,
    lacks: u32,
) -> Served
    ensures { PutsStep core.old share.old done lacks result core.new share.new }
{
    let id = done.id();
    match core.share_put(share, done) {
        Ok(_) => Served::Made(core.mark_ready(id)),
        Err((done, _)) => give_back(core, done.into_back(), lacks),
    }
}

/// Gives back a job whose step ran out of memory, and marks its number, unless it is given up.
pub(crate) fn give_back<C: Begun, P: Ledger>(
    core: &mut Core<C, P>,
    back: Back,
    lacks: u32,
) -> Served
    ensures { Returns core.old back lacks result core.new }
{
    let id = back.id();
    core.give_back(back);
    let again = if is_last_try(lacks) {
        None
    } else {
        core.mark_ready(id)
    };
    Served::NoMemory(again)
}
