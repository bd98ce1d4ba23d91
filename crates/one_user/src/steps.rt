//! The steps of a job, one after another.
ghost use Rattle.std.specs.Prelude.{◌≡◌, IfOk, Some};
ghost use Rattle.one_user.specs.Prelude.{JobKind, kind_that_runs};
ghost use Rattle.one_user.specs.Steps.{CanFinish, CanStep, Finishes, MakesStep};

use crate::telling::tell_step;
use blif::MAX_NETS;
use job_state::Progress;
use line_text::Sink;
use std::alloc::AllocError;
use strips::Window;
use tenant_slot::{Origin, Slot, StepReply};

/// The largest number of steps of a job: a circuit has no more BLEs, a placing no more passes, and
/// a routing no more iterations.
const MAX_STEPS: u32 = MAX_NETS as u32;

/// A step that was made.
#[derive(Clone, Copy)]
pub(crate) struct StepMade {
    /// The step's number within the job, from 1.
    pub(crate) number: u32,
    pub(crate) progress: Progress,
    pub(crate) reply: StepReply,
}

/// Makes all steps of the running job, writes a line for each and returns the last. A line that
/// can't be written is skipped.
pub(crate) fn make_steps<W: Sink>(
    slot: &mut Slot,
    window: &Window<'_>,
    teller: &mut W,
) -> Result<StepMade, AllocError>
    requires { CanFinish slot.old window.now }
    ensures { IfOk result (λ made. (kind : JobKind) → kind_that_runs slot.old.state.name
        ≡ Some kind →
        Finishes kind slot.old made slot.new) }
{
    for _step in 0..MAX_STEPS + 1 {
        let made = make_step(slot, window)?;
        let _told = tell_step(teller, window, made);
        match made.reply {
            StepReply::Finished => return Ok(made),
            _ => {}
        }
    }
    unreachable!()
}

/// Makes the next step of the running job. If memory runs out, nothing changes.
fn make_step(slot: &mut Slot, window: &Window<'_>) -> Result<StepMade, AllocError>
    requires { CanStep slot.old window.now }
    ensures { IfOk result (λ made. (kind : JobKind) → kind_that_runs slot.old.state.name
        ≡ Some kind →
        MakesStep kind slot.old made slot.new) }
{
    let Some(job) = slot.take() else {
        unreachable!()
    };
    match job.step(window) {
        Ok(done) => {
            let number = done.number();
            let progress = done.progress(window);
            let (_, reply) = slot.put_from(done, Origin::Running);
            Ok(StepMade {
                number,
                progress,
                reply,
            })
        }
        Err(back) => {
            slot.give_back(back);
            Err(AllocError)
        }
    }
}
