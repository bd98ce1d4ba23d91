ghost use Rattle.std.specs.Prelude.{◌≡◌};
ghost use Rattle.operator.specs.Prelude.{basis_in};

use job_state::AnyJob;
use std::marker::Model;
use strips::Window;

/// A job that the operator holds, with its window when it was taken. Its value is the job's.
pub(crate) struct HeldJob<'g> {
    pub(crate) job: AnyJob,
    pub(crate) window: Window<'g>,
}

impl<'g> Model for HeldJob<'g> {
    ghost use Rattle.std.specs.Prelude.{◌≡◌};
    ghost use Rattle.job_state.specs.Job.{JobState};
    ghost use Rattle.job_state.specs.JobValue.{basis_in};

    ghost Value = { JobState };

    ghost view = { λ h. h.job };

    ghost invariant = { λ h. h.window ≡ basis_in h.job.step.sources };
}

impl<'g> HeldJob<'g> {
    /// Holds that job with that window.
    pub(crate) fn new(job: AnyJob, window: Window<'g>) -> Self
        requires { window ≡ basis_in job.step.sources }
        ensures { result ≡ job }
    {
        HeldJob { job, window }
    }

    /// The job, without its step made.
    pub(crate) fn into_job(self) -> AnyJob
        ensures { result ≡ self.entry }
    {
        let HeldJob { job, window: _ } = self;
        job
    }
}
