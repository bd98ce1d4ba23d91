//! A job that is out of its slot: before its step, after it, and without it.
ghost use Rattle.std.specs.Prelude.{◌≡◌, ◌↔◌, ◌≤◌, IsTrue, Ok, true};
ghost use Rattle.job_state.specs.Prelude.{MAX_NETS};
ghost use Rattle.job_state.specs.Job.{Steps, next_step};
ghost use Rattle.job_state.specs.declared.work.Work.{Work};
ghost use Rattle.job_state.specs.JobValue.{basis_in, is_last, job_value, step_count};
ghost use Rattle.job_state.specs.Progress.{IsProgress};

use crate::parked::Parked;
use crate::progress::Progress;
use crate::sources::Sources;
use crate::step::JobStep;
use crate::work::Work;
use rr_graph::StripGraph;
use std::marker::Model;

/// A job with a step to make. It must be spent. Its value is the step, and whether the step was
/// made already, by a [`Done`] that couldn't be put.
pub struct AnyJob {
    pub(crate) step: JobStep,
    pub(crate) work: Box<Work>,
    pub(crate) made: bool,
}

impl Model for AnyJob {
    ghost use Rattle.job_state.specs.Job.{JobState};
    ghost use Rattle.job_state.specs.Held.{IsJob};

    ghost Value = { JobState };

    ghost view = { λ j. record { step = j.step; made = j.made } };

    ghost invariant = { λ j. IsJob j.step j.work.value j.made };
}

/// A step that was made. It must be spent. Its value is the step.
pub struct Done {
    step: JobStep,
    work: Box<Work>,
}

impl Model for Done {
    ghost use Rattle.job_state.specs.declared.step.JobStep.{JobStep};
    ghost use Rattle.job_state.specs.Held.{IsDone};

    ghost Value = { JobStep };

    ghost view = { λ d. d.step };

    ghost invariant = { λ d. IsDone d.step d.work.value };
}

/// A job whose step wasn't made, or couldn't be put. It must be spent. Its value is the job's.
pub struct Back {
    job: AnyJob,
}

impl Model for Back {
    ghost use Rattle.job_state.specs.Job.{JobState};

    ghost Value = { JobState };

    ghost view = { λ b. b.job };
}

impl AnyJob {
    /// The id of the job's tenancy.
    pub fn id(&self) -> u32
        ensures { result ≡ self.now.step.id }
    {
        self.step.id
    }

    /// The tenancy's generation when the job began.
    pub fn generation(&self) -> u32
        ensures { result ≡ self.now.step.generation }
    {
        self.step.generation
    }

    /// The number of its step within the job, from 1.
    pub fn number(&self) -> u32
        ensures { result ≡ self.now.step.number }
    {
        self.step.number
    }

    /// What it is computed from.
    pub fn sources(&self) -> &Sources
        ensures { result.now ≡ self.now.step.sources }
    {
        &self.step.sources
    }

    /// Returns whether the graph is that of a strip of the job's size, with its architecture. Takes
    /// no memory.
    pub fn fits<G: StripGraph>(&self, graph: &G) -> bool
        ensures { IsTrue result ↔ (G.basis graph.now ≡ basis_in self.now.step.sources) }
    {
        let sources = &self.step.sources;
        sources.strip == graph.strip() && sources.arch.arch().same(graph.arch())
    }

    /// Makes the step; a routing's step works on its strip's graph. If memory runs out, the job
    /// comes back as it was. A placing's step takes no memory, and a step that was made already is
    /// returned at once.
    pub fn step<G: StripGraph>(self, graph: &G) -> Result<Done, Back>
        requires { G.basis graph.now ≡ basis_in self.step.sources }
        ensures { Steps self result }
    {
        let AnyJob {
            step,
            mut work,
            made,
        } = self;
        if made {
            return Ok(Done { step, work });
        }
        let before = Box::replace(&mut work, Work::GaveUp);
        match before.next(graph) {
            Ok(after) => {
                drop(Box::replace(&mut work, after));
                Ok(Done { step, work })
            }
            Err(left) => {
                drop(Box::replace(&mut work, left));
                let job = AnyJob { step, work, made };
                Err(Back { job })
            }
        }
    }

    /// Gives the job up without making its step. Takes no memory.
    pub fn into_back(self) -> Back
        ensures { result ≡ self }
    {
        Back { job: self }
    }
}

impl Done {
    /// The id of the job's tenancy.
    pub fn id(&self) -> u32
        ensures { result ≡ self.now.id }
    {
        self.step.id
    }

    /// The tenancy's generation when the job began.
    pub fn generation(&self) -> u32
        ensures { result ≡ self.now.generation }
    {
        self.step.generation
    }

    /// The number of the step within the job, from 1.
    pub fn number(&self) -> u32
        ensures { result ≡ self.now.number }
    {
        self.step.number
    }

    /// What the job is computed from.
    pub fn sources(&self) -> &Sources
        ensures { result.now ≡ self.now.sources }
    {
        &self.step.sources
    }

    /// Returns whether the job is over with this step.
    pub fn is_last(&self) -> bool
        ensures { result ≡ is_last self.now.sources self.now.number }
    {
        self.work.is_whole()
    }

    /// Returns the job's progress after this step; a routing's overuse is that of its strip's
    /// graph. Takes no memory.
    pub fn progress<G: StripGraph>(&self, graph: &G) -> Progress
        requires { G.basis graph.now ≡ basis_in self.now.sources }
        ensures made { (work : Work) × (job_value self.now.sources self.now.number ≡ Ok work)
            × IsProgress work result }
        ensures few { self.now.number ≤ MAX_NETS }
        ensures last { is_last self.now.sources self.now.number ≡ true →
            self.now.number ≡ step_count self.now.sources }
    {
        self.work.progress(graph)
    }

    /// Returns the job with its step made, for a step that couldn't be put: its next call of
    /// [`AnyJob::step`] returns at once. Takes no memory.
    pub fn into_back(self) -> Back
        ensures { result ≡ record { step = self; made = true } }
    {
        let Done { step, work } = self;
        let job = AnyJob {
            step,
            work,
            made: true,
        };
        Back { job }
    }

    /// The job as a slot keeps it, before its next step or finished. Takes no memory.
    pub fn park(self) -> Parked
        ensures { result ≡ next_step self }
    {
        let Done { step, work } = self;
        let JobStep {
            id,
            generation,
            number,
            sources,
        } = step;
        let step = JobStep {
            id,
            generation,
            number: number + 1,
            sources,
        };
        Parked {
            step,
            work,
            made: false,
        }
    }
}

impl Back {
    /// The id of the job's tenancy.
    pub fn id(&self) -> u32
        ensures { result ≡ self.now.step.id }
    {
        self.job.id()
    }

    /// The tenancy's generation when the job began.
    pub fn generation(&self) -> u32
        ensures { result ≡ self.now.step.generation }
    {
        self.job.generation()
    }

    /// The number of its step within the job, from 1.
    pub fn number(&self) -> u32
        ensures { result ≡ self.now.step.number }
    {
        self.job.number()
    }

    /// What it is computed from.
    pub fn sources(&self) -> &Sources
        ensures { result.now ≡ self.now.step.sources }
    {
        self.job.sources()
    }

    /// The job as a slot keeps it. Takes no memory.
    pub fn park(self) -> Parked
        ensures { result ≡ self }
    {
        let Back { job } = self;
        let AnyJob { step, work, made } = job;
        Parked { step, work, made }
    }
}
