ghost use Rattle.std.specs.Prelude.{◌≡◌, ◌≢◌, IfSome, IsSome, List};
ghost use Rattle.sessions.specs.Prelude.{basis_in, IsNextStep, IsOriginIn, Call, Run};
ghost use Rattle.sessions.specs.declared.steps.StepOutcome.TheVariants.{Unfit};
ghost use Rattle.sessions.specs.Fitting.{own_graph};
ghost use Rattle.sessions.specs.Steps.{MakesStep, StepsAndPuts, Waits};

use job_state::AnyJob;
use service_core::{PutReply, Service, window_for};
use strips::{DeviceGraph, Window};
use tenant_slot::{Origin, StepReply};

/// The outcome of making a step of a tenancy's job.
#[derive(Clone, Copy, PartialEq, Eq)]
pub enum StepOutcome {
    /// The step was put, and is an entry of the journal.
    Recorded(StepReply),
    /// The journal is full, and the job is spent.
    Full,
    /// The tenancy isn't live, and the job is spent.
    Gone,
    /// Memory ran out, and the job was given back.
    NoMemory,
    /// There was no job to take.
    Nothing,
    /// The job was given back: the graph isn't that of its device.
    Unfit,
}

/// Takes the next step of that tenancy's job, makes it on the device's graph, at the offset of its
/// strip, and puts it. A job that doesn't fit the graph is given back; each job fits the device's
/// own graph.
pub fn make_step(core: &mut Service, graph: &DeviceGraph, id: u32) -> StepOutcome
    ensures made { (calls : List Call) × MakesStep id calls result × Run core.old calls core.new }
    ensures own { graph.now ≡ own_graph core.old.device → result ≢ Unfit }
{
    match core.take(id) {
        Some(job) => match window_of(core, graph, &job) {
            Some(window) => step_and_put_from(core, job, &window, Origin::Running),
            None => give_back_unfit(core, job),
        },
        None => StepOutcome::Nothing,
    }
}

/// The window for a job's step, at the offset that the strip of its tenancy has now. None if the
/// tenancy isn't live or the graph doesn't fit. The device's own graph has one for each job that
/// its tenancy would take now.
pub fn window_of<'g>(core: &Service, graph: &'g DeviceGraph, job: &AnyJob) -> Option<Window<'g>>
    ensures fits { IfSome result (λ window. window ≡ basis_in job.now.step.sources) }
    ensures own { graph.now ≡ own_graph core.now.device → IsNextStep core.now job.now.step →
        IsSome result }
{
    match core.offset(job.id()) {
        Some(offset) => window_for(job, graph, offset),
        None => None,
    }
}

/// Gives a job back that doesn't fit the graph.
fn give_back_unfit(core: &mut Service, job: AnyJob) -> StepOutcome
    ensures { (calls : List Call) × StepsAndPuts job calls result × Run core.old calls core.new }
{
    core.give_back(job.into_back());
    StepOutcome::Unfit
}

/// Makes the step of a job through its window, and puts it. If memory runs out for the step or the
/// put, the job is given back.
pub fn step_and_put(core: &mut Service, job: AnyJob, window: &Window<'_>) -> StepOutcome
    requires { window.now ≡ basis_in job.step.sources }
    ensures put { (calls : List Call) × StepsAndPuts job calls result
        × Run core.old calls core.new }
    ensures fits { result ≢ Unfit }
{
    step_and_put_from(core, job, window, Origin::Unknown)
}

/// Makes the step of a job through its window, and puts it. `origin` says whether the step is known
/// to be the running job's next one. If memory runs out the job is given back.
fn step_and_put_from(
    core: &mut Service,
    job: AnyJob,
    window: &Window<'_>,
    origin: Origin,
) -> StepOutcome
    requires origin { IsOriginIn core.old job.step origin }
    requires window { window.now ≡ basis_in job.step.sources }
    ensures put { (calls : List Call) × StepsAndPuts job calls result
        × Run core.old calls core.new }
    ensures fits { result ≢ Unfit }
{
    match job.step(window) {
        Ok(done) => match core.put_from(done, origin) {
            Ok(PutReply::Recorded(reply)) => StepOutcome::Recorded(reply),
            Ok(PutReply::Full) => StepOutcome::Full,
            Ok(PutReply::Gone) => StepOutcome::Gone,
            Err((done, _)) => {
                core.give_back(done.into_back());
                StepOutcome::NoMemory
            }
        },
        Err(back) => {
            core.give_back(back);
            StepOutcome::NoMemory
        }
    }
}

/// Makes steps of that tenancy's job until there is no step to take or memory runs out. Returns the
/// outcome of the last. Each step that is recorded is an entry of the journal, so they end.
pub fn run_steps(core: &mut Service, graph: &DeviceGraph, id: u32) -> StepOutcome
    ensures waits { (calls : List Call) × Waits id calls result × Run core.old calls core.new }
    ensures own { graph.now ≡ own_graph core.old.device → result ≢ Unfit }
{
    'steps: loop {
        match make_step(core, graph, id) {
            StepOutcome::Recorded(_) => {}
            outcome => return outcome,
        }
    }
}
