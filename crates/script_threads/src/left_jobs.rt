//! Jobs that are left after the threads have ended.
ghost use Rattle.std.specs.Prelude.{◌≡◌, length};
ghost use Rattle.script_threads.specs.Left.{MakesSteps, MakesStepsOf};

use service_core::Service;
use sessions::{run_steps, wait_ends};
use strips::DeviceGraph;

/// Makes the steps of each tenancy's job, if one is left, until it has ended. A job for which
/// memory runs out is given back, and the others go on.
pub(crate) fn end_jobs(graph: &DeviceGraph, core: &mut Service)
    ensures made { MakesSteps graph.now core.old core.new }
    ensures even { length core.new.histories ≡ length core.old.histories }
{
    let admissions = core.admissions();
    for number in 0..admissions {
        end_job(graph, core, number + 1);
    }
}

/// Makes the steps of that tenancy's job, if one is left.
fn end_job(graph: &DeviceGraph, core: &mut Service, id: u32)
    ensures { MakesStepsOf graph.now core.old id core.new }
{
    wait_ends();
    run_steps(core, graph, id);
}
