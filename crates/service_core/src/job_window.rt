//! What a job's step sees of the device.
ghost use Rattle.std.specs.Prelude.{◌≡◌, ◌↔◌, IfSome, IsTrue, is_some, true};
ghost use Rattle.service_core.specs.Prelude.{basis_in, is_on_device};

use job_state::AnyJob;
use strips::{DeviceGraph, Window};

/// Returns the window for a job's step, with the strip at that offset; `None` if the device is not
/// of the job's architecture or doesn't have the strip there. Takes no memory.
pub fn window_for<'g>(job: &AnyJob, graph: &'g DeviceGraph, offset: u32) -> Option<Window<'g>>
    ensures fits { IfSome result (λ window. window ≡ basis_in job.now.step.sources) }
    ensures there { IsTrue (is_some result) ↔
        ((graph.now.arch ≡ job.now.step.sources.arch)
        × (is_on_device graph.now.strip job.now.step.sources.strip offset ≡ true)) }
{
    let window = Window::new(graph, offset, job.sources().strip)?;
    if job.fits(&window) {
        Some(window)
    } else {
        None
    }
}
