ghost use Rattle.std.specs.Prelude.{◌≡◌, IfOk};
ghost use Rattle.sessions.specs.Prelude.{IsDevice};
ghost use Rattle.sessions.specs.Fitting.{own_graph};

use service_core::Device;
use std::alloc::{AllocError, Global};
use strips::DeviceGraph;

/// The device's own graph, on which its jobs are stepped. To be made before the core, which takes
/// the device.
pub fn device_graph(alloc: Global, device: &Device) -> Result<DeviceGraph, AllocError>
    requires { IsDevice device.now }
    ensures { IfOk result (λ graph. graph ≡ own_graph device.now) }
{
    DeviceGraph::new(alloc, &device.arch, device.columns, device.rows)
}
