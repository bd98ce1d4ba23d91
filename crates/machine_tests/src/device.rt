//! The device of the tests, a machine over it, and a service without workers.
ghost use Rattle.std.specs.Prelude.{◌≡◌, [], IfSome};
ghost use Rattle.arch_file.specs.Arch.{IsArch};
ghost use Rattle.live_input.specs.Serving.{is_ready};
ghost use Rattle.live_machine.specs.Parts.{IsReady};

use arch_file::{Arch, read_arch};
use fixtures::ARCHITECTURE;
use live_input::LiveLines;
use live_machine::Machine;
use service_core::{Device, NO_TEXT_LIMIT, Service};
use std::alloc::Global;
use strips::DeviceGraph;

/// The columns of the device, which has one row and two tracks.
const COLUMNS: u32 = 12;

/// The smallest architecture, with two tracks.
fn architecture(alloc: Global) -> Option<Arch>
    ensures { IfSome result (λ arch. IsArch arch) }
{
    match read_arch(alloc, ARCHITECTURE.as_bytes(), 2) {
        Ok(arch) => Some(arch),
        Err(_) => None,
    }
}

/// The graph of the device.
pub(crate) fn new_graph(alloc: Global) -> Option<DeviceGraph> {
    match architecture(alloc) {
        Some(arch) => {
            let graph = DeviceGraph::new(alloc, &arch, COLUMNS, 1);
            drop(arch);
            graph.ok()
        }
        None => None,
    }
}

fn new_core(alloc: Global) -> Option<Service>
    ensures { IfSome result (λ core. core.histories ≡ []) }
{
    match architecture(alloc) {
        Some(arch) => {
            let device = Device {
                arch,
                columns: COLUMNS,
                rows: 1,
                text_limit: NO_TEXT_LIMIT,
            };
            Service::new(alloc, device).ok()
        }
        None => None,
    }
}

/// A service without workers that has taken no line.
pub(crate) fn new_lines(alloc: Global, graph: &DeviceGraph) -> Option<LiveLines<'_>>
    ensures { IfSome result (λ lines. is_ready lines) }
{
    match new_core(alloc) {
        Some(core) => Some(LiveLines::new(alloc, graph, core)),
        None => None,
    }
}

/// A machine that has taken no line.
pub(crate) fn new_machine(alloc: Global, graph: &DeviceGraph) -> Option<Machine<'_>>
    ensures { IfSome result (λ machine. IsReady machine) }
{
    match new_lines(alloc, graph) {
        Some(lines) => Some(Machine::new(alloc, lines, 1)),
        None => None,
    }
}
