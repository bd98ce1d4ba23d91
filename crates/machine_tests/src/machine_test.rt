//! A test of a machine that has taken no line.
ghost use Rattle.live_machine.specs.Parts.{IsReady};

use crate::device::{new_graph, new_machine};
use live_machine::Machine;
use std::alloc::Global;
use strips::DeviceGraph;

/// What holds of a machine that has taken no line.
pub(crate) trait MachineTest {
    /// Whether it holds of this machine over the graph.
    fn holds(&self, alloc: Global, machine: &mut Machine<'_>, graph: &DeviceGraph) -> bool
        requires ready { IsReady machine.old };
}

/// Whether the test holds of a machine over this graph, which is then closed.
fn holds_over<T: MachineTest>(alloc: Global, graph: &DeviceGraph, test: &T) -> bool {
    match new_machine(alloc, graph) {
        Some(mut machine) => {
            let holds = test.holds(alloc, &mut machine, graph);
            machine.close();
            holds
        }
        None => false,
    }
}

/// Whether the test holds of a new machine over the device of the tests.
pub(crate) fn holds_on_new_machine<T: MachineTest>(alloc: Global, test: &T) -> bool {
    match new_graph(alloc) {
        Some(graph) => holds_over(alloc, &graph, test),
        None => false,
    }
}
