//! The architecture and the circuit of a routed netlist.
ghost use Rattle.std.specs.Prelude.{◌≡◌, IfSome, Ok};
ghost use Rattle.desk_netlists.specs.Prelude.{IsArch, arch_of, circuit_of, IsCircuit};

use crate::routed_table::Routed;
use arch_file::{Arch, read_arch};
use blif::{Circuit, read_blif};
use std::alloc::Global;

/// An architecture, and a circuit for it.
#[derive(Drop)]
pub(crate) struct RoutedDesign {
    pub(crate) arch: Arch,
    pub(crate) circuit: Circuit,
    ghost arch_lawful: { IsArch arch },
    ghost circuit_lawful: { IsCircuit circuit },
}

impl RoutedDesign {
    /// Those of a routed netlist. `None` if memory runs out.
    pub(crate) fn read(alloc: Global, routed: Routed<'_>) -> Option<Self>
        ensures arch { IfSome result (λ design.
            arch_of routed.entry.arch.now 1 ≡ Ok design.arch) }
        ensures circuit { IfSome result (λ design.
            circuit_of routed.entry.netlist.now design.arch.lut_size ≡ Ok design.circuit) }
    {
        let Ok(arch) = read_arch(alloc, routed.arch, 1) else {
            return None;
        };
        match read_blif(alloc, routed.netlist, arch.lut_size) {
            Ok(circuit) => Some(RoutedDesign { arch, circuit }),
            Err(_) => {
                drop(arch);
                None
            }
        }
    }
}
