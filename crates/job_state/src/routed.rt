//! A routed circuit, and what it occupies of its strip.
ghost use Rattle.std.specs.Prelude.{◌≡◌, IfErr, IfOk};
ghost use Rattle.job_state.specs.RoutedCircuits.{AreThere, ListsAll, held_by};

use crate::held::list_resources;
use arch_file::SharedArch;
use grid::Strip;
use pathfinder::Routes;
use rr_graph::Resource;
use std::alloc::{AllocError, Global};
use std::marker::Model;

/// A routed circuit: the routes of its nets on its strip, and the pads of its blocks.
#[derive(Drop)]
pub(crate) struct Routed {
    pub(crate) alloc: Global,
    pub(crate) arch: SharedArch,
    pub(crate) strip: Strip,
    pub(crate) routes: Routes,
    pub(crate) pads: Vec<Resource>,
}

impl Model for Routed {
    ghost use Rattle.job_state.specs.RoutedCircuits.{AreThere, RoutedCircuit, held_by, routed_on};

    ghost Value = { RoutedCircuit };

    ghost view = { λ r. routed_on r.arch r.strip r.routes r.pads.items };

    ghost invariant = { λ r. AreThere (record { arch = r.arch; strip = r.strip })
        (held_by (routed_on r.arch r.strip r.routes r.pads.items)) };
}

/// A routed circuit with the list of what it occupies of its strip: the pins and wires of its
/// routes and the pads of its blocks, in node order, each once.
#[derive(Drop)]
pub(crate) struct Listed {
    routed: Routed,
    resources: Vec<Resource>,
}

impl Model for Listed {
    ghost use Rattle.job_state.specs.RoutedCircuits.{AreThere, ListsAll, RoutedCircuit, held_by};

    ghost Value = { RoutedCircuit };

    ghost view = { λ l. l.routed };

    ghost invariant = { λ l. ListsAll (held_by l.routed) l.resources.items
        × AreThere l.routed.basis l.resources.items };
}

impl Routed {
    /// Adds the list of what it occupies. If memory runs out, the circuit comes back.
    pub(crate) fn with_list(self) -> Result<Listed, Routed>
        ensures ok { IfOk result (λ listed. listed ≡ self) }
        ensures err { IfErr result (λ back. back ≡ self) }
    {
        match list_resources(self.alloc, &self.routes, self.pads.as_slice()) {
            Ok(resources) => Ok(Listed {
                routed: self,
                resources,
            }),
            Err(_) => Err(self),
        }
    }
}

impl Listed {
    pub(crate) fn routes(&self) -> &Routes
        ensures { result.now ≡ self.now.routes }
    {
        &self.routed.routes
    }

    /// What it occupies, in node order, each once.
    pub(crate) fn resources(&self) -> &[Resource]
        ensures lists { ListsAll (held_by self.now) result.now }
        ensures there { AreThere self.now.basis result.now }
    {
        self.resources.as_slice()
    }
}
