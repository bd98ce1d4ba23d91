//! Jobs that begin.
ghost use Rattle.std.specs.Prelude.{◌≡◌, Err, IfOk, MatchResult, Ok, Some, false};
ghost use Rattle.tenant_slot.specs.Prelude.{CanPack, CanPlace, is_last, packing_sources, placing_sources, routing_sources};
ghost use Rattle.tenant_slot.specs.Content.{IsMadeOf};
ghost use Rattle.tenant_slot.specs.Outcomes.{job_begun};

use crate::content::Netlist;
use crate::standing::Running;
use arch_file::SharedArch;
use grid::Strip;
use job_state::{Parked, Sources};
use std::alloc::{AllocError, Global};
use strip_place::Kept;

/// A job before it begins: the tenancy's id, the generation that begins with it, and its sources.
#[derive(Clone, Copy)]
pub(crate) struct Beginning<'a> {
    pub(crate) alloc: Global,
    pub(crate) id: u32,
    pub(crate) generation: u32,
    pub(crate) arch: &'a SharedArch,
    pub(crate) strip: Strip,
    pub(crate) netlist: &'a Netlist,
    pub(crate) kept: &'a Kept,
}

impl Beginning<'_> {
    /// Starts the packing of the netlist. Each BLE must fit into a cluster alone.
    pub(crate) fn packing(&self) -> Result<Running, AllocError>
        requires { CanPack (packing_sources self.now.arch.now self.now.strip
            self.now.netlist.now.text) self.now.netlist.now.circuit }
        ensures job { IfOk result (λ job.
            job ≡ job_begun self.now.id self.now.generation
            (packing_sources self.now.arch.now self.now.strip self.now.netlist.now.text)) }
        ensures going { IfOk result (λ job. is_last job.sources 0 ≡ false) }
    {
        let sources = Sources::packing(self.arch, self.strip, &self.netlist.text)?;
        let Ok(copy) = sources.clone() else {
            drop(sources);
            return Err(AllocError);
        };
        let circuit = &self.netlist.circuit;
        let first = Parked::pack(self.alloc, self.id, self.generation, copy, circuit);
        running_job(sources, first)
    }

    /// Starts the placing of what the finished packing has made, on a strip that has enough places.
    pub(crate) fn placing(
        &self,
        packing: &Parked,
        seed: u64,
        effort: u32,
    ) -> Result<Running, AllocError>
        requires { CanPlace (placing_sources self.now.arch.now self.now.strip
            self.now.netlist.now.text self.now.kept.now seed effort) packing.now }
        ensures job { IfOk result (λ job.
            job ≡ job_begun self.now.id self.now.generation
            (placing_sources self.now.arch.now self.now.strip self.now.netlist.now.text
            self.now.kept.now seed effort)) }
        ensures going { IfOk result (λ job. is_last job.sources 0 ≡ false) }
    {
        let text = &self.netlist.text;
        let sources = Sources::placing(self.arch, self.strip, text, self.kept, seed, effort)?;
        let Ok(copy) = sources.clone() else {
            drop(sources);
            return Err(AllocError);
        };
        let first = Parked::place(self.alloc, self.id, self.generation, copy, packing);
        running_job(sources, first)
    }

    /// Starts the routing of what the finished placing of that seed and effort has made.
    pub(crate) fn routing(
        &self,
        placing: &Parked,
        seed: u64,
        effort: u32,
    ) -> Result<Running, AllocError>
        requires { IsMadeOf (placing_sources self.now.arch.now self.now.strip
            self.now.netlist.now.text self.now.kept.now seed effort) placing.now }
        ensures job { IfOk result (λ job.
            job ≡ job_begun self.now.id self.now.generation
            (routing_sources self.now.arch.now self.now.strip self.now.netlist.now.text
            self.now.kept.now seed effort)) }
        ensures going { IfOk result (λ job. is_last job.sources 0 ≡ false) }
    {
        let text = &self.netlist.text;
        let sources = Sources::routing(self.arch, self.strip, text, self.kept, seed, effort)?;
        let Ok(copy) = sources.clone() else {
            drop(sources);
            return Err(AllocError);
        };
        let first = Parked::route(self.alloc, self.id, self.generation, copy, placing);
        running_job(sources, first)
    }
}

/// The running job of these sources, before its first step.
fn running_job(sources: Sources, first: Result<Parked, AllocError>) -> Result<Running, AllocError>
    ensures { MatchResult first
        (λ ready. result ≡ Ok (record { sources = sources; ready = Some ready }))
        (λ error. result ≡ Err error) }
{
    match first {
        Ok(ready) => Ok(Running {
            sources,
            ready: Some(ready),
        }),
        Err(error) => {
            drop(sources);
            Err(error)
        }
    }
}
