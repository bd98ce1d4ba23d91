//! What a job is computed from.
ghost use Rattle.std.specs.Prelude.{◌≡◌, ◌↔◌, IfOk, IsTrue};
ghost use Rattle.job_state.specs.JobValue.{packing_sources, placing_sources, routing_sources};

use crate::shared_text::SharedText;
use arch_file::SharedArch;
use grid::Strip;
use std::alloc::AllocError;
use strip_place::Kept;

/// What kind of work a job is.
#[derive(Clone, Copy, PartialEq, Eq)]
pub enum JobKind {
    /// One cluster a step.
    Packing,
    /// One pass a step.
    Placing,
    /// One iteration a step.
    Routing,
}

/// What a job is computed from.
#[derive(Drop)]
pub struct Sources {
    pub kind: JobKind,
    pub arch: SharedArch,
    pub strip: Strip,
    /// The netlist.
    pub text: SharedText,
    /// The places kept for blocks at the start of a placing, or of the placing that a routing
    /// starts from; empty for a packing.
    pub kept: Kept,
    /// The seed of a placing, or of the placing that a routing starts from; 0 for a packing.
    pub seed: u64,
    /// The effort of a placing, or of the placing that a routing starts from; 0 for a packing.
    pub effort: u32,
}

impl Sources {
    /// Returns the sources of a packing. Shares the architecture and the netlist; fails only if the
    /// number of owners overflows.
    pub fn packing(arch: &SharedArch, strip: Strip, text: &SharedText) -> Result<Self, AllocError>
        ensures { IfOk result (λ sources. sources ≡ packing_sources arch.now strip text.now) }
    {
        Ok(Sources {
            kind: JobKind::Packing,
            arch: arch.clone()?,
            strip,
            text: text.clone()?,
            kept: Kept::none(),
            seed: 0,
            effort: 0,
        })
    }

    /// Returns the sources of a placing. Shares the architecture, the netlist and the kept places;
    /// fails only if the number of owners overflows.
    pub fn placing(
        arch: &SharedArch,
        strip: Strip,
        text: &SharedText,
        kept: &Kept,
        seed: u64,
        effort: u32,
    ) -> Result<Self, AllocError>
        ensures { IfOk result (λ sources.
            sources ≡ placing_sources arch.now strip text.now kept.now seed effort) }
    {
        Ok(Sources {
            kind: JobKind::Placing,
            arch: arch.clone()?,
            strip,
            text: text.clone()?,
            kept: kept.clone()?,
            seed,
            effort,
        })
    }

    /// Returns the sources of a routing; the kept places, the seed and the effort are those of its
    /// placing. Shares the architecture, the netlist and the kept places; fails only if the number
    /// of owners overflows.
    pub fn routing(
        arch: &SharedArch,
        strip: Strip,
        text: &SharedText,
        kept: &Kept,
        seed: u64,
        effort: u32,
    ) -> Result<Self, AllocError>
        ensures { IfOk result (λ sources.
            sources ≡ routing_sources arch.now strip text.now kept.now seed effort) }
    {
        let mut sources = Sources::placing(arch, strip, text, kept, seed, effort)?;
        sources.kind = JobKind::Routing;
        Ok(sources)
    }

    /// Returns whether both are equal, by value.
    pub fn same(&self, other: &Sources) -> bool
        ensures { IsTrue result ↔ (self.now ≡ other.now) }
    {
        self.kind == other.kind
            && self.strip == other.strip
            && self.seed == other.seed
            && self.effort == other.effort
            && self.arch.arch().same(other.arch.arch())
            && self.kept.same(&other.kept)
            && self.text.same(&other.text)
    }
}

impl Clone for Sources {
    ghost is_clone = { λ sources copy. copy ≡ sources };

    /// Returns one more owner of the architecture, the netlist and the kept places. Copies none of
    /// them.
    fn clone(&self) -> Result<Self, AllocError> {
        let (seed, effort) = (self.seed, self.effort);
        let mut copy = Sources::placing(
            &self.arch, self.strip, &self.text, &self.kept, seed, effort,
        )?;
        copy.kind = self.kind;
        Ok(copy)
    }
}
