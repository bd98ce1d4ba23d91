//! A layout, with the architecture and the strip that it was made for.
ghost use Rattle.std.specs.Prelude.{◌≡◌, ◌↔◌, IsTrue, IfOk};
ghost use Rattle.fabric_planes.specs.Laid.{IsLayout};

use crate::layout::Layout;
use arch_file::Arch;
use grid::Strip;
use rr_graph::StripGraph;
use std::alloc::{AllocError, Global};

/// A layout, with the architecture and the strip that it was made for.
#[derive(Drop)]
pub(crate) struct MadeLayout {
    pub(crate) arch: Arch,
    pub(crate) strip: Strip,
    pub(crate) layout: Layout,
    ghost laid: { IsLayout (record { arch = arch; strip = strip }) layout },
}

impl MadeLayout {
    /// The layout of a strip's graph.
    pub(crate) fn new<G: StripGraph>(alloc: Global, graph: &G) -> Result<Self, AllocError>
        ensures { IfOk result (λ made.
            G.basis graph.now ≡ record { arch = made.arch; strip = made.strip }) }
    {
        let arch = graph.arch().clone()?;
        let layout = Layout::new(alloc, graph)?;
        Ok(MadeLayout {
            arch,
            strip: graph.strip(),
            layout,
        })
    }

    /// Returns whether the graph has the architecture and the strip that the layout was made for.
    pub(crate) fn is_for<G: StripGraph>(&self, graph: &G) -> bool
        ensures { IsTrue result ↔
            (G.basis graph.now ≡ record { arch = self.now.arch; strip = self.now.strip }) }
    {
        self.strip == graph.strip() && self.arch.same(graph.arch())
    }
}
