//! A layout that is kept for the next graph with the same architecture and strip.
ghost use Rattle.std.specs.Prelude.{◌↔◌, IsTrue, IfOk, OnOk};
ghost use Rattle.fabric_planes.specs.Laid.{IsLayout};
ghost use Rattle.fabric_planes.specs.KeptLayouts.{IsKeptFor};

use crate::layout::Layout;
use crate::made_layout::MadeLayout;
use rr_graph::StripGraph;
use std::alloc::{AllocError, Global};
use std::mem;

/// The layout of the last graph, kept for the next one: an architecture and a strip determine the
/// layout.
#[derive(Drop)]
pub struct KeptLayout {
    made: Option<MadeLayout>,
}

impl KeptLayout {
    /// No layout yet. Takes no memory.
    pub fn new() -> Self {
        KeptLayout { made: None }
    }

    /// Returns whether the layout that is kept is that of the graph.
    fn is_for<G: StripGraph>(&self, graph: &G) -> bool
        ensures { IsTrue result ↔ IsKeptFor (G.basis graph.now) self.now.made }
    {
        match &self.made {
            Some(made) => made.is_for(graph),
            None => false,
        }
    }

    /// Makes the layout of the graph, unless it is kept already. If memory runs out, nothing
    /// changes.
    fn prepare<G: StripGraph>(&mut self, alloc: Global, graph: &G) -> Result<(), AllocError>
        ensures { OnOk result (IsKeptFor (G.basis graph.now) self.new.made) }
    {
        if self.is_for(graph) {
            return Ok(());
        }
        let made = MadeLayout::new(alloc, graph)?;
        drop(mem::replace(&mut self.made, Some(made)));
        Ok(())
    }

    /// The layout of the graph. It is made only if the one that is kept has another architecture or
    /// strip.
    pub fn layout_of<G: StripGraph>(
        &mut self,
        alloc: Global,
        graph: &G,
    ) -> Result<&Layout, AllocError>
        ensures { IfOk result (λ layout. IsLayout (G.basis graph.now) layout.now) }
    {
        self.prepare(alloc, graph)?;
        match &self.made {
            Some(made) => Ok(&made.layout),
            None => unreachable!(),
        }
    }
}
