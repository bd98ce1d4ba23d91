//! The routing graph of the device, as the strips on it see it.
ghost use Rattle.std.specs.Prelude.{◌≡◌, ◌≤◌, IfOk, IfSome, is_some};
ghost use Rattle.arch_file.specs.Arch.{IsArch};
ghost use Rattle.grid.specs.declared.Strip.{Strip};
ghost use Rattle.grid.specs.Sizes.{IsStripSize};
ghost use Rattle.rr_graph.specs.Graph.{Basis};
ghost use Rattle.strips.specs.Windows.{Shows, device_strip, is_on_device};

use arch_file::Arch;
use grid::Strip;
use rr_graph::{
    EdgeEnds, Fabric, GraphPart, Node, NodeKind, Numbers, StripGraph, laws_of_geometry,
};
use std::alloc::{AllocError, Global};
use std::marker::Model;

/// The routing graph of a device, of all its columns. Its value is its basis.
#[derive(Drop)]
pub struct DeviceGraph {
    fabric: Fabric,
}

impl Model for DeviceGraph {
    ghost use Rattle.rr_graph.specs.Graph.{Basis};

    ghost Value = { Basis };

    ghost view = { λ g. g.fabric };
}

impl DeviceGraph {
    /// Builds the graph of a device of `columns` columns and `rows` rows. Reading it through
    /// windows takes no memory. Fails with [`AllocError`] if memory runs out.
    pub fn new(alloc: Global, arch: &Arch, columns: u32, rows: u32) -> Result<Self, AllocError>
        requires arch { IsArch arch.now }
        requires size { IsStripSize (device_strip arch.now columns rows) }
        ensures arch { IfOk result (λ graph. graph.arch ≡ arch.now) }
        ensures strip { IfOk result (λ graph. graph.strip ≡ device_strip arch.now columns rows) }
    {
        let strip = Strip {
            width: columns,
            rows,
            io_rat: arch.io_rat,
        };
        let fabric = Fabric::new(alloc, arch, strip)?;
        Ok(DeviceGraph { fabric })
    }
}

/// A strip's window on the device's graph: the strip's own routing graph, in its own columns, read
/// from the device's tables. All columns have the same nodes and the same edges beside them, so the
/// strip's offset only decides whether there is a window. Its value is the basis of the strip's
/// graph.
#[derive(Drop)]
pub struct Window<'a> {
    part: GraphPart<'a>,
}

impl<'a> Model for Window<'a> {
    ghost use Rattle.rr_graph.specs.Graph.{Basis};

    ghost Value = { Basis };

    ghost view = { λ w. w.part };
}

impl<'a> Window<'a> {
    /// Returns the window of a strip at that offset; `None` if the device doesn't have the strip
    /// there. The strip must lie within the device's columns, have at least one column, and have
    /// exactly the device's rows and pads. Takes no memory.
    pub fn new(graph: &'a DeviceGraph, offset: u32, strip: Strip) -> Option<Self>
        ensures there { is_some result ≡ is_on_device graph.now.strip strip offset }
        ensures arch { IfSome result (λ window. window.arch ≡ graph.now.arch) }
        ensures strip { IfSome result (λ window. window.strip ≡ strip) }
        ensures shown { IfSome result (Shows graph.now offset) }
    {
        let device = graph.fabric.strip();
        laws_of_geometry();
        if strip.rows != device.rows || strip.io_rat != device.io_rat {
            return None;
        }
        if strip.width == 0 || device.width < strip.width || device.width - strip.width < offset {
            return None;
        }
        Some(Window {
            part: graph.fabric.part(strip.width),
        })
    }
}

impl<'a> StripGraph for Window<'a> {
    ghost basis = { λ window. window };

    fn count(&self) -> usize {
        self.part.count()
    }

    fn node(&self, node: usize) -> Node {
        self.part.node(node)
    }

    fn number(&self, node: Node) -> Option<usize> {
        self.part.number(node)
    }

    fn numbers_at(&self, kind: NodeKind, x: u32, y: u32) -> Numbers {
        self.part.numbers_at(kind, x, y)
    }

    #[inline(always)]
    fn ends(&self, node: usize) -> EdgeEnds<'_> {
        self.part.ends(node)
    }

    fn capacity(&self, node: usize) -> u32 {
        self.part.capacity(node)
    }

    fn arch(&self) -> &Arch {
        self.part.arch()
    }

    fn strip(&self) -> Strip {
        self.part.strip()
    }
}
