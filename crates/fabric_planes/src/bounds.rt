//! Lower bounds of the paths of all tracks at once.
ghost use Rattle.std.specs.Prelude.{OnOk};
ghost use Rattle.fabric_planes.specs.PlaneBounds.{AreBounds};
ghost use Rattle.fabric_planes.specs.RivalBounds.{AreLimited};

use crate::costs::NodeCosts;
use crate::net_planes::{HasFamily, NetPlanes};
use crate::rival_bounds::Known;
use crate::rivals::Head;
use rr_graph::StripGraph;
use std::alloc::{AllocError, Global};

/// The most that the cost of an output pin counts.
pub(crate) const DEAR: u64 = 10000;

/// Comes after the heads of all paths.
const LAST: Head = Head {
    start: usize::MAX,
    pin: 0,
    place: 0,
    track: 0,
    cost: 0,
};

/// Lower bounds of the paths of each track.
#[derive(Drop)]
pub struct Bounds {
    /// Of all paths.
    pub(crate) all: Vec<u16>,
    /// Of those that come before a known path.
    pub(crate) rivals: Vec<u16>,
}

impl Bounds {
    /// No bounds yet.
    pub fn new(alloc: Global) -> Self {
        Bounds {
            all: Vec::new(alloc),
            rivals: Vec::new(alloc),
        }
    }

    /// Fills in for each track a lower bound of its paths. A bound may be less than it could be if
    /// it is above `most`.
    pub fn fill_all<'a, G: StripGraph, C: NodeCosts>(
        &mut self,
        planes: &NetPlanes<'a, G, C>,
        most: u64,
    ) -> Result<(), AllocError>
        ensures { OnOk result (AreBounds (⟦<NetPlanes<'a, G, C> as HasFamily>⟧.family
            planes.now) self.new.all.items) }
    {
        planes.strip.graph.laws();
        planes.begin(most, &mut self.all)?;
        let known = Known {
            planes,
            head: LAST,
            limits: planes.limits(most),
        };
        let all = self.all.as_mut_slice();
        known.lower_by_pins(all);
        known.lower_by_wires(all);
        Ok(())
    }
}

impl<'a, G: StripGraph, C: NodeCosts> NetPlanes<'a, G, C> {
    /// Sets for each track a bound to one more than the limit, or to 20000, which is more than any
    /// bound.
    pub(crate) fn begin(&self, most: u64, bounds: &mut Vec<u16>) -> Result<(), AllocError>
        ensures { OnOk result (AreLimited (G.basis self.now.strip.graph.now).arch.tracks most
            bounds.new.items) }
    {
        let first = most.min(19999) as u16 + 1;
        bounds.clear();
        bounds.resize(self.strip.layout.shape.tracks as usize, first)?;
        Ok(())
    }
}
