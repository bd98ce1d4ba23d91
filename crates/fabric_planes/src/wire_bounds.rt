//! Lower bounds of the ways from a wire, by the sides at which they may end.
ghost use Rattle.std.specs.Prelude.{◌≡◌, ◌+◌, ◌-◌, ◌*◌, ◌^◌, ◌<◌, ◌≤◌, ℕ, slice_index, Some, IfSome, IfNone, false};
ghost use Rattle.fabric_planes.specs.Prelude.{IsLowerBound, graph_of};
ghost use Rattle.fabric_planes.specs.Laid.{IsWireOf};
ghost use Rattle.fabric_planes.specs.Layout.{place_count};
ghost use Rattle.fabric_planes.specs.Aheads.{IsLeastBySide};

use crate::costs::NodeCosts;
use crate::net_planes::{HasFamily, NetPlanes};
use crate::plane_place::PlanePlace;
use rr_graph::StripGraph;

impl<'a, G: StripGraph, C: NodeCosts> PlanePlace<'a, G, C> {
    /// A lower bound of the cost of a way from a wire that is at no side: the least of those by the
    /// sides, each by the wires up to there and the last wire and pin.
    #[inline(always)]
    fn sharp(&self) -> u64
        requires far { slice_index self.now.planes.now.aheads.now self.now.place ≡ 0 → ⊥ }
        ensures { IsLeastBySide (G.basis self.now.planes.now.strip.graph.now)
            self.now.planes.now.sink self.now.planes.now.pins.now self.now.planes.now.lasts.now
            self.now.track self.now.place result }
    {
        let planes = self.planes;
        let (track, place) = (self.track, self.place);
        planes.strip.graph.laws();
        let tracks = planes.strip.layout.shape.tracks as usize;
        let top = planes.to_top[place] as u64 + planes.lasts[track] as u64;
        let bottom = planes.to_bottom[place] as u64 + planes.lasts[tracks + track] as u64;
        let right = planes.to_right[place] as u64 + planes.lasts[2 * tracks + track] as u64;
        let left = planes.to_left[place] as u64 + planes.lasts[3 * tracks + track] as u64;
        top.min(bottom).min(right.min(left))
    }

    /// A lower bound of the cost of any way from a wire.
    #[inline(always)]
    pub(crate) fn from_wire(&self) -> u64
        ensures side { IsLeastBySide (G.basis self.now.planes.now.strip.graph.now)
            self.now.planes.now.sink self.now.planes.now.pins.now self.now.planes.now.lasts.now
            self.now.track self.now.place result }
        ensures bound { (number : ℕ) → IsWireOf (G.basis self.now.planes.now.strip.graph.now)
            self.now.place number →
            ((graph_of (G.basis self.now.planes.now.strip.graph.now)).node number).n ≡
            self.now.track → IsLowerBound
            ((⟦<NetPlanes<'a, G, C> as HasFamily>⟧.family self.now.planes.now).plane self.now.track)
            (⟦<NetPlanes<'a, G, C> as HasFamily>⟧.family self.now.planes.now).exit self.now.place
            (Some result) }
    {
        let planes = self.planes;
        let place = self.place;
        planes.strip.graph.laws();
        if planes.aheads[place] != 0 {
            return self.sharp();
        }
        self.from_side()
    }

    /// Whether a way from the place may cost no more than this, as far as [`Self::at_least`] says.
    #[inline(always)]
    fn may_cost(&self, most: u64) -> bool
        ensures few { result ≡ false → most < 2 ^ 64 - 1 }
        ensures more { result ≡ false → IsLowerBound
            ((⟦<NetPlanes<'a, G, C> as HasFamily>⟧.family self.now.planes.now).plane
            self.now.track) self.now.planes.now.exit
            self.now.place (Some (most + 1)) }
    {
        match self.at_least() {
            Some(least) => least <= most,
            None => true,
        }
    }

    /// A lower bound of the cost of any way from a wire if it is no more than `most`; `None` if
    /// each way costs more.
    #[inline(always)]
    pub(crate) fn within(&self, most: u64) -> Option<u64>
        ensures most { IfSome result (λ ahead. ahead ≤ most) }
        ensures bound { IfSome result (λ ahead. (number : ℕ) → IsWireOf (G.basis
            self.now.planes.now.strip.graph.now) self.now.place number → ((graph_of (G.basis
            self.now.planes.now.strip.graph.now)).node number).n ≡ self.now.track → IsLowerBound
            ((⟦<NetPlanes<'a, G, C> as HasFamily>⟧.family self.now.planes.now).plane self.now.track)
            (⟦<NetPlanes<'a, G, C> as HasFamily>⟧.family self.now.planes.now).exit self.now.place
            (Some ahead)) }
        ensures few { IfNone result (most < 2 ^ 64 - 1) }
        ensures more { IfNone result ((number : ℕ) → IsWireOf (G.basis
            self.now.planes.now.strip.graph.now)
            self.now.place number → ((graph_of (G.basis self.now.planes.now.strip.graph.now)).node
            number).n ≡ self.now.track →
            IsLowerBound ((⟦<NetPlanes<'a, G, C> as HasFamily>⟧.family self.now.planes.now).plane
            self.now.track)
            (⟦<NetPlanes<'a, G, C> as HasFamily>⟧.family self.now.planes.now).exit self.now.place
            (Some (most +
            1))) }
    {
        if !self.may_cost(most) {
            return None;
        }
        let ahead = self.from_wire();
        if ahead <= most { Some(ahead) } else { None }
    }
}
