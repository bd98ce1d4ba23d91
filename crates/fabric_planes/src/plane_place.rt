//! The places in the planes of a net's tracks.
ghost use Rattle.std.specs.Prelude.{◌≡◌, ◌+◌, ◌*◌, ◌<◌, ℕ, map, slice_index};
ghost use Rattle.std.specs.List.Sorted.{IsNonDecreasing};
ghost use Rattle.fabric_planes.specs.Pins.{IsAside};
ghost use Rattle.fabric_planes.specs.Prelude.{IsPlace, IsLowerBound};
ghost use Rattle.fabric_planes.specs.Differences.{IsPinPlace};
ghost use Rattle.fabric_planes.specs.Steps.{NO_CLASS};
ghost use Rattle.fabric_planes.specs.Layout.{in_column, place_count};
ghost use Rattle.fabric_planes.specs.Aheads.{IsLeastBySide};

use crate::costs::NodeCosts;
use crate::layout::NO_WIRE;
use crate::net_planes::{HasFamily, NetPlanes};
use least_path::Ends;
use rr_graph::StripGraph;

/// A place in the plane of one of the tracks.
#[derive(Drop)]
pub(crate) struct PlanePlace<'a, G: StripGraph, C: NodeCosts> {
    pub(crate) planes: &'a NetPlanes<'a, G, C>,
    pub(crate) track: usize,
    pub(crate) place: usize,
    ghost on_track: { track < (G.basis planes.now.strip.graph.now).arch.tracks },
    ghost in_plane: { place < place_count (G.basis planes.now.strip.graph.now) },
}

impl<'a, G: StripGraph, C: NodeCosts> PlanePlace<'a, G, C> {
    /// A lower bound of the cost of a way from a place at a side, or from a pin.
    #[inline(never)]
    pub(crate) fn from_side(&self) -> u64
        ensures wire { IsLeastBySide (G.basis self.now.planes.now.strip.graph.now)
            self.now.planes.now.sink self.now.planes.now.pins.now self.now.planes.now.lasts.now
            self.now.track self.now.place result }
        ensures pin { (x offset : ℕ) → IsPinPlace (G.basis self.now.planes.now.strip.graph.now) x
            offset →
            self.now.place ≡ in_column (G.basis self.now.planes.now.strip.graph.now) x offset →
            result ≡ 1 }
    {
        let planes = self.planes;
        let (track, place) = (self.track, self.place);
        match planes.side_of(place) {
            Some(side) => {
                let least = planes.least_lasts[track] as u64;
                (planes.pins[side.number] as u64).min(least) + 1
            }
            None => 1,
        }
    }

    /// A lower bound of the cost of any way from the place to the goal in its plane.
    #[inline(always)]
    pub(crate) fn at_least(&self) -> Option<u64>
        ensures { IsLowerBound ((⟦<NetPlanes<'a, G, C> as HasFamily>⟧.family
            self.now.planes.now).plane self.now.track)
            self.now.planes.now.exit self.now.place result }
    {
        let planes = self.planes;
        let (track, place) = (self.track, self.place);
        planes.strip.graph.laws();
        let far = planes.aheads[place];
        if far != 0 {
            return Some(far as u64 + planes.least_lasts[track] as u64);
        }
        if place == planes.exit {
            return Some(0);
        }
        Some(self.from_side())
    }

    /// The number of a place's node in the whole graph.
    pub(crate) fn number(&self) -> usize
        ensures { IsPlace (⟦<NetPlanes<'a, G, C> as HasFamily>⟧.family self.now.planes.now)
            self.now.track self.now.place → result ≡ (⟦<NetPlanes<'a, G, C> as HasFamily>⟧.family
            self.now.planes.now).number self.now.track self.now.place }
    {
        let planes = self.planes;
        let (track, place) = (self.track, self.place);
        planes.strip.graph.laws();
        if planes.strip.layout.firsts[place] != NO_WIRE {
            return planes.strip.wire_number(track, place);
        }
        match planes.pin_number(place) {
            Some(number) => number,
            None => 0,
        }
    }

    /// The cost of entering a place that is not told by the prices.
    #[inline(never)]
    fn dear_cost(&self) -> u64
        ensures { result ≡ ((⟦<NetPlanes<'a, G, C> as HasFamily>⟧.family self.now.planes.now).plane
            self.now.track).cost
            self.now.place }
    {
        let planes = self.planes;
        let (track, place) = (self.track, self.place);
        planes.strip.graph.laws();
        if planes.strip.layout.firsts[place] != NO_WIRE {
            return planes.costs.cost(planes.strip.wire_number(track, place));
        }
        match planes.pin_number(place) {
            Some(number) => planes.costs.cost(number),
            None => 1,
        }
    }

    /// The cost of entering a place.
    #[inline(always)]
    pub(crate) fn cost(&self) -> u64
        ensures { result ≡ ((⟦<NetPlanes<'a, G, C> as HasFamily>⟧.family self.now.planes.now).plane
            self.now.track).cost
            self.now.place }
    {
        let planes = self.planes;
        let (track, place) = (self.track, self.place);
        planes.strip.graph.laws();
        let price = planes.prices[track * planes.aheads.len() + place];
        if price != 255 {
            return price as u64;
        }
        self.dear_cost()
    }

    /// The ends of the edges from a wire that is not at a side: steps to the wires around it.
    #[inline(always)]
    pub(crate) fn step_ends(&self) -> Ends<'a>
        requires wire { slice_index self.now.planes.now.strip.layout.now.steps.classes.items
            self.now.place ≡ NO_CLASS → ⊥ }
        requires aside { IsAside (G.basis self.now.planes.now.strip.graph.now)
            self.now.planes.now.sink self.now.place }
        ensures value { map (λ end. end + result.base) result.list.now ≡
            ((⟦<NetPlanes<'a, G, C> as HasFamily>⟧.family self.now.planes.now).plane
            self.now.track).ends self.now.place }
        ensures rising { IsNonDecreasing result.list.now }
    {
        let planes = self.planes;
        let place = self.place;
        planes.strip.graph.laws();
        Ends {
            list: planes.strip.steps(place),
            base: place - planes.back,
        }
    }
}
