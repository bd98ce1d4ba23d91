//! The ends of the edges from the places of a net's planes.
ghost use Rattle.std.specs.Prelude.{◌≡◌, ◌+◌, ◌<◌, ℕ, map, slice_index};
ghost use Rattle.std.specs.List.Sorted.{IsNonDecreasing};
ghost use Rattle.fabric_planes.specs.Steps.{NO_CLASS};
ghost use Rattle.fabric_planes.specs.Layout.{place_count};

use crate::costs::NodeCosts;
use crate::net_planes::{HasFamily, NetPlanes};
use crate::plane_place::PlanePlace;
use crate::side::Side;
use crate::steps::NO_CLASS;
use least_path::Ends;
use rr_graph::StripGraph;

impl<'a, G: StripGraph, C: NodeCosts> PlanePlace<'a, G, C> {
    /// The ends of the edges from a wire at a side: to the wires around it, and to pins.
    fn arrival_ends(&self, side: Side) -> Ends<'a>
        requires wire { slice_index self.now.planes.now.strip.layout.now.steps.classes.items
            self.now.place ≡ NO_CLASS → ⊥ }
        requires at { slice_index self.now.planes.now.sides.now side.number ≡ self.now.place }
        ensures value { map (λ end. end + result.base) result.list.now ≡
            ((⟦<NetPlanes<'a, G, C> as HasFamily>⟧.family self.now.planes.now).plane
            self.now.track).ends self.now.place }
        ensures rising { IsNonDecreasing result.list.now }
    {
        let planes = self.planes;
        let (track, place) = (self.track, self.place);
        planes.strip.graph.laws();
        Ends {
            list: planes
                .arrivals
                .row(planes.first_arrivals[side.number] + track),
            base: place - planes.back,
        }
    }

    /// The ends of the edges from a pin, or from a place where nothing is.
    fn ends_of_pin(&self) -> Ends<'a>
        requires no_wire { slice_index self.now.planes.now.strip.layout.now.steps.classes.items
            self.now.place ≡ NO_CLASS }
        ensures value { map (λ end. end + result.base) result.list.now ≡
            ((⟦<NetPlanes<'a, G, C> as HasFamily>⟧.family self.now.planes.now).plane
            self.now.track).ends self.now.place }
        ensures rising { IsNonDecreasing result.list.now }
    {
        let planes = self.planes;
        let (track, place) = (self.track, self.place);
        planes.strip.graph.laws();
        match planes.pin_at(place) {
            Some(pin) => Ends {
                list: planes.pin_ends.row(pin.row + pin.per_track * track),
                base: pin.base,
            },
            None => Ends { list: &[], base: 0 },
        }
    }

    /// The ends of the edges from a place, whatever it is.
    #[inline(never)]
    fn near_ends(&self) -> Ends<'a>
        ensures value { map (λ end. end + result.base) result.list.now ≡
            ((⟦<NetPlanes<'a, G, C> as HasFamily>⟧.family self.now.planes.now).plane
            self.now.track).ends self.now.place }
        ensures rising { IsNonDecreasing result.list.now }
    {
        let planes = self.planes;
        let place = self.place;
        planes.strip.graph.laws();
        if planes.strip.layout.steps.classes[place] == NO_CLASS {
            return self.ends_of_pin();
        }
        match planes.side_of(place) {
            Some(side) => self.arrival_ends(side),
            None => self.step_ends(),
        }
    }

    /// The ends of the edges from a place before which wires are ahead.
    #[inline(always)]
    fn far_ends(&self) -> Ends<'a>
        requires far { slice_index self.now.planes.now.aheads.now self.now.place ≡ 0 → ⊥ }
        ensures value { map (λ end. end + result.base) result.list.now ≡
            ((⟦<NetPlanes<'a, G, C> as HasFamily>⟧.family self.now.planes.now).plane
            self.now.track).ends self.now.place }
        ensures rising { IsNonDecreasing result.list.now }
    {
        let planes = self.planes;
        let place = self.place;
        planes.strip.graph.laws();
        if planes.strip.layout.steps.classes[place] == NO_CLASS {
            return self.ends_of_pin();
        }
        self.step_ends()
    }

    /// The ends of the edges from a place in its plane, in rising order.
    #[inline(always)]
    pub(crate) fn ends(&self) -> Ends<'a>
        ensures value { map (λ end. end + result.base) result.list.now ≡
            ((⟦<NetPlanes<'a, G, C> as HasFamily>⟧.family self.now.planes.now).plane
            self.now.track).ends self.now.place }
        ensures rising { IsNonDecreasing result.list.now }
    {
        let planes = self.planes;
        let place = self.place;
        planes.strip.graph.laws();
        let far = planes.aheads[place];
        if far != 0 {
            return self.far_ends();
        }
        self.near_ends()
    }
}
