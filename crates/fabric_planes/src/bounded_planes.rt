//! A net's planes with bounds of the paths of each track, as a search uses them.
ghost use Rattle.std.specs.Prelude.{◌≡◌, ◌<◌, ℕ, true, Some, Contains, length, IfSome, IfNone, OnOk};
ghost use Rattle.fabric_planes.specs.Prelude.{IsTooFar, places_of, graph_of};
ghost use Rattle.fabric_planes.specs.Layout.{place_of, planes_of, shows};
ghost use Rattle.fabric_planes.specs.PlaneBounds.{AreBounds, AreRivals};
ghost use Rattle.fabric_planes.specs.Starts.{AddsWires, AreSomeStarts, HasStarts, IsStartOf, KeepsStarts};
ghost use Rattle.fabric_planes.specs.declared.net_starts.StartWire.{StartWire};

use crate::bounds::Bounds;
use crate::costs::NodeCosts;
use crate::net_planes::{HasFamily, NetPlanes};
use crate::net_starts::StartWire;
use crate::plane_place::PlanePlace;
use least_path::Ends;
use plane_search::{Planes, Start};
use rr_graph::StripGraph;
use std::alloc::AllocError;

/// A net's planes with bounds of the paths of each track.
#[derive(Drop)]
pub struct BoundedPlanes<'a, G: StripGraph, C: NodeCosts> {
    pub(crate) planes: &'a NetPlanes<'a, G, C>,
    pub(crate) bounds: &'a Bounds,
    ghost are_bounds: { AreBounds (planes_of (G.basis planes.now.strip.graph.now)
        (C.costs planes.now.costs.now) planes.now.starts.now planes.now.goal
        (record { source = planes.now.source; sink = planes.now.sink }))
        bounds.now.all.items },
    ghost long: { length bounds.now.rivals.items
        ≡ (planes_of (G.basis planes.now.strip.graph.now)
        (C.costs planes.now.costs.now) planes.now.starts.now planes.now.goal
        (record { source = planes.now.source; sink = planes.now.sink })).tracks },
}

impl<'a, G: StripGraph, C: NodeCosts> BoundedPlanes<'a, G, C> {
    /// Lists the pins at which paths of a track's plane start. Each is bounded as all paths are.
    fn list_pins(&self, track: usize, starts: &mut Vec<Start>) -> Result<(), AllocError>
        requires { track < (G.basis self.now.planes.now.strip.graph.now).arch.tracks }
        ensures some { OnOk result (AreSomeStarts (⟦<NetPlanes<'a, G, C> as HasFamily>⟧.family
            self.now.planes.now) track starts.new.items) }
        ensures pins { OnOk result ((number : ℕ) → Contains
            self.now.planes.now.listed.now.pins.items number →
            shows (G.basis self.now.planes.now.strip.graph.now).strip
            (record { source = self.now.planes.now.source; sink = self.now.planes.now.sink }) track
            ((graph_of (G.basis self.now.planes.now.strip.graph.now)).node number).kind
            ((graph_of (G.basis self.now.planes.now.strip.graph.now)).node number) ≡ true →
            Contains (places_of starts.new.items)
            (place_of (G.basis self.now.planes.now.strip.graph.now)
            ((graph_of (G.basis self.now.planes.now.strip.graph.now)).node number))) }
    {
        let (planes, bounds) = (self.planes, self.bounds);
        let net = planes.listed;
        planes.strip.graph.laws();
        let ahead = bounds.all[track] as u64;
        starts.clear();
        for index in 0..net.pins.len() {
            if let Some(place) = planes.pin_place(net.pins[index]) {
                starts.push(Start { place, ahead })?;
            }
        }
        Ok(())
    }

    /// The start that is a wire, with a bound; `None` if it is not one of the track, or too far.
    fn wire_start(&self, track: usize, most: u64, wire: StartWire) -> Option<Start>
        requires track { track < (G.basis self.now.planes.now.strip.graph.now).arch.tracks }
        requires wire { Contains self.now.planes.now.listed.now.wires.items wire }
        ensures there { IfSome result (λ start. IsStartOf
            (⟦<NetPlanes<'a, G, C> as HasFamily>⟧.family self.now.planes.now) track wire start) }
        ensures none { IfNone result (wire.track ≡ track → IsTooFar
            (⟦<NetPlanes<'a, G, C> as HasFamily>⟧.family self.now.planes.now) track most
            wire.place) }
    {
        let planes = self.planes;
        planes.strip.graph.laws();
        if wire.track as usize != track {
            return None;
        }
        let place = wire.place as usize;
        let at = PlanePlace {
            planes,
            track,
            place,
        };
        match at.within(most) {
            Some(ahead) => Some(Start { place, ahead }),
            None => None,
        }
    }

    /// Adds the wires at which paths of a track's plane start, except for those that are too far.
    fn add_wires(&self, track: usize, most: u64, starts: &mut Vec<Start>) -> Result<(), AllocError>
        requires track { track < (G.basis self.now.planes.now.strip.graph.now).arch.tracks }
        requires some { AreSomeStarts (⟦<NetPlanes<'a, G, C> as HasFamily>⟧.family
            self.now.planes.now) track starts.old.items }
        ensures some { OnOk result (AreSomeStarts (⟦<NetPlanes<'a, G, C> as HasFamily>⟧.family
            self.now.planes.now) track starts.new.items) }
        ensures kept { OnOk result (KeepsStarts starts.old.items starts.new.items) }
        ensures wires { OnOk result (AddsWires (⟦<NetPlanes<'a, G, C> as HasFamily>⟧.family
            self.now.planes.now) track most (length self.now.planes.now.listed.now.wires.items)
            self.now.planes.now.listed.now.wires.items starts.new.items) }
    {
        let planes = self.planes;
        let net = planes.listed;
        planes.strip.graph.laws();
        for index in 0..net.wires.len() {
            if let Some(start) = self.wire_start(track, most, net.wires[index]) {
                starts.push(start)?;
            }
        }
        Ok(())
    }
}

impl<'a, G: StripGraph, C: NodeCosts> Planes for BoundedPlanes<'a, G, C> {
    ghost family = { λ p. ⟦<NetPlanes<'a, G, C> as HasFamily>⟧.family p.planes.now };

    ghost is_about = { λ p nodes. AreRivals (⟦<NetPlanes<'a, G, C> as HasFamily>⟧.family
        p.planes.now) nodes p.bounds.now.rivals.items };

    fn tracks(&self) -> usize {
        let planes = self.planes;
        planes.strip.graph.laws();
        planes.strip.layout.shape.tracks as usize
    }

    fn places(&self) -> usize {
        let planes = self.planes;
        planes.strip.layout.shape.places()
    }

    fn list_starts(
        &self,
        track: usize,
        most: u64,
        starts: &mut Vec<Start>,
    ) -> Result<(), AllocError> {
        let planes = self.planes;
        planes.strip.graph.laws();
        self.list_pins(track, starts)?;
        self.add_wires(track, most, starts)?;
        Ok(())
    }

    fn exit(&self) -> usize {
        let planes = self.planes;
        planes.exit
    }

    #[inline(always)]
    fn number(&self, track: usize, place: usize) -> usize {
        let planes = self.planes;
        planes.strip.graph.laws();
        let at = PlanePlace {
            planes,
            track,
            place,
        };
        at.number()
    }

    #[inline(always)]
    fn ends(&self, track: usize, place: usize) -> Ends<'_> {
        let planes = self.planes;
        let at = PlanePlace {
            planes,
            track,
            place,
        };
        at.ends()
    }

    #[inline(always)]
    fn cost(&self, track: usize, place: usize) -> u64 {
        let planes = self.planes;
        let at = PlanePlace {
            planes,
            track,
            place,
        };
        at.cost()
    }

    #[inline(always)]
    fn at_least(&self, track: usize, place: usize) -> Option<u64> {
        let planes = self.planes;
        let at = PlanePlace {
            planes,
            track,
            place,
        };
        at.at_least()
    }

    fn bound(&self, track: usize) -> u64 {
        let bounds = self.bounds;
        bounds.all[track] as u64
    }

    fn rival_bound(&self, track: usize) -> u64 {
        let bounds = self.bounds;
        bounds.rivals[track] as u64
    }
}
