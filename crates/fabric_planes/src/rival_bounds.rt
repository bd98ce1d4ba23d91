//! Lower bounds of the paths that come before a known one.
ghost use Rattle.std.specs.Prelude.{◌≡◌, ◌+◌, ◌<◌, ◌≤◌, ℕ, Contains, length, slice_index};
ghost use Rattle.fabric_planes.specs.Prelude.{graph_of, Opin};
ghost use Rattle.fabric_planes.specs.Bounds.{AreLimits, AreLowered};
ghost use Rattle.fabric_planes.specs.Pins.{IsShownPin};
ghost use Rattle.fabric_planes.specs.RivalBounds.{AreFromSource, AreLimited, AreOverPin, AreOverSide, AreRivalsFrom, AreRivalsOver, IsLead};
ghost use Rattle.fabric_planes.specs.Rivals.{ComesFirst};
ghost use Rattle.fabric_planes.specs.declared.net_starts.StartWire.{StartWire};
ghost use Rattle.fabric_planes.specs.declared.rivals.Head.{Head};

use crate::bound_rows::Limits;
use crate::bounds::DEAR;
use crate::costs::NodeCosts;
use crate::net_planes::{HasFamily, NetPlanes};
use crate::net_starts::StartWire;
use crate::plane_place::PlanePlace;
use crate::rivals::Head;
use crate::side::Side;
use rr_graph::{NodeKind, StripGraph};

/// How paths leave their start over an output pin, and what entering the pin costs at least.
#[derive(Clone, Copy)]
pub(crate) struct Lead {
    pub(crate) start: usize,
    pub(crate) pin: usize,
    pub(crate) more: u16,
}

/// How a known path leaves its start, and the limits of a search for paths that cost no more.
#[derive(Drop)]
pub(crate) struct Known<'a, G: StripGraph, C: NodeCosts> {
    pub(crate) planes: &'a NetPlanes<'a, G, C>,
    pub(crate) head: Head,
    pub(crate) limits: Limits,
    ghost are_limits: { AreLimits (G.basis planes.now.strip.graph.now) planes.now.least_lasts.now
        limits },
}

/// A number of tracks, so that paths over the wires at a place come before the head only on those
/// below it.
fn tracks_before(lead: Lead, place: usize, head: Head, tracks: usize) -> usize
    ensures few { result ≤ tracks }
    ensures all { (track : ℕ) → track < tracks → ComesFirst (record {
      start = lead.start;
      pin = lead.pin;
      place = place;
      track = track;
      cost = 0;
    }) head → track < result }
{
    if lead.start != head.start {
        return if lead.start < head.start { tracks } else { 0 };
    }
    if lead.pin != head.pin {
        return if lead.pin < head.pin { tracks } else { 0 };
    }
    if place != head.place {
        return if place < head.place { tracks } else { 0 };
    }
    head.track.min(tracks)
}

/// Sets all bounds to 0.
fn clear(bounds: &mut [u16])
    ensures falls { AreLowered bounds.old bounds.new }
    ensures none { (track : ℕ) → track < length bounds.old → slice_index bounds.new track ≡ 0 }
{
    for track in 0..bounds.len() {
        bounds[track] = 0;
    }
}

impl<'a, G: StripGraph, C: NodeCosts> Known<'a, G, C> {
    /// Lowers the bounds by the paths over a side of an output pin's block or pad.
    fn lower_by_side(&self, lead: Lead, side: Side, bounds: &mut [u16])
        requires limited { AreLimited (G.basis self.now.planes.now.strip.graph.now).arch.tracks
            self.now.limits.most bounds.old }
        requires lead { IsLead (G.basis self.now.planes.now.strip.graph.now)
            self.now.planes.now.source lead }
        ensures falls { AreLowered bounds.old bounds.new }
        ensures low { AreOverSide (G.basis self.now.planes.now.strip.graph.now) (C.costs
            self.now.planes.now.costs.now)
            (⟦<NetPlanes<'a, G, C> as HasFamily>⟧.family self.now.planes.now) self.now.head lead
            side.number bounds.new }
    {
        let planes = self.planes;
        planes.strip.graph.laws();
        let place = planes.own_sides[side.number];
        let count = tracks_before(lead, place, self.head, bounds.len());
        if count > 0 && self.is_needed(side, lead.more) {
            self.lower_over(lead, side, bounds, count);
        }
    }

    /// Lowers the bounds by the paths over an output pin.
    fn lower_by_output(&self, lead: Lead, bounds: &mut [u16])
        requires limited { AreLimited (G.basis self.now.planes.now.strip.graph.now).arch.tracks
            self.now.limits.most bounds.old }
        requires lead { IsLead (G.basis self.now.planes.now.strip.graph.now)
            self.now.planes.now.source lead }
        ensures falls { AreLowered bounds.old bounds.new }
        ensures low { AreOverPin (G.basis self.now.planes.now.strip.graph.now) (C.costs
            self.now.planes.now.costs.now)
            (⟦<NetPlanes<'a, G, C> as HasFamily>⟧.family self.now.planes.now) self.now.head lead
            bounds.new }
    {
        for number in 0..4 {
            self.lower_by_side(lead, Side { number }, bounds);
        }
    }

    /// Lowers the bounds by the paths from the source over a pin that is shown, if it is an output
    /// pin.
    fn lower_by_shown(&self, start: usize, number: usize, bounds: &mut [u16])
        requires limited { AreLimited (G.basis self.now.planes.now.strip.graph.now).arch.tracks
            self.now.limits.most bounds.old }
        requires shown { IsShownPin (G.basis self.now.planes.now.strip.graph.now)
            (record { source = self.now.planes.now.source; sink = self.now.planes.now.sink })
            number }
        ensures falls { AreLowered bounds.old bounds.new }
        ensures low { ((graph_of (G.basis self.now.planes.now.strip.graph.now)).node number).kind ≡
            Opin →
            AreRivalsOver (G.basis self.now.planes.now.strip.graph.now) (C.costs
            self.now.planes.now.costs.now)
            (⟦<NetPlanes<'a, G, C> as HasFamily>⟧.family self.now.planes.now) self.now.head start
            number ((C.costs self.now.planes.now.costs.now) number) bounds.new }
    {
        let planes = self.planes;
        planes.strip.graph.laws();
        if let NodeKind::Opin = planes.strip.graph.node(number).kind {
            let more = planes.costs.cost(number).min(DEAR) as u16;
            let lead = Lead {
                start,
                pin: number,
                more,
            };
            self.lower_by_output(lead, bounds);
        }
    }

    /// Lowers the bounds by the paths from the source.
    fn lower_by_source(&self, start: usize, bounds: &mut [u16])
        requires { AreLimited (G.basis self.now.planes.now.strip.graph.now).arch.tracks
            self.now.limits.most bounds.old }
        ensures falls { AreLowered bounds.old bounds.new }
        ensures low { AreFromSource (G.basis self.now.planes.now.strip.graph.now) (C.costs
            self.now.planes.now.costs.now)
            (⟦<NetPlanes<'a, G, C> as HasFamily>⟧.family self.now.planes.now)
            (record { source = self.now.planes.now.source; sink = self.now.planes.now.sink })
            self.now.head start bounds.new }
    {
        let planes = self.planes;
        planes.strip.graph.laws();
        for index in 0..planes.shown.len() {
            self.lower_by_shown(start, planes.shown[index].number, bounds);
        }
    }

    /// Lowers the bounds by the paths from a start that is no wire.
    fn lower_by_pin(&self, number: usize, bounds: &mut [u16])
        requires limited { AreLimited (G.basis self.now.planes.now.strip.graph.now).arch.tracks
            self.now.limits.most bounds.old }
        requires pin { Contains self.now.planes.now.listed.now.pins.items number }
        ensures falls { AreLowered bounds.old bounds.new }
        ensures low { AreRivalsFrom (G.basis self.now.planes.now.strip.graph.now) (C.costs
            self.now.planes.now.costs.now)
            (⟦<NetPlanes<'a, G, C> as HasFamily>⟧.family self.now.planes.now)
            (record { source = self.now.planes.now.source; sink = self.now.planes.now.sink })
            self.now.head number bounds.new }
    {
        let planes = self.planes;
        planes.strip.graph.laws();
        match planes.strip.graph.node(number).kind {
            NodeKind::Source => self.lower_by_source(number, bounds),
            NodeKind::Opin => {
                let lead = Lead {
                    start: number,
                    pin: number,
                    more: 0,
                };
                self.lower_by_output(lead, bounds)
            }
            _ => clear(bounds),
        }
    }

    /// Lowers the bounds by the paths from the starts that are no wires.
    pub(crate) fn lower_by_pins(&self, bounds: &mut [u16])
        requires { AreLimited (G.basis self.now.planes.now.strip.graph.now).arch.tracks
            self.now.limits.most bounds.old }
        ensures falls { AreLowered bounds.old bounds.new }
        ensures low { (number : ℕ) → Contains self.now.planes.now.listed.now.pins.items number →
            AreRivalsFrom (G.basis self.now.planes.now.strip.graph.now) (C.costs
            self.now.planes.now.costs.now)
            (⟦<NetPlanes<'a, G, C> as HasFamily>⟧.family self.now.planes.now)
            (record { source = self.now.planes.now.source; sink = self.now.planes.now.sink })
            self.now.head number bounds.new }
    {
        let planes = self.planes;
        let net = planes.listed;
        for index in 0..net.pins.len() {
            self.lower_by_pin(net.pins[index], bounds);
        }
    }

    /// Lowers the bounds by the paths from a start that is a wire.
    fn lower_by_wire(&self, wire: StartWire, bounds: &mut [u16])
        requires limited { AreLimited (G.basis self.now.planes.now.strip.graph.now).arch.tracks
            self.now.limits.most bounds.old }
        requires wire { Contains self.now.planes.now.listed.now.wires.items wire }
        ensures falls { AreLowered bounds.old bounds.new }
        ensures low { AreRivalsFrom (G.basis self.now.planes.now.strip.graph.now) (C.costs
            self.now.planes.now.costs.now)
            (⟦<NetPlanes<'a, G, C> as HasFamily>⟧.family self.now.planes.now)
            (record { source = self.now.planes.now.source; sink = self.now.planes.now.sink })
            self.now.head wire.number bounds.new }
    {
        let planes = self.planes;
        planes.strip.graph.laws();
        if wire.number >= self.head.start {
            return;
        }
        let (track, place) = (wire.track as usize, wire.place as usize);
        let at = PlanePlace {
            planes,
            track,
            place,
        };
        if let Some(ahead) = at.within(bounds[track] as u64) {
            bounds[track] = ahead as u16;
        }
    }

    /// Lowers the bounds by the paths from the starts that are wires.
    pub(crate) fn lower_by_wires(&self, bounds: &mut [u16])
        requires { AreLimited (G.basis self.now.planes.now.strip.graph.now).arch.tracks
            self.now.limits.most bounds.old }
        ensures falls { AreLowered bounds.old bounds.new }
        ensures low { (wire : StartWire) → Contains self.now.planes.now.listed.now.wires.items wire
            →
            AreRivalsFrom (G.basis self.now.planes.now.strip.graph.now) (C.costs
            self.now.planes.now.costs.now)
            (⟦<NetPlanes<'a, G, C> as HasFamily>⟧.family self.now.planes.now)
            (record { source = self.now.planes.now.source; sink = self.now.planes.now.sink })
            self.now.head wire.number bounds.new }
    {
        let planes = self.planes;
        let net = planes.listed;
        for index in 0..net.wires.len() {
            self.lower_by_wire(net.wires[index], bounds);
        }
    }
}
