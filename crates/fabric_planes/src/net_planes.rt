//! The planes of a strip's graph at current costs, from a net's starts towards one of its sinks.
ghost use Rattle.std.specs.Prelude.{All, ◌≡◌, ◌+◌, ◌*◌, ◌<◌, ◌≤◌, ℕ, IfSome, IfNone, Contains, length, map, slice_index, slice_index_or};
ghost use Rattle.std.specs.List.Sorted.{IsNonDecreasing};
ghost use Rattle.fabric_planes.specs.Prelude.{graph_of, IsPlace, IsLowerBound};
ghost use Rattle.fabric_planes.specs.Pins.{AreArrivals, AreByPlace, ArePins, ArePrices, HaveEnds, IsAside};
ghost use Rattle.fabric_planes.specs.Differences.{IsPinPlace};
ghost use Rattle.fabric_planes.specs.Laid.{IsWireOf};
ghost use Rattle.fabric_planes.specs.Steps.{NO_CLASS};
ghost use Rattle.fabric_planes.specs.Layout.{IsNetSearch, in_column, place_of, place_count, planes_of, stride_of};
ghost use Rattle.fabric_planes.specs.Starts.{HasStarts};
ghost use Rattle.fabric_planes.specs.declared.pins.PinAt.{PinAt};
ghost use Rattle.fabric_planes.specs.Aheads.{AreAheads, AreFars, AreLeast, AreSides, HaveBounds};

use crate::costs::NodeCosts;
use crate::layout::NO_WIRE;
use crate::net_starts::NetStarts;
use crate::pins::PinAt;
use crate::side::Side;
use crate::strip_planes::StripPlanes;
use least_path::Ends;
use rows::Rows;
use rr_graph::{Node, StripGraph};

/// The planes of a strip's graph at current costs, from a net's starts towards one of its sinks.
#[derive(Drop)]
pub struct NetPlanes<'a, G: StripGraph, C: NodeCosts> {
    pub(crate) strip: StripPlanes<'a, G>,
    pub(crate) costs: &'a C,
    /// The nodes at which paths may start.
    pub(crate) starts: &'a [usize],
    /// The same: the wires by track and place, and the others.
    pub(crate) listed: &'a NetStarts,
    /// The number of the sink.
    pub(crate) goal: usize,
    pub(crate) source: Node,
    pub(crate) sink: Node,
    /// The place of the sink.
    pub(crate) exit: usize,
    /// The places of the wires at the sides of the sink's block or pad: above, below, to the right
    /// and to the left.
    pub(crate) sides: &'a [usize],
    /// For each side a lower bound of the costs of the pins there.
    pub(crate) pins: &'a [u16],
    /// For each side and track a lower bound of the cost of the wire there and a pin.
    pub(crate) lasts: &'a [u16],
    /// For each track the least of these bounds.
    pub(crate) least_lasts: &'a [u16],
    /// For each place the wires up to one at a side, at least.
    pub(crate) aheads: &'a [u8],
    /// The source, the sink and their pins.
    pub(crate) shown: &'a [PinAt],
    /// For each place at most the wires up to the one above the sink's block or pad, and to those
    /// below, to the right and to the left.
    pub(crate) to_top: &'a [u8],
    pub(crate) to_bottom: &'a [u8],
    pub(crate) to_right: &'a [u8],
    pub(crate) to_left: &'a [u8],
    /// The places of the wires at the sides of the source's block or pad.
    pub(crate) own_sides: &'a [usize],
    /// The prices of the wires, track by track; 255 for those that are not told.
    pub(crate) prices: &'a [u8],
    /// The same place by place.
    pub(crate) by_place: &'a [u8],
    /// The ends of the wires at the sides of blocks and pads.
    pub(crate) arrivals: &'a Rows,
    /// For each side the row of the first track's wire.
    pub(crate) first_arrivals: &'a [usize],
    /// The ends of the shown pins.
    pub(crate) pin_ends: &'a Rows,
    /// The places of two columns.
    pub(crate) back: usize,
    ghost search: { IsNetSearch (G.basis strip.graph.now) (C.costs costs.now) starts.now goal
        (record { source = source; sink = sink }) },
    ghost are_listed: { HasStarts (G.basis strip.graph.now) starts.now listed.now },
    ghost exit_is: { exit ≡ place_of (G.basis strip.graph.now) sink },
    ghost are_sides: { AreSides (G.basis strip.graph.now) sink sides.now },
    ghost are_aheads: { AreAheads (G.basis strip.graph.now) sink aheads.now },
    ghost are_least: { AreLeast (G.basis strip.graph.now).arch.tracks lasts.now least_lasts.now },
    ghost four: { 4 ≤ length pins.now },
    ghost few_pins: { All (λ bound. bound ≤ 19000) pins.now },
    ghost few_lasts: { All (λ bound. bound ≤ 20000) lasts.now },
    ghost lasts_long: { length lasts.now ≡ 4 * (G.basis strip.graph.now).arch.tracks },
    ghost bounded: { HaveBounds (G.basis strip.graph.now) (C.costs costs.now) sink pins.now
        lasts.now },
    ghost are_pins: { ArePins (G.basis strip.graph.now)
        (record { source = source; sink = sink }) shown.now },
    ghost are_prices: { ArePrices (G.basis strip.graph.now) (C.costs costs.now) prices.now },
    ghost are_by_place: { AreByPlace (G.basis strip.graph.now) (C.costs costs.now) by_place.now },
    ghost top_far: { AreFars (G.basis strip.graph.now) sink 0 to_top.now },
    ghost bottom_far: { AreFars (G.basis strip.graph.now) sink 1 to_bottom.now },
    ghost right_far: { AreFars (G.basis strip.graph.now) sink 2 to_right.now },
    ghost left_far: { AreFars (G.basis strip.graph.now) sink 3 to_left.now },
    ghost are_own_sides: { AreSides (G.basis strip.graph.now) source own_sides.now },
    ghost are_arrivals: { AreArrivals (G.basis strip.graph.now) sink arrivals.now
        first_arrivals.now },
    ghost have_ends: { HaveEnds (planes_of (G.basis strip.graph.now) (C.costs costs.now) starts.now
        goal (record { source = source; sink = sink })) pin_ends.now shown.now },
    ghost back_is: { back ≡ 2 * stride_of (G.basis strip.graph.now) },
    ghost counted: { C.count costs.now ≡ (graph_of (G.basis strip.graph.now)).count },
}

/// What consists of planes.
pub trait HasFamily {
    ghost use Rattle.plane_search.specs.Planes.{Family};

    // The planes, track by track.
    ghost family: { Self → Family };
}

impl<'a, G: StripGraph, C: NodeCosts> HasFamily for NetPlanes<'a, G, C> {
    ghost family = { λ p. planes_of (G.basis p.strip.graph.now) (C.costs p.costs.now) p.starts.now
        p.goal (record { source = p.source; sink = p.sink }) };
}

impl<'a, G: StripGraph, C: NodeCosts> NetPlanes<'a, G, C> {
    /// The side whose wires are at a place.
    pub(crate) fn side_of(&self, place: usize) -> Option<Side>
        ensures none { IfNone result ((side : ℕ) → side < 4 →
            slice_index self.now.sides.now side ≡ place → ⊥) }
        ensures found { IfSome result (λ side. slice_index self.now.sides.now side.number ≡ place) }
    {
        for number in 0..4 {
            if self.sides[number] == place {
                return Some(Side { number });
            }
        }
        None
    }

    /// The pin that is shown at a place.
    pub(crate) fn pin_at(&self, place: usize) -> Option<PinAt>
        ensures found { IfSome result (λ pin. Contains self.now.shown.now pin
            × (pin.place ≡ place)) }
        ensures none { IfNone result ((k : ℕ) (d : PinAt) → k < length self.now.shown.now →
            (slice_index_or self.now.shown.now k d).place ≡ place → ⊥) }
    {
        for pin in self.shown {
            if pin.place == place {
                return Some(*pin);
            }
        }
        None
    }

    /// The number of the pin that is shown at a place.
    pub(crate) fn pin_number(&self, place: usize) -> Option<usize>
        ensures found { IfSome result (λ number. (pin : PinAt) × Contains self.now.shown.now pin
            × (pin.place ≡ place) × (pin.number ≡ number)) }
        ensures none { IfNone result ((k : ℕ) (d : PinAt) → k < length self.now.shown.now →
            (slice_index_or self.now.shown.now k d).place ≡ place → ⊥) }
    {
        match self.pin_at(place) {
            Some(pin) => Some(pin.number),
            None => None,
        }
    }
}
