//! Lower bounds of the costs of the last wires and the pins before a sink.
ghost use Rattle.std.specs.Prelude.{All, ◌≡◌, ◌+◌, ◌*◌, ◌^◌, ◌<◌, ◌≤◌, ℕ, true, length, slice_index, OnOk};
ghost use Rattle.fabric_planes.specs.Prelude.{is_block_row, graph_of};
ghost use Rattle.fabric_planes.specs.Aheads.{AreLeast, AreSides};
ghost use Rattle.fabric_planes.specs.SideBounds.{AreFew, AreLow, AreNoDearer, ArePinBounds, AreSidesBounded, AreWiresBounded, IsLowFor, IsSideBounded, by_side};

use crate::costs::NodeCosts;
use crate::pin_bounds::PinBounds;
use crate::priced_graph::PricedGraph;
use crate::side::Side;
use arch_file::Sides;
use rr_graph::{Node, NodeKind, StripGraph, is_together, sides_at};
use std::alloc::{AllocError, Global};

/// The most that the cost of a pin or of a wire counts in these bounds.
pub(crate) const DEAR: u64 = 19000;

/// A bound above those of all wires: there is no wire.
const APART: u16 = 20000;

/// The cost, as far as it counts.
fn counted(cost: u64) -> u16
    ensures low { result ≤ cost }
    ensures few { result ≤ 19000 }
{
    cost.min(DEAR) as u16
}

impl<'a, G: StripGraph, C: NodeCosts> PricedGraph<'a, G, C> {
    /// The bounds with the pin of this number on these sides.
    #[inline(always)]
    fn with_pin(&self, pins: PinBounds, number: usize, sides: Sides) -> PinBounds
        requires within { number < (graph_of (G.basis self.now.graph.now)).count }
        requires few { AreFew pins }
        ensures few { AreFew result }
        ensures falls { AreNoDearer result pins }
        ensures low { AreLow sides result (C.costs self.now.costs.now number) }
    {
        pins.with(sides, counted(self.costs.cost(number)))
    }

    /// The bounds with the pin of this number, if it is one of the sink's block or pad.
    fn with_own(&self, pins: PinBounds, number: usize, sink: Node) -> PinBounds
        requires within { number < (graph_of (G.basis self.now.graph.now)).count }
        requires few { AreFew pins }
        ensures few { AreFew result }
        ensures falls { AreNoDearer result pins }
        ensures low { IsLowFor (G.basis self.now.graph.now) (C.costs self.now.costs.now) sink result
            number }
    {
        let graph = self.graph;
        graph.laws();
        let pin = graph.node(number);
        if !is_together(graph.strip(), pin, sink) {
            return pins;
        }
        self.with_pin(pins, number, sides_at(graph.arch(), graph.strip(), pin))
    }

    /// Lower bounds of the costs of a pad's pins.
    fn pad_bounds(&self, sink: Node) -> PinBounds
        ensures few { AreFew result }
        ensures low { ArePinBounds (G.basis self.now.graph.now) (C.costs self.now.costs.now) sink
            result }
    {
        let graph = self.graph;
        graph.laws();
        let mut pins = PinBounds::most();
        let numbers = graph.numbers_at(NodeKind::Ipin, sink.x, sink.y);
        for number in numbers.first..numbers.end {
            pins = self.with_own(pins, number, sink);
        }
        pins
    }

    /// Lower bounds of the costs of a logic block's pins.
    fn block_bounds(&self, sink: Node) -> PinBounds
        requires { is_block_row (G.basis self.now.graph.now).strip sink.y ≡ true }
        ensures few { AreFew result }
        ensures low { ArePinBounds (G.basis self.now.graph.now) (C.costs self.now.costs.now) sink
            result }
    {
        let graph = self.graph;
        graph.laws();
        let inputs = self.layout.inputs.as_slice();
        let mut pins = PinBounds::most();
        let numbers = graph.numbers_at(NodeKind::Ipin, sink.x, sink.y);
        for number in numbers.first..numbers.end {
            pins = self.with_pin(pins, number, inputs[number - numbers.first]);
        }
        pins
    }

    /// Lower bounds of the costs of a sink's pins.
    fn pin_bounds(&self, sink: Node) -> PinBounds
        ensures few { AreFew result }
        ensures low { ArePinBounds (G.basis self.now.graph.now) (C.costs self.now.costs.now) sink
            result }
    {
        let graph = self.graph;
        if 1 <= sink.y && sink.y <= graph.strip().rows {
            self.block_bounds(sink)
        } else {
            self.pad_bounds(sink)
        }
    }
}

/// Lists the bounds of some wires, from an index on: the price of each, and that of a pin.
fn bound_wires(lasts: &mut [u16], first: usize, prices: &[u8], pin: u16)
    requires within { first + length prices.now ≤ length lasts.old }
    requires few { pin ≤ 19000 }
    ensures { AreWiresBounded first prices.now (length prices.now) pin lasts.old lasts.new }
{
    for track in 0..prices.len() {
        lasts[first + track] = prices[track] as u16 + pin;
    }
}

/// The prices of a strip's wires, place by place.
#[derive(Drop)]
struct WirePrices<'a> {
    tracks: usize,
    places: usize,
    by_place: &'a [u8],
    ghost few: { tracks ≤ 64 },
    ghost long: { length by_place.now ≡ places * tracks },
}

impl WirePrices<'_> {
    /// Lists the bounds of the wires at one side, whose place is given. `pin` is the bound of the
    /// pins there.
    fn bound_side(&self, lasts: &mut [u16], side: Side, place: usize, pin: u16)
        requires long { length lasts.old ≡ 4 * self.now.tracks }
        requires place { place < 2 ^ 20 }
        requires few { pin ≤ 19000 }
        ensures { IsSideBounded self.now.tracks side.number place self.now.by_place.now pin
            lasts.old lasts.new }
    {
        let (tracks, by_place) = (self.tracks, self.by_place);
        let first = place * tracks;
        if first < by_place.len() {
            bound_wires(
                lasts,
                side.number * tracks,
                &by_place[first..first + tracks],
                pin,
            );
        }
    }

    /// Lists the bounds of the wires at all sides of the sink's block or pad.
    fn bound_lasts(&self, lasts: &mut [u16], sides: &[usize], pins: PinBounds)
        requires long { length lasts.old ≡ 4 * self.now.tracks }
        requires dear { All (λ bound. bound ≤ 20000) lasts.old }
        requires sides { length sides.now ≡ 4 }
        requires places { All (λ place. place < 2 ^ 20) sides.now }
        requires few { AreFew pins }
        ensures { AreSidesBounded self.now.tracks sides.now self.now.by_place.now (by_side pins) 4
            lasts.new }
    {
        self.bound_side(lasts, Side { number: 0 }, sides[0], pins.top);
        self.bound_side(lasts, Side { number: 1 }, sides[1], pins.bottom);
        self.bound_side(lasts, Side { number: 2 }, sides[2], pins.right);
        self.bound_side(lasts, Side { number: 3 }, sides[3], pins.left);
    }
}

/// Lower bounds of the costs of the last wires and the pins before a sink.
#[derive(Drop)]
pub(crate) struct SideBounds {
    /// For each side a lower bound of the costs of the pins there.
    pub(crate) pins: Vec<u16>,
    /// For each side and track a lower bound of the cost of the wire there and a pin.
    pub(crate) lasts: Vec<u16>,
    /// For each track the least of these bounds.
    pub(crate) least_lasts: Vec<u16>,
}

/// The least of the four bounds of a track.
fn least_of(lasts: &[u16], tracks: usize, track: usize) -> u16
    requires long { length lasts.now ≡ 4 * tracks }
    requires track { track < tracks }
    ensures { (side : ℕ) → side < 4 → result ≤ slice_index lasts.now (side * tracks + track) }
{
    let top = lasts[track];
    let bottom = lasts[tracks + track];
    let right = lasts[2 * tracks + track];
    let left = lasts[3 * tracks + track];
    top.min(bottom).min(right.min(left))
}

/// Sets the least of the four bounds of each track.
fn set_leasts(tracks: usize, lasts: &[u16], leasts: &mut [u16])
    requires long { length lasts.now ≡ 4 * tracks }
    requires leasts { length leasts.old ≡ tracks }
    ensures { AreLeast tracks lasts.now leasts.new }
{
    for track in 0..tracks {
        leasts[track] = least_of(lasts, tracks, track);
    }
}

/// Lists the least of the four bounds of each track.
fn list_leasts(tracks: usize, lasts: &[u16], leasts: &mut Vec<u16>) -> Result<(), AllocError>
    requires { length lasts.now ≡ 4 * tracks }
    ensures { OnOk result (AreLeast tracks lasts.now leasts.new.items) }
{
    leasts.clear();
    leasts.resize(tracks, APART)?;
    set_leasts(tracks, lasts, leasts.as_mut_slice());
    Ok(())
}

impl SideBounds {
    ghost use Rattle.fabric_planes.specs.SideBounds.{AreBounds};

    /// No bounds yet.
    pub(crate) fn new(alloc: Global) -> Self {
        SideBounds {
            pins: Vec::new(alloc),
            lasts: Vec::new(alloc),
            least_lasts: Vec::new(alloc),
        }
    }

    /// Replaces the bounds by those of a sink. `sides` are the places of the wires at its sides.
    pub(crate) fn fill<G: StripGraph, C: NodeCosts>(
        &mut self,
        priced: &PricedGraph<'_, G, C>,
        sink: Node,
        sides: &[usize],
    ) -> Result<(), AllocError>
        requires sides { AreSides (G.basis priced.now.graph.now) sink sides.now }
        requires few { All (λ place. place < 2 ^ 20) sides.now }
        ensures { OnOk result (AreBounds (G.basis priced.now.graph.now)
            (C.costs priced.now.costs.now) sink self.new) }
    {
        priced.graph.laws();
        let pins = priced.pin_bounds(sink);
        self.pins.clear();
        self.pins
            .extend_from_slice(&[pins.top, pins.bottom, pins.right, pins.left])?;
        let tracks = priced.layout.shape.tracks as usize;
        let by_place = priced.prices.by_place();
        self.lasts.clear();
        self.lasts.resize(4 * tracks, APART)?;
        let lasts = self.lasts.as_mut_slice();
        let places = priced.layout.shape.places();
        let prices = WirePrices {
            tracks,
            places,
            by_place,
        };
        prices.bound_lasts(lasts, sides, pins);
        list_leasts(tracks, &self.lasts, &mut self.least_lasts)
    }
}
