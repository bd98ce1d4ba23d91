//! The prices of a strip's wires, track by track and place by place.
ghost use Rattle.std.specs.Prelude.{◌≡◌, ◌+◌, ◌*◌, ◌<◌, ℕ, All, IfOk, IfSome, IfNone};
ghost use Rattle.fabric_planes.specs.Prelude.{IsWire, Basis, graph_of};
ghost use Rattle.fabric_planes.specs.Laid.{IsLayout};
ghost use Rattle.fabric_planes.specs.Pins.{ArePrices, AreByPlace};
ghost use Rattle.fabric_planes.specs.Prices.{IsSpot, IsPrice, IsPriceSet, IsRepriced, IsWireOn, AgreeBut, AreByPlaceBut, ComesFrom, HasPrices, HasRoom, HasRoomByPlace};
ghost use Rattle.fabric_planes.specs.Tables.{IsFirstAt};

use crate::costs::NodeCosts;
use crate::layout::{Layout, NO_WIRE};
use crate::strip_planes::StripPlanes;
use crate::untold_prices::untold_prices;
use rr_graph::{NodeKind, StripGraph};
use std::alloc::{AllocError, Global};

/// In a table of prices: the cost is not told.
const UNTOLD: u8 = 255;

/// The price for a cost: the cost itself if it is small.
#[inline(always)]
fn price_for(cost: u64) -> u8
    ensures { IsPrice cost result }
{
    cost.min(UNTOLD as u64) as u8
}

/// The indexes of a wire's price in the two tables.
#[derive(Clone, Copy)]
struct PriceAt {
    by_track: usize,
    by_place: usize,
}

impl<'a, G: StripGraph> StripPlanes<'a, G> {
    /// Where the price of a node is; `None` if the node is no wire.
    #[inline(always)]
    fn spot_of(&self, number: usize) -> Option<PriceAt>
        requires { number < (graph_of (G.basis self.now.graph.now)).count }
        ensures wire { IfSome result (λ spot. IsSpot (G.basis self.now.graph.now) number spot) }
        ensures none { IfNone result
            (IsWire ((graph_of (G.basis self.now.graph.now)).node number).kind → ⊥) }
    {
        let (graph, layout) = (self.graph, self.layout);
        graph.laws();
        let node = graph.node(number);
        match node.kind {
            NodeKind::ChanX | NodeKind::ChanY => {
                let place = layout.shape.place(node);
                let (track, tracks) = (node.n as usize, layout.shape.tracks as usize);
                let places = layout.firsts.as_slice().len();
                Some(PriceAt {
                    by_track: track * places + place,
                    by_place: place * tracks + track,
                })
            }
            _ => None,
        }
    }

    /// Where the price of the wire of a track at a place is.
    #[inline(always)]
    fn spot_at(&self, track: usize, place: usize) -> PriceAt
        requires { (number : ℕ) × IsWireOn (G.basis self.now.graph.now) place track number }
        ensures { (number : ℕ) → IsWireOn (G.basis self.now.graph.now) place track number →
            IsSpot (G.basis self.now.graph.now) number result }
    {
        let (graph, shape) = (self.graph, self.layout.shape);
        graph.laws();
        PriceAt {
            by_track: track * shape.places() + place,
            by_place: place * shape.tracks as usize + track,
        }
    }
}

/// Sets the price of a node, if it is a wire.
#[inline(always)]
fn set_price<'a, G: StripGraph, C: NodeCosts>(
    prices: &mut Vec<u8>,
    by_place: &mut Vec<u8>,
    graph: &'a G,
    layout: &'a Layout,
    costs: &C,
    number: usize,
)
    requires laid { IsLayout (G.basis graph.now) layout.now }
    requires counted { C.count costs.now ≡ (graph_of (G.basis graph.now)).count }
    requires within { number < (graph_of (G.basis graph.now)).count }
    requires long { HasRoom (G.basis graph.now) prices.old.items }
    requires long_by_place { HasRoomByPlace (G.basis graph.now) by_place.old.items }
    ensures { IsRepriced (G.basis graph.now) (C.costs costs.now number) number prices.old.items
        prices.new.items by_place.old.items by_place.new.items }
{
    let strip = StripPlanes { graph, layout };
    if let Some(spot) = strip.spot_of(number) {
        let price = price_for(costs.cost(number));
        prices[spot.by_track] = price;
        by_place[spot.by_place] = price;
    }
}

/// A strip's planes, with the costs of its nodes.
#[derive(Drop)]
struct CostedPlanes<'a, G: StripGraph, C: NodeCosts> {
    strip: StripPlanes<'a, G>,
    costs: &'a C,
    ghost counted: { C.count costs.now ≡ (graph_of (G.basis strip.graph.now)).count },
}

impl<'a, G: StripGraph, C: NodeCosts> CostedPlanes<'a, G, C> {
    /// Sets the price of the wire of a track at a place.
    #[inline(always)]
    fn price_wire(&self, prices: &mut Vec<u8>, by_place: &mut Vec<u8>, place: usize, track: usize)
        requires there { (number : ℕ) × IsWireOn (G.basis self.now.strip.graph.now) place track
            number }
        requires long { HasRoom (G.basis self.now.strip.graph.now) prices.old.items }
        requires long_by_place { HasRoomByPlace (G.basis self.now.strip.graph.now)
            by_place.old.items }
        ensures { (number : ℕ) → IsWireOn (G.basis self.now.strip.graph.now) place track number →
            IsPriceSet (G.basis self.now.strip.graph.now) (C.costs self.now.costs.now number) number
            prices.old.items prices.new.items by_place.old.items by_place.new.items }
    {
        let strip = &self.strip;
        strip.graph.laws();
        let spot = strip.spot_at(track, place);
        let price = price_for(self.costs.cost(strip.wire_number(track, place)));
        prices[spot.by_track] = price;
        by_place[spot.by_place] = price;
    }

    /// Sets the prices of the wires at a place that has some.
    fn price_place(&self, prices: &mut Vec<u8>, by_place: &mut Vec<u8>, place: usize)
        requires there { (first : ℕ) × IsFirstAt (G.basis self.now.strip.graph.now) place first }
        requires told { ArePrices (G.basis self.now.strip.graph.now) (C.costs self.now.costs.now)
            prices.old.items }
        requires low { AreByPlaceBut (G.basis self.now.strip.graph.now) (C.costs self.now.costs.now)
            (ComesFrom (G.basis self.now.strip.graph.now) place 0) by_place.old.items }
        ensures told { ArePrices (G.basis self.now.strip.graph.now) (C.costs self.now.costs.now)
            prices.new.items }
        ensures low { AreByPlaceBut (G.basis self.now.strip.graph.now) (C.costs self.now.costs.now)
            (ComesFrom (G.basis self.now.strip.graph.now) (place + 1) 0) by_place.new.items }
    {
        self.strip.graph.laws();
        for track in 0..self.strip.layout.shape.tracks as usize {
            self.price_wire(prices, by_place, place, track);
        }
    }

    /// Sets the prices of all wires.
    fn price_all(&self, prices: &mut Vec<u8>, by_place: &mut Vec<u8>)
        requires before { ArePrices (G.basis self.now.strip.graph.now) (C.costs self.now.costs.now)
            prices.old.items }
        requires long_by_place { HasRoomByPlace (G.basis self.now.strip.graph.now)
            by_place.old.items }
        ensures told { ArePrices (G.basis self.now.strip.graph.now) (C.costs self.now.costs.now)
            prices.new.items }
        ensures low { AreByPlace (G.basis self.now.strip.graph.now) (C.costs self.now.costs.now)
            by_place.new.items }
    {
        self.strip.graph.laws();
        let firsts = self.strip.layout.firsts.as_slice();
        for place in 0..firsts.len() {
            if firsts[place] != NO_WIRE {
                self.price_place(prices, by_place, place);
            }
        }
    }

    /// Sets the prices of these nodes.
    fn set_prices(&self, prices: &mut Vec<u8>, by_place: &mut Vec<u8>, nodes: &[usize])
        requires within { All (λ node. node < (graph_of (G.basis self.now.strip.graph.now)).count)
            nodes.now }
        requires before { (old : ℕ → ℕ)
            × ArePrices (G.basis self.now.strip.graph.now) old prices.old.items
            × AreByPlace (G.basis self.now.strip.graph.now) old by_place.old.items
            × AgreeBut (G.basis self.now.strip.graph.now) old (C.costs self.now.costs.now)
            nodes.now }
        ensures told { ArePrices (G.basis self.now.strip.graph.now) (C.costs self.now.costs.now)
            prices.new.items }
        ensures low { AreByPlace (G.basis self.now.strip.graph.now) (C.costs self.now.costs.now)
            by_place.new.items }
    {
        let (graph, layout, costs) = (self.strip.graph, self.strip.layout, self.costs);
        graph.laws();
        for node in nodes {
            set_price(prices, by_place, graph, layout, costs, *node);
        }
    }
}

/// The prices of a strip's wires, track by track and place by place: those that cost less than 255.
#[derive(Drop)]
pub struct PriceTable {
    pub(crate) prices: Vec<u8>,
    pub(crate) by_place: Vec<u8>,
}

impl PriceTable {
    /// The prices at these costs.
    pub fn new<'a, G: StripGraph, C: NodeCosts>(
        alloc: Global,
        graph: &'a G,
        layout: &'a Layout,
        costs: &'a C,
    ) -> Result<Self, AllocError>
        requires laid { IsLayout (G.basis graph.now) layout.now }
        requires counted { C.count costs.now ≡ (graph_of (G.basis graph.now)).count }
        ensures { IfOk result (λ table. HasPrices (G.basis graph.now) (C.costs costs.now) table) }
    {
        graph.laws();
        let mut prices = untold_prices(alloc, layout.shape)?;
        let mut by_place = untold_prices(alloc, layout.shape)?;
        let strip = StripPlanes { graph, layout };
        let costed = CostedPlanes { strip, costs };
        costed.price_all(&mut prices, &mut by_place);
        Ok(PriceTable { prices, by_place })
    }

    /// Updates the prices of these nodes, the only ones whose costs may have changed.
    pub fn update<'a, G: StripGraph, C: NodeCosts>(
        &mut self,
        graph: &'a G,
        layout: &'a Layout,
        costs: &'a C,
        nodes: &[usize],
    )
        requires laid { IsLayout (G.basis graph.now) layout.now }
        requires counted { C.count costs.now ≡ (graph_of (G.basis graph.now)).count }
        requires within { All (λ node. node < (graph_of (G.basis graph.now)).count) nodes.now }
        requires before { (old : ℕ → ℕ) × HasPrices (G.basis graph.now) old self.old
            × AgreeBut (G.basis graph.now) old (C.costs costs.now) nodes.now }
        ensures { HasPrices (G.basis graph.now) (C.costs costs.now) self.new }
    {
        let strip = StripPlanes { graph, layout };
        let costed = CostedPlanes { strip, costs };
        let (prices, by_place) = (&mut self.prices, &mut self.by_place);
        costed.set_prices(prices, by_place, nodes);
    }

    /// The prices, track by track; 255 for those that are not told.
    #[inline(always)]
    pub fn as_slice(&self) -> &[u8]
        ensures { (basis : Basis) (cost : ℕ → ℕ) → HasPrices basis cost self.now →
            ArePrices basis cost result.now }
    {
        self.prices.as_slice()
    }

    /// The prices, place by place, as far as they are counted: none is more than the cost.
    #[inline(always)]
    pub fn by_place(&self) -> &[u8]
        ensures { (basis : Basis) (cost : ℕ → ℕ) → HasPrices basis cost self.now →
            AreByPlace basis cost result.now }
    {
        self.by_place.as_slice()
    }
}
