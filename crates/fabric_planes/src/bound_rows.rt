//! Rows of lower bounds: for each track what ways from an output pin cost at least.
ghost use Rattle.std.specs.Prelude.{◌≡◌, ◌+◌, ◌*◌, ◌<◌, ◌≤◌, ℕ, All, [], ◌∷◌, length, slice_index, true, false};
ghost use Rattle.fabric_planes.specs.Prelude.{Node};
ghost use Rattle.fabric_planes.specs.Bounds.{AreLimits, AreLowered, IsMetAt, IsOutput, IsWireBound};
ghost use Rattle.fabric_planes.specs.RivalBounds.{AreOver, IsLead};
ghost use Rattle.fabric_planes.specs.BoundRows.{AreFarSides, IsFarRow, IsNearRow, far_list};
ghost use Rattle.fabric_planes.specs.Layout.{place_count};

use crate::costs::NodeCosts;
use crate::layout::NO_WIRE;
use crate::net_planes::{HasFamily, NetPlanes};
use crate::rival_bounds::{Known, Lead};
use crate::side::Side;
use rr_graph::StripGraph;

/// At most the wires from a place up to the sides of a sink's block or pad.
#[derive(Clone, Copy)]
pub(crate) struct FarSides {
    pub(crate) top: u16,
    pub(crate) bottom: u16,
    pub(crate) right: u16,
    pub(crate) left: u16,
}

/// The first tracks' wires at a place that is at no side of the sink's block or pad.
#[derive(Drop)]
struct FarWires<'a> {
    /// What the wires cost at least.
    costs: &'a [u8],
    /// A large number for the wires that the pin doesn't meet.
    apart: &'a [u16],
    /// The bounds of the last wires and the pins, side by side.
    lasts: &'a [u16],
    far: FarSides,
    /// What the pin costs at least.
    more: u16,
    ghost same: { length apart.now ≡ length costs.now },
    ghost few: { All (λ bound. bound ≤ 20000) apart.now },
    ghost four: { length lasts.now ≡ 4 * length costs.now },
    ghost few_lasts: { All (λ bound. bound ≤ 20000) lasts.now },
    ghost few_far: { AreFarSides far },
    ghost few_more: { more ≤ 10000 },
}

impl FarWires<'_> {
    /// Lowers the bounds of the first tracks to what a way over their wires costs at least.
    #[inline(always)]
    fn lower(&self, bounds: &mut [u16], count: usize)
        requires tracks { count ≤ length self.now.costs.now }
        requires bounds { count ≤ length bounds.old }
        ensures falls { AreLowered bounds.old bounds.new }
        ensures row { IsFarRow self.now.costs.now self.now.apart.now self.now.lasts.now
            self.now.far self.now.more (length self.now.costs.now) count bounds.new }
    {
        let (costs, apart, lasts) = (self.costs, self.apart, self.lasts);
        let (far, more, tracks) = (self.far, self.more, costs.len());
        let (top, bottom) = (&lasts[..tracks], &lasts[tracks..2 * tracks]);
        let (right, left) = (
            &lasts[2 * tracks..3 * tracks],
            &lasts[3 * tracks..4 * tracks],
        );
        for track in 0..count {
            let level = (top[track] + far.top).min(bottom[track] + far.bottom);
            let upright = (right[track] + far.right).min(left[track] + far.left);
            let sum = level.min(upright) + costs[track] as u16 + apart[track] + more;
            bounds[track] = bounds[track].min(sum);
        }
    }
}

/// The first tracks' wires at a place that is at a side of the sink's block or pad.
#[derive(Drop)]
struct NearWires<'a> {
    /// What the wires cost at least.
    costs: &'a [u8],
    /// A large number for the wires that the pin doesn't meet.
    apart: &'a [u16],
    /// The least bounds of a last wire and a pin.
    leasts: &'a [u16],
    /// The bound of the sink's pins at that side.
    pin: u16,
    /// What the output pin costs at least.
    more: u16,
    ghost same: { length apart.now ≡ length costs.now },
    ghost few: { All (λ bound. bound ≤ 20000) apart.now },
    ghost long: { length leasts.now ≡ length costs.now },
    ghost few_pin: { pin ≤ 19000 },
    ghost few_more: { more ≤ 10000 },
}

impl NearWires<'_> {
    /// Lowers the bounds of the first tracks to what a way over their wires costs at least.
    #[inline(always)]
    fn lower(&self, bounds: &mut [u16], count: usize)
        requires tracks { count ≤ length self.now.costs.now }
        requires bounds { count ≤ length bounds.old }
        ensures falls { AreLowered bounds.old bounds.new }
        ensures row { IsNearRow self.now.costs.now self.now.apart.now self.now.leasts.now
            self.now.pin self.now.more count bounds.new }
    {
        let (costs, apart, leasts) = (self.costs, self.apart, self.leasts);
        let (pin, more) = (self.pin, self.more);
        for track in 0..count {
            let least = pin.min(leasts[track]) + 1;
            let sum = least + costs[track] as u16 + apart[track] + more;
            bounds[track] = bounds[track].min(sum);
        }
    }
}

/// The least of the numbers, at most 20000.
fn least_of_all(numbers: &[u16]) -> u16
    ensures few { result ≤ 20000 }
    ensures low { (track : ℕ) → track < length numbers.now →
        result ≤ slice_index numbers.now track }
{
    let mut least = 20000;
    for track in 0..numbers.len() {
        least = least.min(numbers[track]);
    }
    least
}

/// What paths are to cost at most, and the least bound of a last wire and a pin.
#[derive(Clone, Copy)]
pub(crate) struct Limits {
    pub(crate) most: u64,
    pub(crate) least: u16,
}

impl<'a, G: StripGraph, C: NodeCosts> NetPlanes<'a, G, C> {
    /// The limits of a search for paths that cost at most this.
    pub(crate) fn limits(&self, most: u64) -> Limits
        ensures most { result.most ≡ most }
        ensures limits { AreLimits (G.basis self.now.strip.graph.now) self.now.least_lasts.now
            result }
    {
        Limits {
            most,
            least: least_of_all(self.least_lasts),
        }
    }

    /// At most the wires from a place up to the sides of the sink's block or pad.
    fn far_sides(&self, place: usize) -> FarSides
        requires { place < place_count (G.basis self.now.strip.graph.now) }
        ensures few { AreFarSides result }
        ensures value { far_list result ≡ slice_index self.now.to_top.now place
            ∷ slice_index self.now.to_bottom.now place ∷ slice_index self.now.to_right.now place
            ∷ slice_index self.now.to_left.now place ∷ [] }
    {
        FarSides {
            top: self.to_top[place] as u16,
            bottom: self.to_bottom[place] as u16,
            right: self.to_right[place] as u16,
            left: self.to_left[place] as u16,
        }
    }
}

impl<'a, G: StripGraph, C: NodeCosts> Known<'a, G, C> {
    /// Lowers the bounds of the first tracks by the paths over an output pin and the wires at a
    /// side of its block or pad.
    #[inline(never)]
    pub(crate) fn lower_over(&self, lead: Lead, side: Side, bounds: &mut [u16], count: usize)
        requires lead { IsLead (G.basis self.now.planes.now.strip.graph.now)
            self.now.planes.now.source lead }
        requires place { slice_index self.now.planes.now.own_sides.now side.number
            < place_count (G.basis self.now.planes.now.strip.graph.now) }
        requires tracks { count ≤ (G.basis self.now.planes.now.strip.graph.now).arch.tracks }
        requires bounds { count ≤ length bounds.old }
        ensures falls { AreLowered bounds.old bounds.new }
        ensures row { AreOver (G.basis self.now.planes.now.strip.graph.now) (C.costs
            self.now.planes.now.costs.now)
            (⟦<NetPlanes<'a, G, C> as HasFamily>⟧.family self.now.planes.now) lead side.number count
            bounds.new }
    {
        let planes = self.planes;
        planes.strip.graph.laws();
        let tracks = planes.strip.layout.shape.tracks as usize;
        let place = planes.own_sides[side.number];
        let costs = &planes.by_place[place * tracks..(place + 1) * tracks];
        let apart = planes.strip.apart(planes.strip.graph.node(lead.pin), side);
        match planes.side_of(place) {
            Some(end) => {
                let near = NearWires {
                    costs,
                    apart,
                    leasts: planes.least_lasts,
                    pin: planes.pins[end.number],
                    more: lead.more,
                };
                near.lower(bounds, count)
            }
            None => {
                let far = FarWires {
                    costs,
                    apart,
                    lasts: planes.lasts,
                    far: planes.far_sides(place),
                    more: lead.more,
                };
                far.lower(bounds, count)
            }
        }
    }

    /// Whether there are wires at a side of the source's block or pad from which ways may cost no
    /// more than the limit, if `more` is added.
    pub(crate) fn is_needed(&self, side: Side, more: u16) -> bool
        ensures place { result ≡ true → slice_index self.now.planes.now.own_sides.now side.number
            < place_count (G.basis self.now.planes.now.strip.graph.now) }
        ensures none { result ≡ false → (pin : Node) (wire : ℕ) →
            IsOutput (G.basis self.now.planes.now.strip.graph.now) self.now.planes.now.source pin →
            IsMetAt (G.basis self.now.planes.now.strip.graph.now) pin side.number wire →
            IsWireBound (G.basis self.now.planes.now.strip.graph.now) (C.costs
            self.now.planes.now.costs.now)
            (⟦<NetPlanes<'a, G, C> as HasFamily>⟧.family self.now.planes.now) more wire
            (self.now.limits.most + 1) }
    {
        let planes = self.planes;
        let limits = self.limits;
        planes.strip.graph.laws();
        let place = planes.own_sides[side.number];
        if place >= planes.strip.layout.shape.places()
            || planes.strip.layout.firsts[place] == NO_WIRE
        {
            return false;
        }
        let far = planes.aheads[place] as u64;
        far == 0 || more as u64 + 1 + far + limits.least as u64 <= limits.most
    }
}
