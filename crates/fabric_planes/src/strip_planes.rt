//! The planes of a strip's graph, without a net.
ghost use Rattle.std.specs.Prelude.{◌≡◌, ◌+◌, ◌<◌, ◌≤◌, ◌^◌, ℕ};
ghost use Rattle.fabric_planes.specs.Prelude.{Basis, graph_of};
ghost use Rattle.fabric_planes.specs.Layout.{band_of, stride_of, place_count};
ghost use Rattle.fabric_planes.specs.Laid.{IsLayout, IsWireOf};
ghost use Rattle.fabric_planes.specs.Differences.{IsTarget, far_table, shift_of, target_offset};
ghost use Rattle.fabric_planes.specs.Ends.{row_of};
ghost use Rattle.fabric_planes.specs.Steps.{step_view};
ghost use Rattle.fabric_planes.specs.Fars.{AreFar};
ghost use Rattle.fabric_planes.specs.Tables.{IsFirstAt, IsShapeOf};

use crate::distances::Target;
use crate::layout::Layout;
use crate::shape::Shape;
use rr_graph::StripGraph;

/// What is added to differences of places, for a target.
fn shift_of(target: Target, band: usize) -> usize
    requires { band < 2 ^ 20 }
    ensures { result ≡ shift_of target band }
{
    match target {
        Target::Upright => 3 * band,
        Target::Level | Target::Block => band,
    }
}

/// The offset of a target's wires in their column.
fn target_offset(target: Target, shape: Shape) -> usize
    ensures few { result ≤ 638 }
    ensures value { (basis : Basis) → IsShapeOf basis shape → result ≡ target_offset basis target }
{
    match target {
        Target::Upright => shape.upright(),
        Target::Level | Target::Block => shape.level(),
    }
}

/// The planes of a strip's graph, without a net.
#[derive(Drop)]
pub(crate) struct StripPlanes<'a, G: StripGraph> {
    pub(crate) graph: &'a G,
    pub(crate) layout: &'a Layout,
    ghost laid: { IsLayout (G.basis graph.now) layout.now },
}

impl<'a, G: StripGraph> StripPlanes<'a, G> {
    /// The number of the wire of a track at a place.
    #[inline(always)]
    pub(crate) fn wire_number(&self, track: usize, place: usize) -> usize
        requires place { place < place_count (G.basis self.now.graph.now) }
        requires track { track < 64 }
        ensures { (number : ℕ) → IsWireOf (G.basis self.now.graph.now) place number →
            ((graph_of (G.basis self.now.graph.now)).node number).n ≡ track → result ≡ number }
    {
        self.graph.laws();
        self.layout.firsts[place] as usize + track
    }

    /// The steps of the wires at a place.
    #[inline(always)]
    pub(crate) fn steps(&self, place: usize) -> &[u32]
        requires { (first : ℕ) × IsFirstAt (G.basis self.now.graph.now) place first }
        ensures { (first : ℕ) → IsFirstAt (G.basis self.now.graph.now) place first →
            result.now ≡ row_of (G.basis self.now.graph.now)
            (step_view ((graph_of (G.basis self.now.graph.now)).node first)) first }
    {
        self.graph.laws();
        let steps = &self.layout.steps;
        steps.rows.row(steps.classes[place] as usize)
    }

    /// The table of the distances from a target.
    fn table_to(&self, target: Target) -> &'a [u8]
        ensures { result.now ≡ far_table target ((G.basis self.now.graph.now).strip.width + 3)
            (band_of (G.basis self.now.graph.now)) (stride_of (G.basis self.now.graph.now)) }
    {
        match target {
            Target::Level => self.layout.to_level.as_slice(),
            Target::Upright => self.layout.to_upright.as_slice(),
            Target::Block => self.layout.to_block.as_slice(),
        }
    }

    /// The distances of the wires of each place from a target in a column and row.
    pub(crate) fn distances(&self, target: Target, x: u32, y: u32) -> &'a [u8]
        requires { IsTarget (G.basis self.now.graph.now) target x y }
        ensures { AreFar (G.basis self.now.graph.now) target x y result.now }
    {
        self.graph.laws();
        let shape = self.layout.shape;
        let place = shape.column(x) + (target_offset(target, shape) + y as usize);
        let places = shape.places();
        let table = self.table_to(target);
        let shift = shift_of(target, shape.band());
        let first = places + shift - place;
        &table[first..first + places]
    }
}
