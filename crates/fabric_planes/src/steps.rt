//! The steps from wires to the wires that they meet.
ghost use Rattle.std.specs.Prelude.{◌≡◌, ◌↔◌, ◌+◌, ◌<◌, ◌≤◌, Some, IsTrue, IfOk, OnOk, length, slice_get};
ghost use Rattle.fabric_planes.specs.Layout.{place_count};
ghost use Rattle.fabric_planes.specs.Steps.{AreStepsBelow, KeepsRows};
ghost use Rattle.fabric_planes.specs.Tables.{IsFirstAt, AreFirsts};

use crate::ends::View;
use crate::layout::NO_WIRE;
use crate::shaped_graph::ShapedGraph;
use rows::Rows;
use rr_graph::{Node, StripGraph};
use std::alloc::{AllocError, Global};

/// In a table of classes: no wire is here.
pub(crate) const NO_CLASS: u16 = u16::MAX;

/// Whether the lists have the same numbers.
fn is_same(list: &[u32], other: &[u32]) -> bool
    ensures { IsTrue result ↔ (list.now ≡ other.now) }
{
    list == other
}

/// The number of the row with these numbers. It is added if there is none.
fn number_of(rows: &mut Rows, list: &[u32]) -> Result<usize, AllocError>
    ensures kept { OnOk result (KeepsRows rows.old rows.new) }
    ensures few { OnOk result (length rows.new ≤ length rows.old + 1) }
    ensures row { IfOk result (λ number. slice_get rows.new number ≡ Some list.now) }
{
    for number in 0..rows.len() {
        if is_same(rows.row(number), list) {
            return Ok(number);
        }
    }
    let number = rows.len();
    rows.push(list)?;
    Ok(number)
}

/// A strip's graph, with the number of the first wire of each place.
#[derive(Drop)]
pub(crate) struct FirstWires<'a, G: StripGraph> {
    pub(crate) shaped: &'a ShapedGraph<'a, G>,
    pub(crate) firsts: &'a [u32],
    ghost are_firsts: { AreFirsts (G.basis shaped.now.graph.now) firsts.now },
}

/// The steps from wires to the wires that they meet. They are made once for a graph.
#[derive(Drop)]
pub struct Steps {
    /// For each place the class of its wires: the number of their row.
    pub(crate) classes: Vec<u16>,
    /// For each class the places of the wires that a wire meets, less the place two columns before
    /// its own.
    pub(crate) rows: Rows,
}

impl Steps {
    ghost use Rattle.fabric_planes.specs.Steps.{AreSteps};

    /// Sets the class of the wires at a place, by the first of them. Wires between the second
    /// column and the last one have the class of the wires one column before.
    fn set_class<G: StripGraph>(
        &mut self,
        shaped: &ShapedGraph<'_, G>,
        place: usize,
        first: usize,
        list: &mut Vec<u32>,
    ) -> Result<(), AllocError>
        requires first { IsFirstAt (G.basis shaped.now.graph.now) place first }
        requires below { AreStepsBelow (G.basis shaped.now.graph.now) place self.old }
        ensures { OnOk result (AreStepsBelow (G.basis shaped.now.graph.now) (place + 1)
            self.new) }
    {
        let (graph, shape) = (shaped.graph, shaped.shape);
        graph.laws();
        let wire = graph.node(first);
        if 2 < wire.x && wire.x < shape.width {
            self.classes[place] = self.classes[place - shape.stride()];
            return Ok(());
        }
        // No pin that the wire meets is in that column.
        let node = Node {
            x: wire.x + 2,
            ..wire
        };
        list.clear();
        shaped.add_ends(list, View { track: 0, node }, first)?;
        self.classes[place] = number_of(&mut self.rows, list)? as u16;
        Ok(())
    }

    /// Sets the class of the wires at a place, if there are wires.
    fn add<G: StripGraph>(
        &mut self,
        wires: &FirstWires<'_, G>,
        place: usize,
        list: &mut Vec<u32>,
    ) -> Result<(), AllocError>
        requires place { place < place_count (G.basis wires.now.shaped.now.graph.now) }
        requires below { AreStepsBelow (G.basis wires.now.shaped.now.graph.now) place self.old }
        ensures { OnOk result (AreStepsBelow (G.basis wires.now.shaped.now.graph.now) (place + 1)
            self.new) }
    {
        let shaped = wires.shaped;
        shaped.graph.laws();
        let first = wires.firsts[place];
        if first == NO_WIRE {
            return Ok(());
        }
        self.set_class(shaped, place, first as usize, list)
    }

    /// The steps of a strip's wires.
    pub(crate) fn new<G: StripGraph>(
        alloc: Global,
        wires: &FirstWires<'_, G>,
    ) -> Result<Self, AllocError>
        ensures { IfOk result (λ steps. AreSteps (G.basis wires.now.shaped.now.graph.now) steps) }
    {
        let shape = wires.shaped.shape;
        let mut list = Vec::new(alloc);
        let mut steps = Steps {
            classes: Vec::from_elem(alloc, NO_CLASS, shape.places())?,
            rows: Rows::new(alloc),
        };
        for place in 0..shape.places() {
            steps.add(wires, place, &mut list)?;
        }
        Ok(steps)
    }
}
