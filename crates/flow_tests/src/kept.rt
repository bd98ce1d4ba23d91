//! The starting places of blocks, if places are kept from another netlist.
ghost use Rattle.std.specs.Prelude.{IfSome};
ghost use Rattle.grid.specs.Sizes.{IsStripSize};
ghost use Rattle.strip_place.specs.Keeping.{AreKeptOn};

use crate::circuits::{packed_netlist, placed_anew, start_placing};
use cluster::SharedPacked;
use grid::Strip;
use std::alloc::Global;
use strip_place::{Kept, Placing, laws_of_kept};

/// Two columns of one row, with two pads at both ends of each.
const STRIP: Strip = Strip {
    width: 2,
    rows: 1,
    io_rat: 2,
};

/// The places of blocks, by column, row and number, in their order: pads of inputs, pads of
/// outputs, clusters.
type Places = &'static [(u32, u32, u32)];

/// A netlist whose places are kept, if there is one, a netlist in its place, and the places of its
/// blocks.
struct Change {
    before: Option<&'static str>,
    after: &'static str,
    places: Places,
}

const AND_OF_B_AND_C: &str = ".model t\n.inputs b a c\n.outputs f\n.names b c f\n11 1\n";

const CHANGES: [Change; 5] = [
    // Each takes the next place of its kind.
    Change {
        before: None,
        after: AND_OF_B_AND_C,
        places: &[(1, 0, 0), (1, 0, 1), (1, 2, 0), (1, 2, 1), (1, 1, 0)],
    },
    // Blocks with old names keep their places, in whatever order they come; the new one takes the
    // least that is free.
    Change {
        before: Some(".model t\n.inputs a b\n.outputs f\n.names a b f\n11 1\n"),
        after: AND_OF_B_AND_C,
        places: &[(1, 0, 1), (1, 0, 0), (1, 2, 1), (1, 2, 0), (1, 1, 0)],
    },
    // Inputs, outputs and clusters that exchange names exchange places.
    Change {
        before: Some(".model x\n.inputs a b\n.outputs f g\n.names a f\n1 1\n.names b g\n1 1\n"),
        after: ".model x\n.inputs b a\n.outputs g f\n.names b g\n1 1\n.names a f\n1 1\n",
        places: &[
            (1, 0, 1),
            (1, 0, 0),
            (1, 2, 1),
            (1, 2, 0),
            (2, 1, 0),
            (1, 1, 0),
        ],
    },
    // The new cluster comes first, and f keeps the place that it would take.
    Change {
        before: Some(".model k\n.inputs a\n.outputs f\n.names a f\n1 1\n"),
        after: ".model k\n.inputs a\n.outputs f\n.names a h\n1 1\n.names h f\n1 1\n",
        places: &[(1, 0, 0), (1, 0, 1), (2, 1, 0), (1, 1, 0)],
    },
    // The input f was above the column; the output f is another block, and takes the least free
    // pad.
    Change {
        before: Some(".model p\n.inputs a g f\n"),
        after: ".model p\n.inputs a\n.outputs f\n.names a f\n1 1\n",
        places: &[(1, 0, 0), (1, 0, 1), (1, 1, 0)],
    },
];

/// The places of a packed circuit at the start, to be kept.
fn kept_of(alloc: Global, packed: &SharedPacked, strip: Strip) -> Option<Kept>
    requires { IsStripSize strip }
    ensures { IfSome result (λ kept. AreKeptOn strip kept) }
{
    match placed_anew(alloc, packed, strip, 7, 0) {
        Some(placing) => {
            let kept = placing.to_kept_places(alloc);
            drop(placing);
            kept.ok()
        }
        None => None,
    }
}

/// The places kept from a netlist, if there is one.
fn kept_from(alloc: Global, before: Option<&str>, strip: Strip) -> Option<Kept>
    requires { IsStripSize strip }
    ensures { IfSome result (λ kept. AreKeptOn strip kept) }
{
    laws_of_kept();
    let Some(netlist) = before else {
        return Some(Kept::none());
    };
    match packed_netlist(alloc, netlist) {
        Some(packed) => {
            let kept = kept_of(alloc, &packed, strip);
            drop(packed);
            kept
        }
        None => None,
    }
}

/// Returns whether the blocks are on these places.
fn stand_on(placing: &Placing, places: &[(u32, u32, u32)]) -> bool {
    let count = placing.packed().block_count();
    if count != places.len() {
        return false;
    }
    for block in 0..count {
        let place = placing.place_of(block);
        if (place.x, place.y, place.subblock) != places[block] {
            return false;
        }
    }
    true
}

/// Returns whether a packed circuit's blocks are on these places at the start, with the kept
/// places.
fn start_on(alloc: Global, packed: &SharedPacked, strip: Strip, kept: &Kept, places: Places) -> bool
    requires size { IsStripSize strip }
    requires kept { AreKeptOn strip kept.now }
{
    match start_placing(alloc, packed, strip, kept, 7, 0) {
        Some(placing) => {
            let is_so = stand_on(&placing, places);
            drop(placing);
            is_so
        }
        None => false,
    }
}

/// Returns whether a netlist's blocks are on these places at the start, with the kept places.
fn keeps(alloc: Global, change: &Change, strip: Strip, kept: &Kept) -> bool
    requires size { IsStripSize strip }
    requires kept { AreKeptOn strip kept.now }
{
    match packed_netlist(alloc, change.after) {
        Some(packed) => {
            let is_so = start_on(alloc, &packed, strip, kept, change.places);
            drop(packed);
            is_so
        }
        None => false,
    }
}

/// Returns whether the blocks are on these places after the change.
fn is_so(alloc: Global, change: &Change) -> bool {
    match kept_from(alloc, change.before, STRIP) {
        Some(kept) => {
            let is_so = keeps(alloc, change, STRIP, &kept);
            drop(kept);
            is_so
        }
        None => false,
    }
}

/// The number of the first change after which they are elsewhere.
fn first_wrong(alloc: Global) -> Option<usize> {
    for (number, change) in CHANGES.iter().enumerate() {
        if !is_so(alloc, change) {
            return Some(number);
        }
    }
    None
}

#[test]
fn change_keeps_places(rt: HostRuntime) {
    assert_eq!(rt; first_wrong(rt.alloc()), None);
}
