//! The places of blocks after a pass, the number of passes, and the words that draws take.
ghost use Rattle.std.specs.Prelude.{◌≤◌};
ghost use Rattle.strip_place.specs.declared.placing.TheConstants.{MAX_EFFORT};
ghost use Rattle.grid.specs.Sizes.{IsStripSize};

use crate::circuits::{packed_netlist, placed_anew};
use cluster::SharedPacked;
use grid::{Place, Strip};
use rand_core::utils::NextWord;
use rand_pcg::Pcg32;
use std::alloc::Global;
use strip_place::{PassEnd, Placing};

/// A netlist of two blocks in one row, the place of the second after the first pass (the first
/// stays on the least place), and the number of passes.
struct Row {
    netlist: &'static str,
    width: u32,
    seed: u64,
    effort: u32,
    first: Place,
    second: Place,
    passes: u32,
}

const TWO_TABLES: &str = ".model m\n.names f\n1\n.names g\n1\n";

const TWO_PADS: &str = ".model m\n.inputs a\n.outputs a\n";

const ROWS: [Row; 3] = [
    // The first draw is of a block's own place; the second moves it, since that costs nothing. At
    // temperatures 5, 4, 3, 2, 1 and 0.
    Row {
        netlist: TWO_TABLES,
        width: 4,
        seed: 42,
        effort: 1,
        first: Place {
            x: 1,
            y: 1,
            subblock: 0,
        },
        second: Place {
            x: 4,
            y: 1,
            subblock: 0,
        },
        passes: 6,
    },
    // The second draw would cost 2, and the word is too large for it. At temperatures 2, 1 and 0.
    Row {
        netlist: TWO_PADS,
        width: 1,
        seed: 42,
        effort: 1,
        first: Place {
            x: 1,
            y: 0,
            subblock: 0,
        },
        second: Place {
            x: 1,
            y: 0,
            subblock: 1,
        },
        passes: 3,
    },
    // With effort 0 the starting places stay, and the passes are made.
    Row {
        netlist: TWO_PADS,
        width: 1,
        seed: 7,
        effort: 0,
        first: Place {
            x: 1,
            y: 0,
            subblock: 0,
        },
        second: Place {
            x: 1,
            y: 0,
            subblock: 1,
        },
        passes: 3,
    },
];

/// The number of passes, given the result of the first; 0 if there are 100 or more.
fn passes_from(placing: &mut Placing, first: PassEnd) -> u32 {
    let mut end = first;
    for count in 1..100 {
        if matches!(end, PassEnd::Last) {
            return count;
        }
        end = placing.pass();
    }
    0
}

/// Returns whether the two blocks are on the row's places after a pass, and the number of passes is
/// the row's.
fn passes_so(placing: &mut Placing, row: &Row) -> bool {
    if placing.packed().block_count() != 2 {
        return false;
    }
    let end = placing.pass();
    placing.place_of(0) == row.first
        && placing.place_of(1) == row.second
        && passes_from(placing, end) == row.passes
}

/// Returns whether a packed circuit is placed as the row says.
fn is_placed_so(alloc: Global, packed: &SharedPacked, strip: Strip, row: &Row) -> bool
    requires size { IsStripSize strip }
    requires effort { row.now.effort ≤ MAX_EFFORT }
{
    match placed_anew(alloc, packed, strip, row.seed, row.effort) {
        Some(mut placing) => {
            let is_so = passes_so(&mut placing, row);
            drop(placing);
            is_so
        }
        None => false,
    }
}

/// Returns whether the row's netlist is placed as the row says.
fn is_so(alloc: Global, row: &Row) -> bool {
    if row.width == 0 || 256 < row.width || 100 < row.effort {
        return false;
    }
    let strip = Strip {
        width: row.width,
        rows: 1,
        io_rat: 2,
    };
    match packed_netlist(alloc, row.netlist) {
        Some(packed) => {
            let is_so = is_placed_so(alloc, &packed, strip, row);
            drop(packed);
            is_so
        }
        None => false,
    }
}

/// The number of the first row that is wrong.
fn first_wrong(alloc: Global) -> Option<usize> {
    for (number, row) in ROWS.iter().enumerate() {
        if !is_so(alloc, row) {
            return Some(number);
        }
    }
    None
}

/// The first words of seed 42 and stream 54, as PCG's reference code prints them.
const WORDS: [u32; 6] = [
    0xa15c02b7, 0x7b47f409, 0xba1d3330, 0x83d2f293, 0xbfa4784b, 0xcbed606e,
];

/// Returns whether the generator gives these words.
fn gives_words() -> bool {
    let mut words = Pcg32::new(42, 54);
    for word in WORDS.iter() {
        if words.next_word() != *word {
            return false;
        }
    }
    true
}

#[test]
fn places(rt: HostRuntime) {
    assert!(rt; gives_words());
    assert_eq!(rt; first_wrong(rt.alloc()), None);
}
