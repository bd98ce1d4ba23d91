//! A pass over all tables.
ghost use Rattle.std.specs.Prelude.{◌≡◌, ℕ, ◌<◌, ◌≤◌, ◌+◌, All, List, length, slice_index};
ghost use Rattle.blif.specs.declared.circuit.TheConstants.{MAX_NETS};
ghost use Rattle.blif.specs.LawfulCircuits.{IsTableWithin};
ghost use Rattle.longest_path.specs.Passes.{PassEnds};
ghost use Rattle.longest_path.specs.Reaches.{AreFound, AreSmall};

use crate::reach::{Reach, farthest_net};
use blif::Tables;

/// The result of a pass.
#[derive(Drop)]
pub(crate) enum PassEnd {
    /// The tables form a loop.
    Loop,
    /// No net has a longer way than before.
    Same(Vec<Reach>),
    /// Some net has a longer way than before.
    Raised(Vec<Reach>),
}

/// Goes over the tables once, and notes at each the way that is longer by this table.
pub(crate) fn pass(mut reach: Vec<Reach>, tables: &Tables) -> PassEnd
    requires within { All (IsTableWithin (length reach.items)) tables.now }
    requires few { length reach.items ≤ MAX_NETS }
    requires small { AreSmall reach.items }
    ensures { (starts : List ℕ) → AreFound tables.now starts reach.items →
        PassEnds tables.now starts reach.items result }
{
    let nets = reach.len();
    let mut is_raised = false;
    for place in 0..tables.len() {
        let table = tables.table(place);
        if let Some(net) = farthest_net(&reach, table.inputs) {
            let best = reach[net as usize];
            if best.steps > nets {
                return PassEnd::Loop;
            }
            if best.steps >= reach[table.output as usize].steps {
                reach[table.output as usize] = Reach {
                    steps: best.steps + 1,
                    start: best.start,
                };
                is_raised = true;
            }
        }
    }
    if is_raised {
        PassEnd::Raised(reach)
    } else {
        PassEnd::Same(reach)
    }
}
