//! The longest ways from some nets to all others.
ghost use Rattle.std.specs.Prelude.{◌≡◌, ℕ, ◌<◌, ◌≤◌, All, length, IfOk, MatchOption};
ghost use Rattle.blif.specs.declared.circuit.TheConstants.{MAX_NETS};
ghost use Rattle.blif.specs.LawfulCircuits.{IsTableWithin};
ghost use Rattle.longest_path.specs.Paths.{HasLoop};
ghost use Rattle.longest_path.specs.Settled.{IsSettled};

use crate::pass::{PassEnd, pass};
use crate::reach::{Reach, starting_reach};
use blif::Tables;
use std::alloc::{AllocError, Global};

/// The longest ways from the starts to each of `nets` nets; `None` if the tables form a loop. Fails
/// with [`AllocError`] if memory runs out.
pub(crate) fn longest_ways(
    alloc: Global,
    nets: usize,
    starts: &[u32],
    tables: &Tables,
) -> Result<Option<Vec<Reach>>, AllocError>
    requires starts { All (λ net. net < nets) starts.now }
    requires tables { All (IsTableWithin nets) tables.now }
    requires few { nets ≤ MAX_NETS }
    ensures { IfOk result (λ found. MatchOption found (HasLoop tables.now)
        (λ reach. IsSettled nets tables.now starts.now reach.items)) }
{
    let mut reach = starting_reach(alloc, nets, starts)?;
    for _pass in 0..nets + 1 {
        match pass(reach, tables) {
            PassEnd::Loop => return Ok(None),
            PassEnd::Same(same) => return Ok(Some(same)),
            PassEnd::Raised(raised) => reach = raised,
        }
    }
    unreachable!()
}
