//! A longest way, traced back from its end.
ghost use Rattle.std.specs.Prelude.{◌≡◌, ℕ, ◌<◌, ◌≤◌, All, length, IfOk, MatchOption};
ghost use Rattle.blif.specs.LawfulCircuits.{IsTableWithin};
ghost use Rattle.longest_path.specs.Reaches.{steps_to};
ghost use Rattle.longest_path.specs.Tracing.{CanTrace, IsStepBack, IsTraced, NoneLeads};

use crate::reach::{Reach, farthest_net};
use blif::Tables;
use std::alloc::{AllocError, Global};

/// A way to a net.
#[derive(Drop)]
pub(crate) struct Way {
    /// The net at which it begins.
    pub(crate) from: u32,
    /// The numbers of its tables, the last one first.
    pub(crate) tables: Vec<usize>,
}

/// One step back on a way.
#[derive(Clone, Copy)]
pub(crate) struct StepBack {
    /// The number of the table that drives the net.
    pub(crate) table: usize,
    /// The net that the table reads.
    pub(crate) net: u32,
}

/// A longest way to a net. Fails with [`AllocError`] if memory runs out.
pub(crate) fn longest_way(
    alloc: Global,
    reach: &[Reach],
    tables: &Tables,
    to: u32,
) -> Result<Way, AllocError>
    requires within { All (IsTableWithin (length reach.now)) tables.now }
    requires reached { 0 < steps_to reach.now to }
    requires settled { CanTrace tables.now reach.now }
    ensures { IfOk result (IsTraced tables.now reach.now to) }
{
    let steps = reach[to as usize].steps;
    let mut numbers = Vec::new(alloc);
    let mut net = to;
    for made in 1..steps {
        let Some(back) = step_back(reach, tables, net, steps - made) else {
            unreachable!()
        };
        numbers.push(back.table)?;
        net = back.net;
    }
    Ok(Way {
        from: net,
        tables: numbers,
    })
}

/// The first table that drives a net and reads, as its farthest net, one with that number of steps.
fn step_back(reach: &[Reach], tables: &Tables, net: u32, steps: usize) -> Option<StepBack>
    requires { All (IsTableWithin (length reach.now)) tables.now }
    ensures { MatchOption result (NoneLeads tables.now reach.now (length tables.now) net steps)
        (IsStepBack tables.now reach.now net steps) }
{
    for place in 0..tables.len() {
        let table = tables.table(place);
        if table.output == net {
            if let Some(before) = farthest_net(reach, table.inputs) {
                if reach[before as usize].steps == steps {
                    return Some(StepBack {
                        table: place,
                        net: before,
                    });
                }
            }
        }
    }
    None
}
