//! The longest path of a circuit.
ghost use Rattle.std.specs.Prelude.{◌≡◌, ◌<◌, All, IfOk, IsTrue, ◌↔◌, length};
ghost use Rattle.blif.specs.LawfulCircuits.{IsCircuit, IsTableWithin};
ghost use Rattle.longest_path.specs.Paths.{IsLongest, HasLoop, ends_of, starts_of};
ghost use Rattle.longest_path.specs.Ends.{IsEnd};
ghost use Rattle.longest_path.specs.Tracing.{CanTrace};

use crate::reach::{Reach, farthest_net};
use crate::settle::longest_ways;
use crate::trace::{Way, longest_way};
use blif::{Circuit, Tables};
use std::alloc::{AllocError, Global};

/// The longest path of a circuit.
#[derive(Drop)]
pub enum Longest {
    /// This one: no other has more tables.
    Path(LongestPath),
    /// No path leads from an input or a latch to an output or a latch.
    NoPath,
    /// Some tables form a loop, so paths have no greatest length.
    Loop,
}

/// A path with the most tables.
#[derive(Drop)]
pub struct LongestPath {
    /// The numbers of its tables, the last one first.
    pub tables: Vec<usize>,
    /// The net at which it begins: an input, or the output of a latch.
    pub from: u32,
    /// The net at which it ends: an output, or the input of a latch.
    pub to: u32,
}

/// Returns the longest path of a circuit. Fails with [`AllocError`] if memory runs out.
pub fn longest_path(alloc: Global, circuit: &Circuit) -> Result<Longest, AllocError>
    requires { IsCircuit circuit.now }
    ensures { IfOk result (IsLongest circuit.now) }
{
    if has_loop(alloc, circuit)? {
        return Ok(Longest::Loop);
    }
    let starts = starts_of(alloc, circuit)?;
    let ends = ends_of(alloc, circuit)?;
    let nets = circuit.nets.len();
    let found = longest_ways(alloc, nets, &starts, &circuit.tables)?;
    match found {
        Some(reach) => {
            let longest = longest_in(alloc, &reach, &circuit.tables, &ends);
            drop(reach);
            longest
        }
        None => unreachable!(),
    }
}

/// The longest path to one of these ends.
fn longest_in(
    alloc: Global,
    reach: &[Reach],
    tables: &Tables,
    ends: &[u32],
) -> Result<Longest, AllocError>
    requires ends { All (λ net. net < length reach.now) ends.now }
    requires within { All (IsTableWithin (length reach.now)) tables.now }
    requires settled { CanTrace tables.now reach.now }
    ensures { IfOk result (IsEnd tables.now reach.now ends.now) }
{
    match farthest_net(reach, ends) {
        Some(to) => {
            let Way { from, tables } = longest_way(alloc, reach, tables, to)?;
            Ok(Longest::Path(LongestPath { tables, from, to }))
        }
        None => Ok(Longest::NoPath),
    }
}

/// Returns whether some tables of a circuit form a loop.
fn has_loop(alloc: Global, circuit: &Circuit) -> Result<bool, AllocError>
    requires { IsCircuit circuit.now }
    ensures { IfOk result (λ found. IsTrue found ↔ HasLoop circuit.now.tables) }
{
    let nets = circuit.nets.len();
    let mut starts = Vec::new(alloc);
    for net in 0..nets {
        starts.push(net as u32)?;
    }
    let found = longest_ways(alloc, nets, &starts, &circuit.tables)?;
    match found {
        Some(reach) => {
            drop(reach);
            Ok(false)
        }
        None => Ok(true),
    }
}

/// The nets at which paths begin.
fn starts_of(alloc: Global, circuit: &Circuit) -> Result<Vec<u32>, AllocError>
    ensures { IfOk result (λ starts. starts.items ≡ starts_of circuit.now) }
{
    let mut starts = circuit.inputs.as_slice().to_vec(alloc)?;
    for latch in circuit.latches.as_slice() {
        starts.push(latch.output)?;
    }
    Ok(starts)
}

/// The nets at which paths end.
fn ends_of(alloc: Global, circuit: &Circuit) -> Result<Vec<u32>, AllocError>
    ensures { IfOk result (λ ends. ends.items ≡ ends_of circuit.now) }
{
    let mut ends = circuit.outputs.as_slice().to_vec(alloc)?;
    for latch in circuit.latches.as_slice() {
        ends.push(latch.input)?;
    }
    Ok(ends)
}
