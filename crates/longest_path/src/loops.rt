//! A loop of tables.
ghost use Rattle.std.specs.Prelude.{◌≡◌, ℕ, ◌<◌, ◌≤◌, All, IfOk, MatchOption, drop, length, slice_index};
ghost use Rattle.blif.specs.LawfulCircuits.{IsCircuit, IsTableWithin};
ghost use Rattle.longest_path.specs.Paths.{HasLoop, IsLoop};
ghost use Rattle.longest_path.specs.Lasting.{IsLasting, IsLedTo, IsMarked, IsMarkedBack, IsMissing, IsPlaceOf};

use crate::lasting::{first_marked, lasting_nets};
use crate::trace::StepBack;
use blif::{Circuit, Tables};
use std::alloc::{AllocError, Global};

/// Returns the numbers of tables that form a loop, the last one first: each drives a net that the
/// one before it in this list reads, and the first drives a net that the last reads. `None` if no
/// tables of the circuit form a loop. Fails with [`AllocError`] if memory runs out.
pub fn find_loop(alloc: Global, circuit: &Circuit) -> Result<Option<Vec<usize>>, AllocError>
    requires { IsCircuit circuit.now }
    ensures { IfOk result (λ found. MatchOption found (HasLoop circuit.now.tables → ⊥)
        (λ numbers. IsLoop circuit.now.tables numbers.items)) }
{
    let marks = lasting_nets(alloc, circuit.nets.len(), &circuit.tables)?;
    let found = loop_among(alloc, &marks, &circuit.tables);
    drop(marks);
    found
}

/// The numbers of tables that form a loop, if a net is marked.
fn loop_among(
    alloc: Global,
    marks: &[bool],
    tables: &Tables,
) -> Result<Option<Vec<usize>>, AllocError>
    requires { IsLasting tables.now marks.now }
    ensures { IfOk result (λ found. MatchOption found (HasLoop tables.now → ⊥)
        (λ numbers. IsLoop tables.now numbers.items)) }
{
    for net in 0..marks.len() {
        if marks[net] {
            return Ok(Some(loop_before(alloc, marks, tables, net as u32)?));
        }
    }
    Ok(None)
}

/// Goes from a marked net to a marked net before it until a net comes again. Returns the numbers
/// of the tables between.
fn loop_before(
    alloc: Global,
    marks: &[bool],
    tables: &Tables,
    to: u32,
) -> Result<Vec<usize>, AllocError>
    requires lasting { IsLasting tables.now marks.now }
    requires marked { IsMarked marks.now to }
    ensures { IfOk result (λ numbers. IsLoop tables.now numbers.items) }
{
    let mut nets = Vec::new(alloc);
    let mut numbers = Vec::new(alloc);
    let mut net = to;
    for _step in 0..marks.len() + 1 {
        if let Some(place) = place_of(&nets, net) {
            return tail_of(alloc, &numbers, place);
        }
        let Some(back) = marked_back(marks, tables, net) else {
            unreachable!()
        };
        nets.push(net)?;
        numbers.push(back.table)?;
        net = back.net;
    }
    unreachable!()
}

/// The numbers from that place on.
fn tail_of(alloc: Global, numbers: &[usize], place: usize) -> Result<Vec<usize>, AllocError>
    requires { place ≤ length numbers.now }
    ensures { IfOk result (λ tail. tail.items ≡ drop place numbers.now) }
{
    numbers[place..].to_vec(alloc)
}

/// The place of a net among these; `None` if it is not there.
fn place_of(nets: &[u32], net: u32) -> Option<usize>
    ensures { MatchOption result (IsMissing nets.now net) (IsPlaceOf nets.now net) }
{
    for place in 0..nets.len() {
        if nets[place] == net {
            return Some(place);
        }
    }
    None
}

/// A table that drives a net and reads a marked net.
fn marked_back(marks: &[bool], tables: &Tables, net: u32) -> Option<StepBack>
    requires { All (IsTableWithin (length marks.now)) tables.now }
    ensures { MatchOption result (IsLedTo tables.now (length tables.now) marks.now net → ⊥)
        (IsMarkedBack tables.now marks.now net) }
{
    for place in 0..tables.len() {
        let table = tables.table(place);
        if table.output == net {
            if let Some(before) = first_marked(marks, table.inputs) {
                return Some(StepBack {
                    table: place,
                    net: before,
                });
            }
        }
    }
    None
}
