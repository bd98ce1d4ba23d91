//! The number of tables that drive nothing that is read.
ghost use Rattle.std.specs.Prelude.{◌≡◌, ◌<◌, All, IfOk, count_by, length, not, slice_index_or, false};
ghost use Rattle.blif.specs.LawfulCircuits.{IsCircuit, IsTableWithin};
ghost use Rattle.unread_tables.specs.Unread.{AreMarks, unread_tables};

use crate::reads::read_nets;
use blif::{Circuit, Tables};
use std::alloc::{AllocError, Global};

/// Returns the number of tables of a circuit whose net is no output and is read by no table and by
/// no latch. Fails with [`AllocError`] if memory runs out.
pub fn unread_tables(alloc: Global, circuit: &Circuit) -> Result<usize, AllocError>
    requires { IsCircuit circuit.now }
    ensures { IfOk result (λ count. count ≡ unread_tables circuit.now) }
{
    let reads = read_nets(alloc, circuit)?;
    let marks = marks_of(alloc, circuit.nets.len(), &reads)?;
    Ok(count_unmarked(&marks, &circuit.tables))
}

/// Marks for that many nets: marked are these.
fn marks_of(alloc: Global, count: usize, nets: &[u32]) -> Result<Vec<bool>, AllocError>
    requires { All (λ net. net < count) nets.now }
    ensures { IfOk result (λ marks. AreMarks count nets.now marks.items) }
{
    let mut marks = Vec::from_elem(alloc, false, count)?;
    for net in nets {
        marks[*net as usize] = true;
    }
    Ok(marks)
}

/// The number of tables whose net is not marked.
fn count_unmarked(marks: &[bool], tables: &Tables) -> usize
    requires { All (IsTableWithin (length marks.now)) tables.now }
    ensures { result
        ≡ count_by (λ table. not (slice_index_or marks.now table.output false)) tables.now }
{
    let mut count = 0;
    for place in 0..tables.len() {
        let table = tables.table(place);
        if is_unmarked(marks, table.output) {
            count += 1;
        }
    }
    count
}

/// Returns whether a net is not marked.
fn is_unmarked(marks: &[bool], net: u32) -> bool
    requires { net < length marks.now }
    ensures { result ≡ not (slice_index_or marks.now net false) }
{
    !marks[net as usize]
}
