//! The nets to which ways lead that are as long as one likes.
ghost use Rattle.std.specs.Prelude.{◌≡◌, ℕ, ◌<◌, ◌≤◌, All, IfOk, MatchOption, length, slice_index};
ghost use Rattle.blif.specs.declared.circuit.TheConstants.{MAX_NETS};
ghost use Rattle.blif.specs.LawfulCircuits.{IsTableWithin};
ghost use Rattle.longest_path.specs.Lasting.{AreLedTo, IsFirstLost, IsLasting, IsMarked, IsMarkedAmong, NoneIsLost, NoneIsMarked};

use blif::Tables;
use std::alloc::{AllocError, Global};

/// Marks for `nets` nets: each marked net is driven by a table that reads a marked net, and each
/// net of a loop is marked.
///
/// At first all are marked. Each pass leaves those that are led to from a marked net; one that
/// takes no mark away ends the search.
pub(crate) fn lasting_nets(
    alloc: Global,
    nets: usize,
    tables: &Tables,
) -> Result<Vec<bool>, AllocError>
    requires within { All (IsTableWithin nets) tables.now }
    requires few { nets ≤ MAX_NETS }
    ensures { IfOk result (λ marks. IsLasting tables.now marks.items) }
{
    let mut marks = Vec::from_elem(alloc, true, nets)?;
    for _pass in 0..nets + 1 {
        let next = led_to(alloc, &marks, tables)?;
        match first_lost(&marks, &next) {
            Some(_net) => marks = next,
            None => return Ok(next),
        }
    }
    unreachable!()
}

/// Marks the nets that are driven by a table which reads a marked net.
fn led_to(alloc: Global, marks: &[bool], tables: &Tables) -> Result<Vec<bool>, AllocError>
    requires { All (IsTableWithin (length marks.now)) tables.now }
    ensures { IfOk result (λ next. AreLedTo tables.now (length tables.now) marks.now next.items) }
{
    let mut next = Vec::from_elem(alloc, false, marks.len())?;
    for place in 0..tables.len() {
        let table = tables.table(place);
        if let Some(_before) = first_marked(marks, table.inputs) {
            next[table.output as usize] = true;
        }
    }
    Ok(next)
}

/// The first marked net among these.
pub(crate) fn first_marked(marks: &[bool], nets: &[u32]) -> Option<u32>
    requires { All (λ net. net < length marks.now) nets.now }
    ensures { MatchOption result (NoneIsMarked marks.now nets.now)
        (IsMarkedAmong marks.now nets.now) }
{
    for net in nets {
        if marks[*net as usize] {
            return Some(*net);
        }
    }
    None
}

/// The first net that is marked, and not marked next.
fn first_lost(marks: &[bool], next: &[bool]) -> Option<usize>
    requires { length next.now ≡ length marks.now }
    ensures { MatchOption result (NoneIsLost marks.now next.now) (IsFirstLost marks.now next.now) }
{
    for net in 0..marks.len() {
        if marks[net] && !next[net] {
            return Some(net);
        }
    }
    None
}
