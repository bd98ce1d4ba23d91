//! The counts of a packed netlist, and the least device that has room for it.
ghost use Rattle.std.specs.Prelude.{◌+◌, ◌≡◌, ◌≤◌, ◌↔◌, IfOk, IsTrue, MatchOption};
ghost use Rattle.one_user.specs.Prelude.{MAX_IO_RAT, MAX_COLUMNS, MAX_ROWS};
ghost use Rattle.one_user.specs.Counting.{HasRoom, IsCounted, NoColumnsBelow, NoRowsBelow, NoSquareBelow};
ghost use Rattle.one_user.specs.Outcomes.{task_on};
ghost use Rattle.one_user.specs.Steps.{IsReadyToPack, IsReadyToUpload, task_in};

use crate::device::Request;
use crate::figures::{PackedCounts, packed_counts};
use crate::stages::ask;
use crate::steps::make_steps;
use line_text::Sink;
use std::alloc::AllocError;
use strips::Window;
use tenant_slot::{Command, Refusal, Slot};

/// The counts of a netlist's packing, or why it is refused.
#[derive(Drop)]
pub enum Counted {
    Counts(PackedCounts),
    Refused(Refusal),
}

/// Loads the netlist, and then packs it.
pub(crate) fn count<W: Sink>(
    slot: &mut Slot,
    window: &Window<'_>,
    request: Request<'_>,
    teller: &mut W,
) -> Result<Counted, AllocError>
    requires { IsReadyToUpload slot.old window.now request.effort }
    ensures { IfOk result (IsCounted
        (task_on window.now request.entry.netlist.now request.entry.seed request.entry.effort)) }
{
    let netlist = request.netlist.clone()?;
    match ask(slot, Command::Upload(netlist))? {
        Some(refusal) => return Ok(Counted::Refused(refusal)),
        None => {}
    }
    count_packed(slot, window, request, teller)
}

/// Packs the netlist.
fn count_packed<W: Sink>(
    slot: &mut Slot,
    window: &Window<'_>,
    request: Request<'_>,
    teller: &mut W,
) -> Result<Counted, AllocError>
    requires { IsReadyToPack (task_in slot.old.state request.seed request.effort) slot.old
        window.now }
    ensures { IfOk result (IsCounted
        (task_in slot.old.state request.entry.seed request.entry.effort)) }
{
    match ask(slot, Command::Pack)? {
        Some(refusal) => return Ok(Counted::Refused(refusal)),
        None => {}
    }
    let last = make_steps(slot, window, teller)?;
    Ok(Counted::Counts(packed_counts(last.progress)))
}

/// Returns the side of the least square device, of at most 64 columns and rows, that has room for a
/// packing with these counts, with `io_rat` pads at each end of a column. `None` if none has.
pub fn least_side(counts: PackedCounts, io_rat: u32) -> Option<u32>
    requires { io_rat ≤ MAX_IO_RAT }
    ensures { MatchOption result (NoSquareBelow counts io_rat (MAX_ROWS + 1))
        (λ side. HasRoom counts io_rat side side × NoSquareBelow counts io_rat side) }
{
    for side in 1..65 {
        if has_room(counts, io_rat, side, side) {
            return Some(side);
        }
    }
    None
}

/// Returns the least number of columns, at most 256, with which a device of these rows has room for
/// a packing with these counts, with `io_rat` pads at each end of a column. `None` if none has.
pub fn least_columns(counts: PackedCounts, io_rat: u32, rows: u32) -> Option<u32>
    requires pads { io_rat ≤ MAX_IO_RAT }
    requires rows { rows ≤ MAX_ROWS }
    ensures { MatchOption result (NoColumnsBelow counts io_rat rows (MAX_COLUMNS + 1))
        (λ columns. HasRoom counts io_rat columns rows
        × NoColumnsBelow counts io_rat rows columns) }
{
    for columns in 1..257 {
        if has_room(counts, io_rat, columns, rows) {
            return Some(columns);
        }
    }
    None
}

/// Returns the least number of rows, at most 64, with which a device of these columns has room for
/// a packing with these counts, with `io_rat` pads at each end of a column. `None` if none has.
pub fn least_rows(counts: PackedCounts, io_rat: u32, columns: u32) -> Option<u32>
    requires pads { io_rat ≤ MAX_IO_RAT }
    requires columns { columns ≤ MAX_COLUMNS }
    ensures { MatchOption result (NoRowsBelow counts io_rat columns (MAX_ROWS + 1))
        (λ rows. HasRoom counts io_rat columns rows × NoRowsBelow counts io_rat columns rows) }
{
    for rows in 1..65 {
        if has_room(counts, io_rat, columns, rows) {
            return Some(rows);
        }
    }
    None
}

/// Returns whether a device of that size has room for these counts.
fn has_room(counts: PackedCounts, io_rat: u32, columns: u32, rows: u32) -> bool
    requires pads { io_rat ≤ MAX_IO_RAT }
    requires columns { columns ≤ MAX_COLUMNS }
    requires rows { rows ≤ MAX_ROWS }
    ensures { IsTrue result ↔ HasRoom counts io_rat columns rows }
{
    let blocks = columns * rows;
    let pads = 2 * columns * io_rat;
    counts.clusters <= blocks as usize && counts.pads <= pads as usize
}
