//! What a command makes void of what a tenancy did before.
ghost use Rattle.std.specs.Prelude.{◌≡◌};

use crate::marks::{Mark, Marks};
use crate::names::{NO_WORK, Who, Work};
use crate::replies::told_state;
use line_text::is_word;
use std::alloc::AllocError;

/// Notes that a command was done, and drops what it makes void. Returns what becomes of its line.
///
/// A placing gives up the one before it. A job that was given up is as if it had not begun, unless
/// the operator took a job of the tenancy.
pub(crate) fn note_done(marks: &mut Marks, who: &mut Who, reply: &[u8]) -> Result<Mark, AllocError>
    ensures { marks.new.lines ≡ marks.old.lines }
{
    let state = told_state(reply);
    if is_word(state, "Packing") {
        begin_packing(marks, who)
    } else if is_word(state, "Placing") {
        begin_layout(marks, who)
    } else if is_word(state, "Routing") {
        begin_routing(marks, who)
    } else if is_word(state, "Empty") {
        who.is_loaded = false;
        who.work = NO_WORK;
        Ok(Mark::Within(who.life))
    } else if who.is_taken {
        Ok(Mark::Within(who.innermost()))
    } else {
        Ok(give_up(marks, who, state))
    }
}

/// A packing begins.
fn begin_packing(marks: &mut Marks, who: &mut Who) -> Result<Mark, AllocError>
    ensures { marks.new.lines ≡ marks.old.lines }
{
    let group = marks.begin_in(Some(who.netlist()))?;
    who.work = Work {
        netlist: who.work.netlist,
        packing: Some(group),
        layout: None,
        routing: None,
    };
    Ok(Mark::Within(group))
}

/// A placing begins, and the one before it is void, with its routing.
fn begin_layout(marks: &mut Marks, who: &mut Who) -> Result<Mark, AllocError>
    ensures { marks.new.lines ≡ marks.old.lines }
{
    if !who.is_taken {
        drop_part(marks, who.work.layout);
    }
    let group = marks.begin_in(Some(who.packing()))?;
    who.work.layout = Some(group);
    who.work.routing = None;
    Ok(Mark::Within(group))
}

/// A routing begins.
fn begin_routing(marks: &mut Marks, who: &mut Who) -> Result<Mark, AllocError>
    ensures { marks.new.lines ≡ marks.old.lines }
{
    let group = marks.begin_in(Some(who.layout()))?;
    who.work.routing = Some(group);
    Ok(Mark::Within(group))
}

/// A job is given up, and the tenancy is back in that state. Returns what becomes of the line
/// that gives it up.
fn give_up(marks: &mut Marks, who: &mut Who, state: &[u8]) -> Mark
    ensures { marks.new.lines ≡ marks.old.lines }
{
    let last = who.innermost();
    let part = if is_word(state, "Loaded") {
        who.work.packing.take()
    } else if is_word(state, "Packed") {
        who.work.layout.take()
    } else if is_word(state, "Placed") {
        who.work.routing.take()
    } else {
        None
    };
    drop_part(marks, part);
    if part.is_some() {
        Mark::Dropped
    } else {
        Mark::Within(last)
    }
}

/// Notes that a netlist was loaded, by an `upload` or a `change`, and drops what it makes void.
/// Returns the group around the lines of its text.
///
/// A change keeps places: those of the last placing, and without one since the last change those
/// that this one kept. So it makes the last routing void, and without a placing the last change
/// with its packing.
pub(crate) fn note_netlist(marks: &mut Marks, who: &mut Who) -> Result<usize, AllocError>
    ensures { marks.new.lines ≡ marks.old.lines }
{
    if !who.is_loaded {
        who.is_loaded = true;
        return Ok(who.life);
    }
    if !who.is_taken {
        drop_before_change(marks, who.work);
    }
    let group = marks.begin_in(Some(who.life))?;
    who.work = Work {
        netlist: Some(group),
        packing: None,
        layout: None,
        routing: None,
    };
    Ok(group)
}

/// Drops what a change makes void of what was done with the netlist before.
fn drop_before_change(marks: &mut Marks, work: Work)
    ensures { marks.new.lines ≡ marks.old.lines }
{
    drop_part(marks, work.routing);
    if work.layout.is_none() {
        drop_part(marks, work.packing);
        drop_part(marks, work.netlist);
    }
}

/// Drops a group, if there is one.
fn drop_part(marks: &mut Marks, part: Option<usize>)
    ensures { marks.new.lines ≡ marks.old.lines }
{
    if let Some(group) = part {
        marks.drop_group(group);
    }
}
