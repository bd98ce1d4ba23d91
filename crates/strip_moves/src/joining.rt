//! Moves that join the gaps between strips.
ghost use Rattle.std.specs.Prelude.{◌≡◌, ◌≢◌, ◌↔◌, ◌+◌, ◌<◌, ◌≤◌, ℕ, All, IfOk, IfSome, IsSome, IsTrue, MatchOption, OnOk, Ok, get_or, length};
ghost use Rattle.std.specs.List.{AllPairs};
ghost use Rattle.grid.specs.declared.TheConstants.{MAX_COLUMNS};
ghost use Rattle.strips.specs.declared.placed_strip.PlacedStrip.{PlacedStrip};
ghost use Rattle.strips.specs.Plan.{AreApart, HasRoomFor, IsLaidOut, IsParted, strip_of, with_moved};
ghost use Rattle.device_report.specs.Widest.{IsWidest};
ghost use Rattle.strip_moves.specs.Moves.{AreAccepted, AreLeftmost, CannotMove, IsJoining, IsMoved};
ghost use Rattle.strip_moves.specs.Settled.{IsSettled};

use device_report::{Room, is_apart_from_all};
use std::alloc::{AllocError, Global};
use strips::{PlacedStrip, StripPlan};

/// A move of the strip with that id.
#[derive(Clone, Copy, PartialEq, Eq)]
pub struct StripMove {
    pub id: u32,
    /// Columns to the left of the strip after the move.
    pub offset: u32,
}

/// Moves of strips, and the widest strip that would be admitted after them.
#[derive(Drop)]
pub struct Joining {
    pub moves: Vec<StripMove>,
    /// `None` if no strip would be admitted.
    pub widest: Option<Room>,
}

/// Moves that join the gaps of a device with `columns` columns and these strips: from left to right
/// each strip goes as far to the left as it can. `None` if the strips are no layout of the service:
/// not within the device, not separated, or two with one id.
pub fn joining_moves(
    alloc: Global,
    columns: u32,
    strips: &[PlacedStrip],
) -> Result<Option<Joining>, AllocError>
    requires { columns ≤ MAX_COLUMNS }
    ensures { IfOk result (λ found. MatchOption found
        (IsLaidOut (record { columns = columns; strips = strips.now }) → ⊥)
        (IsJoining (record { columns = columns; strips = strips.now }))) }
{
    if !are_inside(columns, strips) {
        return Ok(None);
    }
    let Some(mut plan) = plan_of(columns, strips) else {
        return Ok(None);
    };
    let moves = moves_on(alloc, &mut plan, columns, strips)?;
    let widest = widest_on(&plan, columns);
    Ok(Some(Joining { moves, widest }))
}

/// Whether each strip is within the device.
fn are_inside(columns: u32, strips: &[PlacedStrip]) -> bool
    requires { columns ≤ MAX_COLUMNS }
    ensures inside { IsTrue result ↔ All (λ s. s.offset + s.width ≤ columns) strips.now }
    ensures near { IsTrue result → All (λ s. s.offset + s.width ≤ MAX_COLUMNS) strips.now }
{
    strips
        .iter()
        .all(|s| s.offset <= columns && s.width <= columns - s.offset)
}

/// The plan with these strips; `None` if they are not separated, or two have one id.
fn plan_of(columns: u32, strips: &[PlacedStrip]) -> Option<StripPlan>
    requires columns { columns ≤ MAX_COLUMNS }
    requires strips { All (λ s. s.offset + s.width ≤ MAX_COLUMNS) strips.now }
    ensures strips { IfSome result (λ plan. plan
        ≡ record { columns = columns; strips = strips.now }) }
    ensures laid_out { MatchOption result
        (IsLaidOut (record { columns = columns; strips = strips.now }) → ⊥) IsLaidOut }
{
    let mut plan = StripPlan::new(columns);
    for place in 0..strips.len() {
        let (before, _) = strips.split_at(place);
        if !has_room(&plan, columns, before, strips[place]) {
            return None;
        }
        plan.place(strips[place]);
    }
    Some(plan)
}

/// Whether a strip can be added to the plan, which has those strips.
fn has_room(plan: &StripPlan, columns: u32, strips: &[PlacedStrip], strip: PlacedStrip) -> bool
    requires plan { plan.now ≡ record { columns = columns; strips = strips.now } }
    requires strip { strip.offset + strip.width ≤ MAX_COLUMNS }
    requires strips { All (λ s. s.offset + s.width ≤ MAX_COLUMNS) strips.now }
    ensures { IsTrue result ↔ HasRoomFor plan.now strip }
{
    if plan.is_full() || strip.width == 0 || columns < strip.offset + strip.width {
        return false;
    }
    match plan.offset(strip.id) {
        Some(_) => false,
        None => is_apart_from_all(strips, strip),
    }
}

/// Moves the strips from left to right, each as far to the left as it can, and returns the moves.
fn moves_on(
    alloc: Global,
    plan: &mut StripPlan,
    columns: u32,
    strips: &[PlacedStrip],
) -> Result<Vec<StripMove>, AllocError>
    requires plan { plan.old ≡ record { columns = columns; strips = strips.now } }
    requires laid_out { IsLaidOut (record { columns = columns; strips = strips.now }) }
    ensures accepted { IfOk result (λ moves. AreAccepted plan.old moves.items plan.new) }
    ensures leftmost { OnOk result (AreLeftmost plan.new) }
{
    let mut moves = Vec::new(alloc);
    for offset in 0..columns {
        if let Some(one) = move_strip_at(plan, strips, offset) {
            moves.push(one)?;
        }
    }
    Ok(moves)
}

/// Moves the strip that was at that offset as far to the left as it can.
fn move_strip_at(plan: &mut StripPlan, strips: &[PlacedStrip], offset: u32) -> Option<StripMove>
    requires apart { AllPairs AreApart strips.now }
    requires settled { IsSettled strips.now plan.old offset }
    ensures moved { MatchOption result (plan.new ≡ plan.old) (IsMoved plan.old plan.new) }
    ensures settled { IsSettled strips.now plan.new (offset + 1) }
{
    let strip = strip_at(strips, offset)?;
    let to = move_left(plan, strip.id, offset)?;
    Some(StripMove {
        id: strip.id,
        offset: to,
    })
}

/// The strip at that offset.
fn strip_at(strips: &[PlacedStrip], offset: u32) -> Option<PlacedStrip>
    ensures { MatchOption result (All (λ s. s.offset ≢ offset) strips.now) (λ strip. (i : ℕ)
        × (i < length strips.now) × ((d : PlacedStrip) → get_or strips.now i d ≡ strip)
        × (strip.offset ≡ offset)) }
{
    for place in 0..strips.len() {
        if strips[place].offset == offset {
            return Some(strips[place]);
        }
    }
    None
}

/// Moves a strip to the least offset below that one which is accepted; `None`, and nothing is
/// moved, if none is.
fn move_left(plan: &mut StripPlan, id: u32, below: u32) -> Option<u32>
    requires { IsSome (strip_of plan.old.strips id) }
    ensures { MatchOption result ((plan.new ≡ plan.old) × CannotMove plan.old id below) (λ offset.
        IsParted (with_moved plan.old id offset) × (plan.new ≡ with_moved plan.old id offset)
        × CannotMove plan.old id offset) }
{
    for offset in 0..below {
        if plan.move_to(id, offset).is_ok() {
            return Some(offset);
        }
    }
    None
}

/// The widest strip that would be admitted on the plan, at the offset that it would get.
fn widest_on(plan: &StripPlan, columns: u32) -> Option<Room>
    requires { plan.now.columns ≤ columns }
    ensures { IsWidest plan.now result }
{
    if plan.is_full() {
        return None;
    }
    for missing in 0..columns {
        let width = columns - missing;
        if let Some(offset) = plan.first_fit(width) {
            return Some(Room { offset, width });
        }
    }
    None
}
