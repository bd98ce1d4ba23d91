//! The strips on a device.

ghost use Rattle.std.specs.Prelude.{◌≡◌, ◌↔◌, ◌<◌, ◌≤◌, ◌+◌, ◌==◌, ◌⊎◌, [], length, map, option_map, All, IsSome, IsTrue, None, Some};
ghost use Rattle.strips.specs.Plan.{AreApart, AreNear, HasRoomFor, IsFirstFit, IsLaidOut, Moves, is_bad_width, moved_strip, offset_of, strip_of, with_strip, strips_without};

use crate::placed_strip::PlacedStrip;
use arrayvec::ArrayVec;
use std::marker::Model;

/// The largest number of strips in a layout.
pub const MAX_STRIPS: usize = 64;

/// A strip doesn't fit at an offset.
#[derive(Clone, Copy, PartialEq, Eq)]
pub struct NoRoom;

/// The strips on a device of `columns` columns, separated from one another.
#[derive(Drop)]
pub struct StripPlan {
    columns: u32,
    strips: ArrayVec<PlacedStrip, MAX_STRIPS>,
}

impl Model for StripPlan {
    ghost use Rattle.strips.specs.Plan.{Plan, IsLaidOut};

    ghost Value = { Plan };

    ghost view = { λ a. record { columns = a.columns; strips = a.strips.items } };

    ghost invariant = { λ a. IsLaidOut (record { columns = a.columns; strips = a.strips.items }) };
}

impl StripPlan {
    /// Returns the layout of a device of `columns` columns without strips.
    pub fn new(columns: u32) -> Self
        ensures { result ≡ record { columns = columns; strips = [] } }
    {
        StripPlan {
            columns,
            strips: ArrayVec::new(),
        }
    }

    /// Returns whether the layout already has [`MAX_STRIPS`] strips.
    pub fn is_full(&self) -> bool
        ensures value { result ≡ (length self.now.strips == MAX_STRIPS) }
        ensures few { length self.now.strips ≤ MAX_STRIPS }
    {
        self.strips.is_full()
    }

    /// Returns whether no strip of that width fits even on an empty device: the width is zero, or
    /// more than the device's columns.
    pub fn is_bad_width(&self, width: u32) -> bool
        ensures { result ≡ is_bad_width self.now width }
    {
        width == 0 || self.columns < width
    }

    /// Returns the least offset at which a strip of that width is separated from all others; `None`
    /// if there is no such offset.
    pub fn first_fit(&self, width: u32) -> Option<u32>
        ensures { IsFirstFit self.now width result }
    {
        if self.is_bad_width(width) {
            return None;
        }
        for offset in 0..self.columns - width + 1 {
            let strip = PlacedStrip {
                id: 0,
                offset,
                width,
            };
            if is_apart_from_all(&self.strips, strip) {
                return Some(offset);
            }
        }
        None
    }

    /// Returns the offset of the strip with that id; `None` if there is no such strip.
    pub fn offset(&self, id: u32) -> Option<u32>
        ensures value { result ≡ offset_of self.now.strips id }
        ensures laid_out { IsLaidOut self.now }
    {
        self.strips
            .iter()
            .find(|strip| strip.id == id)
            .map(|strip| strip.offset)
    }

    /// Adds a strip at its offset, for example the one that [`StripPlan::first_fit`] returned. The
    /// caller must ensure that the strip fits there, that its id is new, and that the layout is not
    /// full.
    pub fn place(&mut self, strip: PlacedStrip)
        requires { HasRoomFor self.old strip }
        ensures { self.new ≡ with_strip self.old strip }
    {
        self.strips.push(strip);
    }

    /// Moves the strip with that id, which must exist, to that offset. If it would not be separated
    /// from all others there, it returns [`NoRoom`] and the layout stays as it is. Takes no memory.
    pub fn move_to(&mut self, id: u32, offset: u32) -> Result<(), NoRoom>
        requires { IsSome (strip_of self.old.strips id) }
        ensures { Moves self.old id offset result self.new }
    {
        let Some(mut strip) = strip_of(&self.strips, id) else {
            unreachable!()
        };
        if self.columns < strip.width || self.columns - strip.width < offset {
            return Err(NoRoom);
        }
        strip.offset = offset;
        if !is_apart_from_others(&self.strips, strip) {
            return Err(NoRoom);
        }
        move_one(self.strips.as_mut_slice(), id, offset);
        Ok(())
    }

    /// Removes the strip with that id, if there is one.
    pub fn remove(&mut self, id: u32)
        ensures { self.new ≡ record self.old { strips = strips_without self.old.strips id } }
    {
        self.strips.retain(|strip| strip.id != id);
    }
}

/// Returns whether at least one column is unused between the strip and each of `strips`.
fn is_apart_from_all(strips: &[PlacedStrip], strip: PlacedStrip) -> bool
    requires { AreNear strips.now strip }
    ensures { IsTrue result ↔ All (λ s. AreApart s strip) strips.now }
{
    strips.iter().all(|s| {
        s.offset + s.width < strip.offset || strip.offset + strip.width < s.offset
    })
}

/// Returns whether at least one column is unused between the strip and each of `strips` with
/// another id.
fn is_apart_from_others(strips: &[PlacedStrip], strip: PlacedStrip) -> bool
    requires { AreNear strips.now strip }
    ensures { IsTrue result ↔ All (λ s. (s.id ≡ strip.id) ⊎ AreApart s strip) strips.now }
{
    strips.iter().all(|s| {
        s.id == strip.id
            || s.offset + s.width < strip.offset
            || strip.offset + strip.width < s.offset
    })
}

/// Returns the strip with that id, if there is one.
fn strip_of(strips: &[PlacedStrip], id: u32) -> Option<PlacedStrip>
    ensures { result ≡ option_map (λ strip. strip) (strip_of strips.now id) }
{
    strips
        .iter()
        .find(|strip| strip.id == id)
        .map(|strip| *strip)
}

/// Sets the offset of the strip with that id; the others stay as they are.
fn move_one(strips: &mut [PlacedStrip], id: u32, offset: u32)
    ensures { strips.new ≡ map (moved_strip id offset) strips.old }
{
    for place in 0..strips.len() {
        strips[place] = moved_strip(strips[place], id, offset);
    }
}

/// Returns the strip at that offset if it has that id, otherwise unchanged.
fn moved_strip(strip: PlacedStrip, id: u32, offset: u32) -> PlacedStrip
    ensures { result ≡ moved_strip id offset strip }
{
    if strip.id == id {
        PlacedStrip { offset, ..strip }
    } else {
        strip
    }
}
