//! Lines in groups that are kept or dropped together.
ghost use Rattle.std.specs.Prelude.{◌≡◌, ◌==◌, ◌∷◌, ◌++◌, [], length, true, false, IfOk, OnOk};
ghost use Rattle.live_log.specs.Choice.{FitFlags, FitsFlag};

use std::alloc::{AllocError, Global};

/// The most groups around a line that are looked at: its text, a routing, the layout, the packing,
/// the netlist and the tenancy.
const MAX_DEPTH: usize = 6;

/// What becomes of a line.
#[derive(Clone, Copy)]
pub(crate) enum Mark {
    /// It is kept whatever follows.
    Kept,
    Dropped,
    /// It is kept if the group with that number is.
    Within(usize),
}

/// A group of lines.
#[derive(Clone, Copy)]
struct Group {
    /// Whether its lines are kept, if those of the group around it are.
    stands: bool,
    /// The group around it.
    around: Option<usize>,
}

/// Lines in groups that are kept or dropped together.
#[derive(Drop)]
pub(crate) struct Marks {
    groups: Vec<Group>,
    lines: Vec<Mark>,
}

impl Marks {
    /// Marks without lines.
    pub(crate) fn new(alloc: Global) -> Self
        ensures { result.lines.items ≡ [] }
    {
        Marks {
            groups: Vec::new(alloc),
            lines: Vec::new(alloc),
        }
    }

    /// Whether no line was added.
    pub(crate) fn is_empty(&self) -> bool
        ensures { result ≡ (length self.now.lines.items == 0) }
    {
        self.lines.is_empty()
    }

    /// Adds a line.
    pub(crate) fn add_line(&mut self, mark: Mark) -> Result<(), AllocError>
        ensures { OnOk result (self.new.lines.items ≡ self.old.lines.items ++ mark ∷ []) }
    {
        self.lines.push(mark)?;
        Ok(())
    }

    /// A new group, whose lines are kept for now.
    pub(crate) fn begin(&mut self) -> Result<usize, AllocError>
        ensures { self.new.lines ≡ self.old.lines }
    {
        self.begin_in(None)
    }

    /// A new group, in another one if that is given, whose lines are kept for now.
    pub(crate) fn begin_in(&mut self, around: Option<usize>) -> Result<usize, AllocError>
        ensures { self.new.lines ≡ self.old.lines }
    {
        let group = self.groups.len();
        self.groups.push(Group {
            stands: true,
            around,
        })?;
        Ok(group)
    }

    /// Drops the lines of a group.
    pub(crate) fn drop_group(&mut self, group: usize)
        ensures { self.new.lines ≡ self.old.lines }
    {
        if let Some(dropped) = self.groups.get_mut(group) {
            dropped.stands = false;
        }
    }

    /// Puts a group into another one: its lines are kept only if those of the other one are.
    pub(crate) fn put_into(&mut self, group: usize, around: usize)
        ensures { self.new.lines ≡ self.old.lines }
    {
        if let Some(put) = self.groups.get_mut(group) {
            put.around = Some(around);
        }
    }

    /// Whether a line is kept.
    fn is_kept(&self, mark: Mark) -> bool
        ensures { FitsFlag mark result }
    {
        match mark {
            Mark::Kept => true,
            Mark::Dropped => false,
            Mark::Within(group) => self.is_group_kept(group),
        }
    }

    /// Whether the lines of a group are kept: it stands, and so do the groups around it.
    fn is_group_kept(&self, group: usize) -> bool {
        let mut around = Some(group);
        for _ in 0..MAX_DEPTH {
            let Some(group) = around else {
                return true;
            };
            match self.groups.get(group) {
                Some(group) if group.stands => around = group.around,
                _ => return false,
            }
        }
        true
    }

    /// For each line, whether it is kept.
    pub(crate) fn kept_flags(&self, alloc: Global) -> Result<Vec<bool>, AllocError>
        ensures { IfOk result (λ kept. FitFlags self.now.lines.items kept.items) }
    {
        let mut kept = Vec::with_capacity(alloc, self.lines.len())?;
        for mark in self.lines.as_slice() {
            kept.push(self.is_kept(*mark))?;
        }
        Ok(kept)
    }
}
