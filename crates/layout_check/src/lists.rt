//! Lists of numbers, one for each number below a count.
ghost use Rattle.std.specs.Prelude.{◌≡◌, ◌<◌, ◌++◌, [], ◌∷◌, IfOk, OnOk, length, map, replicate, slice_set};
ghost use Rattle.layout_check.specs.NetBlocks.{list_at};

use std::alloc::{AllocError, Global};
use std::marker::Model;

/// Lists of numbers, one for each number below a count. Its value is the list of these lists.
#[derive(Drop)]
pub(crate) struct Lists {
    lists: Vec<Vec<usize>>,
}

impl Model for Lists {
    ghost use Rattle.std.specs.Prelude.{List, ℕ, map};

    ghost Value = { List (List ℕ) };

    ghost view = { λ l. map (λ list. list.items) l.lists.items };
}

impl Lists {
    /// This number of empty lists.
    pub(crate) fn new(alloc: Global, count: usize) -> Result<Self, AllocError>
        ensures { IfOk result (λ lists. lists ≡ replicate count []) }
    {
        let mut lists = Vec::new(alloc);
        for _number in 0..count {
            lists.push(Vec::new(alloc))?;
        }
        Ok(Lists { lists })
    }

    /// The list with this number.
    pub(crate) fn list(&self, number: usize) -> &[usize]
        requires { number < length self.now }
        ensures { result.now ≡ list_at self.now number }
    {
        self.lists[number].as_slice()
    }

    /// Adds an item to the list with this number.
    pub(crate) fn add(&mut self, number: usize, item: usize) -> Result<(), AllocError>
        requires { number < length self.old }
        ensures { OnOk result (self.new ≡ slice_set self.old number (list_at self.old number ++ item ∷ [])) }
    {
        self.lists[number].push(item)?;
        Ok(())
    }
}
