//! Sets of numbers that are cleared at once.
ghost use Rattle.std.specs.Prelude.{◌≡◌, ◌<◌, IfOk, length, replicate, slice_set, true, false, Bool, ◌↔◌, ℕ, Contains};
ghost use Rattle.layout_check.specs.Marks.{is_in, IsClear, IsSetOf};

use std::alloc::{AllocError, Global};
use std::marker::Model;

/// A set of numbers below a count. Its value says of each number whether it is in the set.
#[derive(Drop)]
pub(crate) struct Marks {
    stamps: Vec<u64>,
    epoch: u64,
}

impl Model for Marks {
    ghost use Rattle.std.specs.Prelude.{List, Bool, All, ◌<◌, ◌≤◌, ◌==◌, map};

    ghost Value = { List Bool };

    ghost view = { λ m. map (λ stamp. stamp == m.epoch) m.stamps.items };

    ghost invariant = { λ m. (0 < m.epoch) × All (λ stamp. stamp ≤ m.epoch) m.stamps.items };
}

/// This number of zeros.
pub(crate) fn zeros(alloc: Global, count: usize) -> Result<Vec<u64>, AllocError>
    ensures { IfOk result (λ zeros. zeros.items ≡ replicate count 0) }
{
    Vec::from_elem(alloc, 0, count)
}

/// Writes zeros over the numbers.
fn erase(numbers: &mut Vec<u64>)
    ensures { numbers.new.items ≡ replicate (length numbers.old.items) 0 }
{
    for number in numbers.iter_mut() {
        *number = 0;
    }
}

impl Marks {
    /// The set without numbers, for numbers below the count.
    pub(crate) fn new(alloc: Global, count: usize) -> Result<Self, AllocError>
        ensures { IfOk result (λ marks. marks ≡ replicate count false) }
    {
        Ok(Marks {
            stamps: zeros(alloc, count)?,
            epoch: 1,
        })
    }

    /// Whether the number is in the set.
    pub(crate) fn contains(&self, number: usize) -> bool
        requires { number < length self.now }
        ensures { result ≡ is_in self.now number }
    {
        self.stamps[number] == self.epoch
    }

    /// Adds the number to the set.
    pub(crate) fn insert(&mut self, number: usize)
        requires { number < length self.old }
        ensures { self.new ≡ slice_set self.old number true }
    {
        self.stamps[number] = self.epoch;
    }

    /// Takes all numbers out of the set.
    pub(crate) fn clear(&mut self)
        ensures clear { IsClear self.new }
        ensures long { length self.new ≡ length self.old }
    {
        if self.epoch < u64::MAX {
            self.epoch += 1;
        } else {
            erase(&mut self.stamps);
            self.epoch = 1;
        }
    }
}
