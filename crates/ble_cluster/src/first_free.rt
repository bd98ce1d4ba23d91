//! Finds the least free number whose key is within a bound.
ghost use Rattle.std.specs.Prelude.{◌≡◌, ◌<◌, ◌&&◌, length, min, nat_le, not, IfOk};
ghost use Rattle.ble_cluster.specs.Choosing.{taken_at};
ghost use Rattle.ble_cluster.specs.FirstFree.{AreKeysUpTo, ArePassed, IsFirstFree, IsFirstOf, IsFirstWithin, IsLowest, key_at};

use std::alloc::{AllocError, Global};

/// Numbers, each with a key, of which more and more are taken. For each bound it keeps the start of
/// the free numbers within it, so that all searches for one bound together read the numbers once.
#[derive(Drop)]
pub(crate) struct FirstFree {
    keys: Vec<usize>,
    /// For each bound: no free number before this one has a key within the bound.
    firsts: Vec<usize>,
}

impl FirstFree {
    /// Numbers with these keys, none of which is greater than `most`.
    pub(crate) fn new(alloc: Global, keys: Vec<usize>, most: usize) -> Result<Self, AllocError>
        requires { AreKeysUpTo keys.items most }
        ensures keys { IfOk result (λ index. index.keys.items ≡ keys.items) }
        ensures lawful { IfOk result (IsFirstOf (length keys.items)) }
    {
        let firsts = Vec::from_elem(alloc, 0, most + 1)?;
        Ok(FirstFree { keys, firsts })
    }

    /// Whether the number is free and its key is within the bound.
    fn is_within(&self, taken: &[bool], bound: usize, number: usize) -> bool
        requires { number < min (length taken.now) (length self.now.keys.items) }
        ensures { result ≡ (not (taken_at taken.now number)
            && nat_le (key_at self.now.keys.items number) bound) }
    {
        !taken[number] && self.keys[number] <= bound
    }

    /// The least free number from `start` on whose key is within the bound.
    fn first_from(&self, taken: &[bool], bound: usize, start: usize) -> Option<usize>
        requires { ArePassed taken.now self.now.keys.items bound start }
        ensures { IsFirstWithin taken.now self.now.keys.items bound result }
    {
        for number in start..self.keys.len() {
            if self.is_within(taken, bound, number) {
                return Some(number);
            }
        }
        None
    }

    /// The least free number whose key is within the bound.
    pub(crate) fn first_within(&mut self, taken: &[bool], bound: usize) -> Option<usize>
        requires { IsFirstFree taken.now self.old }
        ensures first { IsFirstWithin taken.now self.old.keys.items bound result }
        ensures keys { self.new.keys.items ≡ self.old.keys.items }
        ensures lawful { IsFirstFree taken.now self.new }
    {
        let place = bound.min(self.firsts.len() - 1);
        let first = self.first_from(taken, place, self.firsts[place]);
        self.firsts[place] = first.unwrap_or(self.keys.len());
        first
    }

    /// The free number with the least key; of several, the least number.
    pub(crate) fn lowest_free(&mut self, taken: &[bool]) -> Option<usize>
        requires { IsFirstFree taken.now self.old }
        ensures first { IsLowest taken.now self.old.keys.items result }
        ensures keys { self.new.keys.items ≡ self.old.keys.items }
        ensures lawful { IsFirstFree taken.now self.new }
    {
        for bound in 0..self.firsts.len() {
            let first = self.first_within(taken, bound);
            if first.is_some() {
                return first;
            }
        }
        None
    }
}
