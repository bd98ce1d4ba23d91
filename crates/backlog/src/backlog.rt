//! Items that wait for their turn.
ghost use Rattle.std.specs.Prelude.{◌≡◌, ◌<◌, ◌≤◌, [], length, option_copied, false, true};
ghost use Rattle.backlog.specs.Waiting.{IsBounded, Puts, PutsLost, Takes, TakesLost, first_of, is_none_left};

use std::alloc::Global;
use std::collections::VecDeque;
use std::marker::Model;
use std::mem;

/// The most items that wait.
pub const MAX_ITEMS: usize = 4_096;

/// The most weight of all items that wait.
pub const MAX_WEIGHT: u64 = 2_097_152;

/// What has a weight.
pub trait Weighs {
    ghost use Rattle.std.specs.Prelude.{ℕ, ◌≡◌};

    // Its weight.
    ghost weight: { Self → ℕ };

    /// Its weight.
    fn weight(&self) -> u64
        ensures { result ≡ weight self.now };
}

/// What has its turn.
#[derive(Drop)]
pub enum Turn<T: Drop> {
    Item(T),
    /// An item that was lost.
    Lost,
    /// Nothing waits.
    Nothing,
}

/// Items that wait for their turn. Its value is what waits, in order, with `None` for each item
/// that was lost. No item waits after one that was lost.
#[derive(Drop)]
pub struct Backlog<T: Weighs + Drop> {
    items: VecDeque<T>,
    weight: u64,
    lost: u64,
}

impl<T: Weighs + Drop> Model for Backlog<T> {
    ghost use Rattle.std.specs.Prelude.{List, Option};
    ghost use Rattle.backlog.specs.Waiting.{IsWithin, turns_of};

    ghost Value = { List (Option T) };

    ghost view = { λ b. turns_of b.items.items b.lost };

    ghost invariant = { λ b. IsWithin T.weight b.items.items b.weight };
}

impl<T: Weighs + Drop> Backlog<T> {
    /// Nothing waits. Takes no memory.
    pub fn new(alloc: Global) -> Self
        ensures empty { result ≡ [] }
        ensures bounded { IsBounded T.weight result }
    {
        Backlog {
            items: VecDeque::new(alloc),
            weight: 0,
            lost: 0,
        }
    }

    /// Whether nothing waits.
    pub fn is_empty(&self) -> bool
        ensures { result ≡ is_none_left self.now }
    {
        self.items.is_empty() && self.lost == 0
    }

    /// Whether one more can wait, be it one that is lost.
    pub fn has_room(&self) -> bool
        ensures room { result ≡ true → length self.now < 18446744073709551615 }
        ensures full { result ≡ false → 18446744073709547519 ≤ length self.now }
    {
        self.lost < u64::MAX - MAX_ITEMS as u64
    }

    /// The first one that waits, if it wasn't lost.
    pub fn first(&self) -> Option<&T>
        ensures { option_copied result ≡ first_of self.now }
    {
        self.items.front()
    }

    /// Puts an item after all others. It is lost if there is no room or no memory for it, or if the
    /// last one that waits was lost.
    pub fn put(&mut self, item: T)
        ensures puts { Puts self.old item self.new }
        ensures bounded { IsBounded T.weight self.new }
    {
        let weight = item.weight();
        if self.lost > 0 || self.items.len() >= MAX_ITEMS || weight > MAX_WEIGHT - self.weight {
            drop(item);
            self.lost = self.lost.saturating_add(1);
            return;
        }
        match self.items.push_back(item) {
            Ok(()) => self.weight += weight,
            Err(refused) => {
                drop(refused);
                self.lost = self.lost.saturating_add(1);
            }
        }
    }

    /// One more item, after all others, was lost.
    pub fn put_lost(&mut self)
        ensures puts { PutsLost self.old self.new }
        ensures bounded { IsBounded T.weight self.new }
    {
        self.lost = self.lost.saturating_add(1);
    }

    /// Takes the first one that waits.
    pub fn take(&mut self) -> Turn<T>
        ensures takes { Takes self.old result self.new }
        ensures bounded { IsBounded T.weight self.new }
    {
        if let Some(item) = self.items.pop_front() {
            self.weight -= item.weight();
            return Turn::Item(item);
        }
        if self.lost > 0 {
            self.lost -= 1;
            return Turn::Lost;
        }
        Turn::Nothing
    }

    /// Takes all that were lost and come next. Returns their number.
    pub fn take_lost(&mut self) -> u64
        ensures takes { TakesLost self.old result self.new }
        ensures bounded { IsBounded T.weight self.new }
    {
        if !self.items.is_empty() {
            return 0;
        }
        mem::replace(&mut self.lost, 0)
    }
}
