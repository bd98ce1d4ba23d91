//! The 64 slot numbers.
ghost use Rattle.std.specs.Prelude.{◌≡◌, ◌<◌, Some, false, true, replicate, IfSome};
ghost use Rattle.shared_core.specs.Prelude.{MAX_STRIPS};
ghost use Rattle.shared_core.specs.CoreState.{holder_of, number_of, unmarked_number, with_holder, with_mark};

use std::marker::Model;

/// Whose each number is (0 for nobody), and whether it is in the queue.
#[derive(Drop)]
pub(crate) struct Slots {
    holders: [u32; 64],
    queued: [bool; 64],
}

impl Model for Slots {
    ghost use Rattle.std.specs.Prelude.{◌≡◌, length};
    ghost use Rattle.strips.specs.declared.layout.TheConstants.{MAX_STRIPS};
    ghost use Rattle.shared_core.specs.CoreState.{SlotTable};

    ghost Value = { SlotTable };

    ghost view = { λ s. record { holders = s.holders; queued = s.queued } };

    ghost invariant = { λ s. (length s.holders ≡ MAX_STRIPS) × (length s.queued ≡ MAX_STRIPS) };
}

impl Slots {
    /// All numbers, each nobody's.
    pub(crate) fn new() -> Self
        ensures { result ≡ record {
          holders = replicate MAX_STRIPS 0;
          queued = replicate
              MAX_STRIPS false;
        } }
    {
        Slots {
            holders: [0; 64],
            queued: [false; 64],
        }
    }

    /// The number of a tenancy, or the first that is nobody's.
    fn number(&self, id: u32) -> Option<usize>
        ensures value { result ≡ number_of self.now.holders id }
        ensures small { IfSome result (λ n. n < MAX_STRIPS) }
    {
        self.holders.iter().position(|holder| *holder == id)
    }

    /// Hands the number of one tenancy to another; 0 is nobody.
    pub(crate) fn hand(&mut self, from: u32, to: u32)
        ensures { self.new ≡ with_holder self.old from to }
    {
        if let Some(number) = self.number(from) {
            self.holders[number] = to;
        }
    }

    /// Marks the number of a tenancy as queued, if it isn't.
    pub(crate) fn mark(&mut self, id: u32) -> Option<u32>
        ensures value { result ≡ unmarked_number self.old (number_of self.old.holders id) }
        ensures slots { self.new ≡ with_mark self.old result true }
    {
        let number = self.number(id)?;
        if self.queued[number] {
            return None;
        }
        self.queued[number] = true;
        Some(number as u32)
    }

    /// Unmarks a number, and returns whose it is.
    pub(crate) fn unmark(&mut self, number: u32) -> Option<u32>
        ensures value { result ≡ holder_of self.old.holders number }
        ensures slots { self.new ≡ with_mark self.old (Some number) false }
    {
        let holder = *self.holders.get(number as usize)?;
        self.queued[number as usize] = false;
        if holder == 0 { None } else { Some(holder) }
    }
}
