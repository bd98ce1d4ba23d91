//! Which slot numbers are in a queue.
ghost use Rattle.std.specs.Prelude.{◌≡◌, Some, true, false};
ghost use Rattle.shared_core.specs.CoreState.{AreSlotted, holder_of, is_live, ready_number, with_mark};

use crate::begun::Begun;
use crate::shared::Core;
use std::sync::ledger::Ledger;

impl<C: Begun, P: Ledger> Core<C, P> {
    /// Marks and returns the slot number of a tenancy from which `take` would give a job. None if
    /// it wouldn't or the number is marked. Exactly the live tenancies have numbers, and no two
    /// have the same. Takes no memory.
    pub fn mark_ready(&mut self, id: u32) -> Option<u32>
        ensures value { result ≡ ready_number self.old id }
        ensures core { self.new ≡ record self.old { slots = with_mark self.old.slots result true } }
        ensures slotted { AreSlotted (is_live self.old.service.histories) self.old.slots.holders }
    {
        if !self.service.has_step(id) {
            return None;
        }
        self.slots.mark(id)
    }

    /// Unmarks a slot number, and returns the live tenancy whose number it is. Takes no memory.
    pub fn unmark_number(&mut self, slot: u32) -> Option<u32>
        ensures value { result ≡ holder_of self.old.slots.holders slot }
        ensures core { self.new ≡ record self.old {
          slots = with_mark self.old.slots (Some slot) false;
        } }
        ensures slotted { AreSlotted (is_live self.old.service.histories) self.old.slots.holders }
    {
        self.slots.unmark(slot)
    }
}
