//! The entries that one tenancy's lease made.
ghost use Rattle.std.specs.Prelude.{◌≡◌, option_copied, true};
ghost use Rattle.shared_core.specs.Prelude.{IsServed, live_of};
ghost use Rattle.shared_core.specs.CoreState.{with_lease, has_place, has_room_in, marked_of, no_marks};
ghost use Rattle.shared_core.specs.Accounts.{AreRising};
ghost use Rattle.shared_core.specs.CoreCalls.{MarksPlace};

use service_core::{NotServed, Receipt, Service};
use std::alloc::Global;
use std::marker::Model;
use tenant_slot::Command;

/// Whether the tenancy's lease was given, and the places of the entries that it made, in rising
/// order.
pub struct LeaseMarks {
    given: bool,
    places: Vec<u32>,
}

impl Model for LeaseMarks {
    ghost use Rattle.shared_core.specs.CoreState.{Marked};

    ghost Value = { Marked };

    ghost view = { λ m. record { given = m.given; places = m.places.items } };
}

impl Drop for LeaseMarks {
    fn drop(self) {
        let LeaseMarks {
            given: _,
            places: _,
        } = self;
    }
}

impl LeaseMarks {
    /// The marks of a tenancy whose lease wasn't given.
    pub(crate) fn new(alloc: Global) -> Self
        ensures { result ≡ no_marks }
    {
        LeaseMarks {
            given: false,
            places: Vec::new(alloc),
        }
    }

    /// Whether the lease was given.
    pub fn is_given(&self) -> bool
        ensures { result ≡ self.now.given }
    {
        self.given
    }

    /// Whether the lease made the entry at that place.
    pub fn has(&self, place: u32) -> bool
        requires { AreRising self.now.places }
        ensures { result ≡ has_place self.now.places place }
    {
        self.places.binary_search(&place).is_ok()
    }

    /// Marks the lease as given.
    pub(crate) fn give(&mut self)
        ensures { self.new ≡ with_lease self.old }
    {
        self.given = true;
    }

    /// Serves a command of the lease, whose tenancy is live and has room in its journal, and keeps
    /// the place of the entry.
    pub(crate) fn serve(
        &mut self,
        service: &mut Service,
        id: u32,
        command: Command,
    ) -> Result<Receipt, NotServed>
        requires { has_room_in (live_of service.old.histories id) ≡ true }
        ensures served { IsServed service.old id command result service.new }
        ensures marked { MarksPlace self.old result self.new }
    {
        if self.places.reserve(1).is_err() {
            drop(command);
            return Err(NotServed::NoMemory);
        }
        let receipt = service.tenant(id, command)?;
        self.places.push(receipt.place()).unwrap();
        Ok(receipt)
    }
}

/// The marks of that id.
#[tactic(auto, using(crate::proofs::Marks::by_id))]
pub(crate) fn marks_of(marks: &[LeaseMarks], id: u32) -> Option<&LeaseMarks>
    ensures { option_copied result ≡ marked_of marks.now id }
{
    if id == 0 || id as usize > marks.len() {
        return None;
    }
    Some(&marks[id as usize - 1])
}
