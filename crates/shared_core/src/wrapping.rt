//! What a core makes for a service that it begins with.
ghost use Rattle.std.specs.Prelude.{◌≡◌, ◌+◌, ◌<◌, ◌≤◌, [], ◌∷◌, false, replicate, length, IfOk};
ghost use Rattle.shared_core.specs.Prelude.{MAX_ADMISSIONS, MAX_STRIPS, AreParted, AreAlone, journal_of};
ghost use Rattle.shared_core.specs.CoreState.{AreSlotted, is_live, puts_among, puts_in, no_marks};

use crate::lease_marks::LeaseMarks;
use crate::slots::Slots;
use service_core::{Entry, Service};
use std::alloc::{AllocError, Global};
use std::sync::ledger;
use std::sync::ledger::{Book, Ledger};
use tenant_slot::{Event, MAX_ENTRIES};

/// Marks of each tenancy that has been admitted, with no lease given.
pub(crate) fn no_marks(alloc: Global, service: &Service) -> Result<Vec<LeaseMarks>, AllocError>
    ensures marks { IfOk result (λ marks.
        marks.items ≡ replicate (length service.now.histories) no_marks) }
    ensures few { length service.now.histories ≤ MAX_ADMISSIONS }
{
    let admissions = service.admissions();
    let mut marks = Vec::new(alloc);
    for _id in 0..admissions {
        marks.push(LeaseMarks::new(alloc))?;
    }
    Ok(marks)
}

/// A slot number for each live tenancy.
pub(crate) fn slots_of(service: &Service) -> Slots
    requires parted { AreParted service.now.device service.now }
    requires few { length service.now.plan.strips ≤ MAX_STRIPS }
    ensures slotted { AreSlotted (is_live service.now.histories) result.holders }
    ensures queued { result.queued ≡ replicate MAX_STRIPS false }
{
    let mut slots = Slots::new();
    for index in 0..service.admissions() {
        if service.state(index + 1).is_some() {
            slots.hand(0, index + 1);
        }
    }
    slots
}

/// Counts the put entries of all journals as those of that share.
pub(crate) fn count_puts<P: Ledger>(
    service: &Service,
    puts: &mut Book<P>,
    own: &mut ledger::Share<P>,
)
    requires { 0 < own.old.parts }
    ensures total { puts.new.total ≡ puts.old.total + puts_in service.now.histories }
    ensures amount { own.new.amount ≡ own.old.amount + puts_in service.now.histories }
    ensures parts { own.new.parts ≡ own.old.parts }
{
    for index in 0..service.admissions() {
        count_puts_of(service, index + 1, puts, own);
    }
}

/// Counts the put entries of one journal.
fn count_puts_of<P: Ledger>(
    service: &Service,
    id: u32,
    puts: &mut Book<P>,
    own: &mut ledger::Share<P>,
)
    requires alone { AreAlone service.now }
    requires part { 0 < own.old.parts }
    ensures total { puts.new.total ≡ puts.old.total + puts_among (journal_of service.now id) }
    ensures amount { own.new.amount ≡ own.old.amount + puts_among (journal_of service.now id) }
    ensures parts { own.new.parts ≡ own.old.parts }
{
    for place in 0..MAX_ENTRIES {
        let Some(entry) = service.entry(id, place) else {
            return;
        };
        count_entry(entry, puts, own);
    }
}

/// Counts one entry, if it is a put.
fn count_entry<P: Ledger>(entry: &Entry, puts: &mut Book<P>, own: &mut ledger::Share<P>)
    requires { 0 < own.old.parts }
    ensures total { puts.new.total ≡ puts.old.total + puts_among (entry.now ∷ []) }
    ensures amount { own.new.amount ≡ own.old.amount + puts_among (entry.now ∷ []) }
    ensures parts { own.new.parts ≡ own.old.parts }
{
    match &entry.event {
        Event::Command(_) => {}
        Event::Advance(_) => puts.add(own, 1),
    }
}
