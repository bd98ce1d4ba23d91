//! The answers to a session's items.
ghost use Rattle.std.specs.Prelude.{◌≡◌, ◌<◌, ◌++◌, ◌∷◌, [], None, Some, MatchBool, length, true, vec_len, vec_capacity};
ghost use Rattle.transcripts.specs.declared.item.ItemAnswer.TheVariants.{Refused};
ghost use Rattle.transcripts.specs.Transcripts.{AreOfLive, Enters, receipts_of, with_no_memory, with_place};

use crate::item::{Item, ItemAnswer, SessionEnd};
use service_core::NotServed;
use sessions::SessionRefusal;
use shared_core::{Begun, Core, Lease};
use std::alloc::Global;
use std::marker::Model;
use std::sync::ledger::Ledger;
use tenant_slot::Command;

/// A lease, and the answers to the items of its session, in order: there is a receipt for each
/// entry that the lease made. While the tenancies stay no item has the answer that the tenancy
/// isn't live.
pub struct Transcript<C: Begun> {
    lease: Lease<C>,
    items: Vec<Item>,
    no_memory: u64,
    end: Option<SessionEnd>,
}

impl<C: Begun> Model for Transcript<C> {
    ghost use Rattle.std.specs.Prelude.{◌≡◌, true};
    ghost use Rattle.transcripts.specs.Transcripts.{IsTranscript, TranscriptState};

    ghost Value = { TranscriptState };

    ghost view = { λ t. record { id = t.lease.id; items = t.items.items; no_memory = t.no_memory; end = t.end } };

    ghost invariant = { λ t. IsTranscript t.lease.made t.items.items (C.stay ≡ true) };
}

impl<C: Begun> Drop for Transcript<C> {
    fn drop(self) {
        let Transcript {
            lease: _,
            items,
            no_memory: _,
            end: _,
        } = self;
        drop(items);
    }
}

impl<C: Begun> Transcript<C> {
    /// The transcript of a lease that has made no entry yet.
    pub fn new(alloc: Global, lease: Lease<C>) -> Self
        requires { lease.made ≡ 0 }
        ensures { result ≡ record { id = lease.id; items = []; no_memory = 0; end = None } }
    {
        Transcript {
            lease,
            items: Vec::new(alloc),
            no_memory: 0,
            end: None,
        }
    }

    /// The tenancy whose session it is.
    pub fn id(&self) -> u32
        ensures { result ≡ self.now.id }
    {
        self.lease.id()
    }

    /// The items with their answers.
    pub fn items(&self) -> &[Item]
        ensures { result.now ≡ self.now.items }
    {
        self.items.as_slice()
    }

    /// The number of items after the last of these that ran out of memory.
    pub fn no_memory(&self) -> u64
        ensures { result ≡ self.now.no_memory }
    {
        self.no_memory
    }

    /// How the session ended. While the tenancies stay none of its items has the answer that the
    /// tenancy isn't live.
    pub fn end(&self) -> Option<SessionEnd>
        ensures end { result ≡ self.now.end }
        ensures live { C.stay ≡ true → AreOfLive self.now.items }
    {
        self.end
    }

    /// Notes that an item is refused by itself. If memory runs out the item is counted.
    pub fn refuse(&mut self, refusal: SessionRefusal) -> bool
        ensures { MatchBool result (self.new ≡ with_place self.old (Refused refusal))
            (self.new ≡ with_no_memory self.old) }
    {
        if self.items.reserve(1).is_err() {
            self.count_no_memory();
            return false;
        }
        append(
            &mut self.items,
            &mut self.no_memory,
            ItemAnswer::Refused(refusal),
        );
        true
    }

    /// Counts an item that ran out of memory.
    pub fn count_no_memory(&mut self)
        ensures { self.new ≡ with_no_memory self.old }
    {
        self.no_memory = self.no_memory.saturating_add(1);
    }

    /// Notes how the session ended.
    pub fn finish(&mut self, end: SessionEnd)
        ensures { self.new ≡ record self.old { end = Some end } }
    {
        self.end = Some(end);
    }

    /// Ends the transcript and hands its lease back.
    pub fn into_lease(self) -> Lease<C>
        ensures id { result.id ≡ self.id }
        ensures made { result.made ≡ length (receipts_of self.items) }
    {
        let Transcript {
            lease,
            items: _,
            no_memory: _,
            end: _,
        } = self;
        lease
    }
}

impl<C: Begun> Transcript<C> {
    /// Enters a command by the lease, and notes its answer. Its entry is marked as the lease's, at
    /// the receipt's place. If memory runs out the item is counted, and the core doesn't change.
    pub fn enter<P: Ledger>(&mut self, core: &mut Core<C, P>, command: Command) -> bool
        ensures { Enters self.old core.old command result core.new self.new }
    {
        if self.items.reserve(1).is_err() {
            drop(command);
            self.count_no_memory();
            return false;
        }
        let place = match core.lease_command(&mut self.lease, command) {
            Ok(receipt) => ItemAnswer::Receipt(receipt),
            Err(NotServed::JournalFull(note)) => ItemAnswer::Note(note),
            Err(NotServed::NoSuchTenancy(note)) => ItemAnswer::Note(note),
            Err(NotServed::NoMemory) => {
                self.count_no_memory();
                return false;
            }
        };
        append(&mut self.items, &mut self.no_memory, place);
        true
    }
}

/// Appends an item with this answer, after those that ran out of memory.
fn append(items: &mut Vec<Item>, no_memory: &mut u64, place: ItemAnswer)
    requires { vec_len items.old < vec_capacity items.old }
    ensures items { items.new.items ≡ items.old.items
        ++ record { place = place; no_memory_before = no_memory.old } ∷ [] }
    ensures none { no_memory.new ≡ 0 }
{
    let no_memory_before = *no_memory;
    *no_memory = 0;
    items
        .push(Item {
            place,
            no_memory_before,
        })
        .unwrap();
}
