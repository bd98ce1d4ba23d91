ghost use Rattle.std.specs.Prelude.{◌≡◌, ◌<◌, ◌≤◌, [], Ok, Err, Some, true, false, All, IfErr, IfOk, length, map, option_copied, slice_get};
ghost use Rattle.service_core.specs.Prelude.{MAX_ENTRIES, Resource, has, is_there, moved_resource, IsStripSize, Answers, IsOrigin, is_takeable, routed_set};
ghost use Rattle.service_core.specs.History.{slot_of, state_of};
ghost use Rattle.service_core.specs.Texts.{Adds, CountAs, FitInto};
ghost use Rattle.service_core.specs.Tenancy.{GivesHistoryBack, GivesUp, GivesUpOrKeeps, PutsHistory, ServesHistory, StandsIn, TakesHistory, closed_history};

use crate::entry::Entry;
use crate::texts::{LastTexts, command_bytes, kept_reply};
use arch_file::SharedArch;
use device_book::Book;
use grid::Strip;
use job_state::{AnyJob, Back, Done};
use rr_graph::Resource;
use std::alloc::{AllocError, Global};
use std::marker::Model;
use tenant_slot::{
    Command, Event, MAX_ENTRIES, NotAnswered, Origin, PreparedReply, Reply, Slot, StateName,
    StepReply,
};

/// One tenancy with its journal, which is kept when the tenancy ends.
#[derive(Drop)]
pub(crate) struct Tenancy {
    id: u32,
    arch: SharedArch,
    strip: Strip,
    slot: Option<Slot>,
    journal: Vec<Entry>,
    last_texts: LastTexts,
    /// The bytes of the journal's texts. A text that many entries share counts once.
    held: u64,
    /// The most bytes that the journal's texts may have.
    text_limit: u64,
}

impl Model for Tenancy {
    ghost use Rattle.std.specs.Prelude.{is_some};
    ghost use Rattle.service_core.specs.History.{History};
    ghost use Rattle.service_core.specs.Tenancy.{IsHistory, slot_here};

    ghost Value = { History };

    ghost view = { λ t. record { id = t.id; arch = t.arch; strip = t.strip; text_limit = t.text_limit; live = is_some t.slot; here = slot_here t.slot; entries = t.journal.items } };

    ghost invariant = { λ t. IsHistory t.id t.arch t.strip t.slot t.journal.items t.held t.text_limit };
}

impl Tenancy {
    /// A tenancy at its admission. The texts of its journal may have at most `text_limit` bytes.
    pub(crate) fn new(
        alloc: Global,
        id: u32,
        arch: &SharedArch,
        strip: Strip,
        text_limit: u64,
    ) -> Result<Self, AllocError>
        requires { IsStripSize strip }
        ensures { IfOk result (λ t. t ≡ record {
          id = id;
          arch = arch.now;
          strip = strip;
          text_limit = text_limit;
          live = true;
          here = Some false;
          entries = [];
        }) }
    {
        Ok(Tenancy {
            id,
            arch: arch.clone()?,
            strip,
            slot: Some(Slot::new(alloc, id, arch.clone()?, strip)),
            journal: Vec::new(alloc),
            last_texts: LastTexts::none(),
            held: 0,
            text_limit,
        })
    }

    pub(crate) fn is_live(&self) -> bool
        ensures { result ≡ self.now.live }
    {
        self.slot.is_some()
    }

    pub(crate) fn width(&self) -> u32
        ensures { result ≡ self.now.strip.width }
    {
        self.strip.width
    }

    /// The number of entries in the journal.
    pub(crate) fn len(&self) -> u32
        ensures { result ≡ length self.now.entries }
    {
        self.journal.len() as u32
    }

    pub(crate) fn entry(&self, place: u32) -> Option<&Entry>
        ensures { option_copied result ≡ slice_get self.now.entries place }
    {
        self.journal.get(place as usize)
    }

    /// The bytes that the journal's texts count as. A text that many entries share counts once.
    pub(crate) fn text_bytes(&self) -> u64
        ensures { CountAs result self.now.entries }
    {
        self.held
    }

    /// The most bytes that the journal's texts may have, which they never exceed.
    pub(crate) fn text_limit(&self) -> u64
        ensures value { result ≡ self.now.text_limit }
        ensures fits { FitInto result self.now.entries }
    {
        self.text_limit
    }

    pub(crate) fn state(&self) -> StateName
        requires { self.now.live ≡ true }
        ensures { result ≡ (state_of self.now).name }
    {
        match &self.slot {
            Some(slot) => slot.state(),
            None => unreachable!(),
        }
    }

    /// Returns whether there is a step to take.
    pub(crate) fn has_step(&self) -> bool
        requires { self.now.live ≡ true }
        ensures { result ≡ is_takeable (slot_of self.now) }
    {
        match &self.slot {
            Some(slot) => slot.has_step(),
            None => unreachable!(),
        }
    }

    /// What it occupies of its strip, in node order.
    pub(crate) fn routed_resources(&self) -> &[Resource]
        requires { self.now.live ≡ true }
        ensures exact { (resource : Resource) →
            has result.now resource ≡ has (routed_set (state_of self.now)) resource }
        ensures there { All (λ resource. is_there self.now.arch self.now.strip resource ≡ true)
            result.now }
    {
        match &self.slot {
            Some(slot) => slot.routed_resources(),
            None => unreachable!(),
        }
    }

    /// Serves a command, records it with its reply, and returns copies of both. What the tenancy
    /// occupies is released if its state changes. If the texts of both have more bytes than are
    /// left for the journal, it fails with `NoMemory`.
    pub(crate) fn serve(
        &mut self,
        book: &mut Book,
        offset: u32,
        command: Command,
    ) -> Result<(Command, Reply), NotAnswered>
        requires live { self.old.live ≡ true }
        requires there { StandsIn book.old.extent offset self.old.arch self.old.strip }
        ensures served { ServesHistory self.old command result self.new }
        ensures book { GivesUpOrKeeps book.old offset self.old book.new self.new }
    {
        let Some(slot) = &mut self.slot else {
            unreachable!()
        };
        if self.journal.len() == MAX_ENTRIES as usize {
            drop(command);
            return Err(NotAnswered::JournalFull);
        }
        let spare = self.text_limit - self.held;
        if spare < command_bytes(&command) || self.journal.reserve(1).is_err() {
            drop(command);
            return Err(NotAnswered::NoMemory);
        }
        let journal = self.journal.as_slice();
        match prepare_reply(slot, journal, &self.last_texts, spare, &command) {
            Ok((answer, recorded)) => {
                let Recorded { reply, told, bytes } = recorded;
                give_up(book, offset, slot, &reply);
                drop(slot.accept(answer));
                self.last_texts.note(&reply, self.journal.len() as u32);
                self.held += bytes;
                let event = Event::Command(command);
                self.journal.push(Entry { event, reply }).unwrap();
                Ok(told)
            }
            Err(refusal) => {
                drop(command);
                Err(refusal)
            }
        }
    }

    /// Takes the next step of the running job out; `None` if it is out already.
    pub(crate) fn take(&mut self) -> Option<AnyJob>
        requires { self.old.live ≡ true }
        ensures { TakesHistory self.old result self.new }
    {
        let Some(slot) = &mut self.slot else {
            unreachable!()
        };
        slot.take()
    }

    /// Puts a step that was made, with what the caller knows of it, and records it with its reply.
    /// If memory runs out, the step comes back.
    pub(crate) fn put(
        &mut self,
        done: Done,
        origin: Origin,
    ) -> Result<StepReply, (Done, AllocError)>
        requires live { self.old.live ≡ true }
        requires id { done.id ≡ self.old.id }
        requires room { length self.old.entries < MAX_ENTRIES }
        requires origin { IsOrigin (slot_of self.old) done origin }
        ensures { PutsHistory self.old done result self.new }
    {
        let Some(slot) = &mut self.slot else {
            unreachable!()
        };
        if let Err(error) = self.journal.reserve(1) {
            return Err((done, error));
        }
        let (advance, reply) = slot.put_from(done, origin);
        let entry = Entry {
            event: Event::Advance(advance),
            reply: Reply::Step(reply),
        };
        self.journal.push(entry).unwrap();
        Ok(reply)
    }

    /// Takes a job back: if it is the next step of the running one, it can be taken again.
    pub(crate) fn give_back(&mut self, back: Back)
        requires live { self.old.live ≡ true }
        requires id { back.step.id ≡ self.old.id }
        ensures { GivesHistoryBack self.old back self.new }
    {
        let Some(slot) = &mut self.slot else {
            unreachable!()
        };
        slot.give_back(back);
    }

    /// Ends the tenancy. Its journal stays.
    pub(crate) fn close(&mut self)
        ensures { self.new ≡ closed_history self.old }
    {
        drop(self.slot.take());
    }
}

/// Releases what a tenancy occupies if its reply says that its state changes.
fn give_up(book: &mut Book, offset: u32, slot: &Slot, reply: &Reply)
    requires { StandsIn book.old.extent offset slot.now.state.arch slot.now.state.strip }
    ensures { GivesUp book.old (map (moved_resource offset) (routed_set slot.now.state)) reply.now
        book.new }
{
    if let Reply::Accepted(_) = reply {
        book.release(offset, slot.routed_resources());
    }
}

/// A command's reply before it is recorded.
struct Recorded {
    /// The reply as the journal keeps it.
    reply: Reply,
    /// Copies of the command and of the reply.
    told: (Command, Reply),
    /// The bytes by which the journal's texts grow.
    bytes: u64,
}

/// The answer to a command, and what is recorded of it, if its texts add at most `spare` bytes to
/// those of the journal. Nothing changes yet.
fn prepare_reply(
    slot: &Slot,
    journal: &[Entry],
    last_texts: &LastTexts,
    spare: u64,
    command: &Command,
) -> Result<(PreparedReply, Recorded), NotAnswered>
    ensures answer { IfOk result (λ r. Answers slot.now command.now (Ok r.0)) }
    ensures reply { IfOk result (λ r. r.1.reply ≡ r.0.reply) }
    ensures told { IfOk result (λ r. (r.1.told.0 ≡ command.now) × (r.1.told.1 ≡ r.0.reply)) }
    ensures within { IfOk result (λ r. r.1.bytes ≤ spare) }
    ensures adds { IfOk result (λ r. Adds journal.now command.now r.0.reply r.1.bytes) }
    ensures err { IfErr result (λ e. Answers slot.now command.now (Err e)) }
{
    let answer = slot.answer(command)?;
    match prepare(journal, last_texts, spare, command, answer.reply()) {
        Ok(recorded) => Ok((answer, recorded)),
        Err(_) => {
            drop(answer);
            Err(NotAnswered::NoMemory)
        }
    }
}

/// What is recorded of a command and its reply. Fails if their texts add more than `spare` bytes to
/// those of the journal, or if memory runs out.
fn prepare(
    journal: &[Entry],
    last_texts: &LastTexts,
    spare: u64,
    command: &Command,
    reply: &Reply,
) -> Result<Recorded, AllocError>
    ensures same { IfOk result (λ r. (r.reply ≡ reply.now) × (r.told.0 ≡ command.now)
        × (r.told.1 ≡ reply.now)) }
    ensures within { IfOk result (λ r. r.bytes ≤ spare) }
    ensures adds { IfOk result (λ r. Adds journal.now command.now reply.now r.bytes) }
{
    let (kept, added) = kept_reply(journal, last_texts.index_for(reply), reply)?;
    let bytes = command_bytes(command) + added;
    if spare < bytes {
        drop(kept);
        return Err(AllocError);
    }
    match copies_of(command, &kept) {
        Ok(told) => Ok(Recorded {
            reply: kept,
            told,
            bytes,
        }),
        Err(error) => {
            drop(kept);
            Err(error)
        }
    }
}

/// A copy of a command and of its reply.
fn copies_of(command: &Command, reply: &Reply) -> Result<(Command, Reply), AllocError>
    ensures { IfOk result (λ told. (told.0 ≡ command.now) × (told.1 ≡ reply.now)) }
{
    let reply = reply.clone()?;
    match command.clone() {
        Ok(command) => Ok((command, reply)),
        Err(error) => {
            drop(reply);
            Err(error)
        }
    }
}
