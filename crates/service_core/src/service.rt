ghost use Rattle.std.specs.Prelude.{◌≡◌, ◌≤◌, ◌+◌, IfOk, IfSome, None, MatchBool, is_some, length, option_map, option_copied, slice_get};
ghost use Rattle.service_core.specs.Prelude.{IsLaidOut};
ghost use Rattle.service_core.specs.History.{state_of};
ghost use Rattle.service_core.specs.Service.{AreAlone, empty_service, history_of, journal_of, live_of};
ghost use Rattle.service_core.specs.Texts.{FitInto};
ghost use Rattle.service_core.specs.Calls.{IsAdmitted, IsEvicted, IsGivenBack, IsMoved, IsOriginIn, IsServed, IsTaken, Puts, takeable_in};
ghost use Rattle.service_core.specs.Kept.{CanTakeUp, ChecksAdmission, IsDevice, IsLiveIn, IsPlaceOf, TakesUp};
ghost use Rattle.service_core.specs.Owners.{HasOneOwner, ListsOwnersOf};
ghost use Rattle.service_core.specs.Headline.{AreParted};

mod journals;
mod strip_sizes;

use crate::device::Device;
use crate::entry::Entry;
use crate::not_served::{NotServed, Note, NoteCause};
use crate::op_refusal::OpRefusal;
use crate::put_reply::PutReply;
use crate::receipt::Receipt;
use crate::tenancy::Tenancy;
use arch_file::SharedArch;
use device_book::{Book, Owned};
use grid::Strip;
use job_state::{AnyJob, Back, Done};
use std::alloc::{AllocError, Global};
use std::marker::Model;
use strips::{PlacedStrip, StripPlan};
use tenant_slot::{Command, MAX_ENTRIES, Origin, StateName, StepReply};

/// The largest number of admissions: ids are 1 to 65,535, and no id is given twice.
pub const MAX_ADMISSIONS: usize = 65_535;

/// The tenancies on one device. The tenancy of an id is at the index `id - 1`, live or closed. The
/// value is the device, the strips of the live tenancies with their offsets, and each tenancy's
/// history.
pub struct Service {
    alloc: Global,
    arch: SharedArch,
    rows: u32,
    layout: StripPlan,
    tenancies: Vec<Tenancy>,
    book: Book,
    /// The most bytes that the texts of one journal may have.
    text_limit: u64,
}

impl Model for Service {
    ghost use Rattle.service_core.specs.Kept.{IsSound};
    ghost use Rattle.service_core.specs.Service.{ServiceState};

    ghost Value = { ServiceState };

    ghost view = { λ s. record {
      device = record { arch = s.arch; columns = s.layout.columns; rows = s.rows; text_limit = s.text_limit };
      plan = s.layout;
      histories = s.tenancies.items;
    } };

    ghost invariant = { λ s. IsSound s.book
        (record { arch = s.arch; columns = s.layout.columns; rows = s.rows; text_limit = s.text_limit }) s.layout.strips
        s.tenancies.items };
}

impl Drop for Service {
    fn drop(self) {
        let Service {
            alloc: _,
            arch,
            rows: _,
            layout,
            tenancies,
            book,
            text_limit: _,
        } = self;
        drop(arch);
        drop(layout);
        drop(tenancies);
        drop(book);
    }
}

impl Service {
    /// Returns the service of a device without tenancies. Fails with [`AllocError`] if memory runs
    /// out.
    pub fn new(alloc: Global, device: Device) -> Result<Self, AllocError>
        requires { IsDevice device }
        ensures { IfOk result (λ service. service ≡ empty_service device) }
    {
        let Device {
            arch,
            columns,
            rows,
            text_limit,
        } = device;
        let book = Book::new(alloc, &arch, columns, rows)?;
        Ok(Service {
            alloc,
            arch: SharedArch::new(alloc, arch)?,
            rows,
            layout: StripPlan::new(columns),
            tenancies: Vec::new(alloc),
            book,
            text_limit,
        })
    }

    /// The number of admissions so far: the ids are 1 to that number.
    pub fn admissions(&self) -> u32
        ensures value { result ≡ length self.now.histories }
        ensures few { result ≤ MAX_ADMISSIONS }
        ensures alone { AreAlone self.now }
    {
        self.tenancies.len() as u32
    }

    /// The state of a live tenancy; `None` if the tenancy isn't live.
    pub fn state(&self, id: u32) -> Option<StateName>
        ensures value { result ≡ option_map (λ h. (state_of h).name)
            (live_of self.now.histories id) }
        ensures alone { AreAlone self.now }
    {
        if !is_live(&self.tenancies, id) {
            return None;
        }
        Some(self.tenancies[id as usize - 1].state())
    }

    /// Returns whether [`Service::take`] would return a job.
    pub fn has_step(&self, id: u32) -> bool
        ensures { result ≡ takeable_in (live_of self.now.histories id) }
    {
        is_live(&self.tenancies, id) && self.tenancies[id as usize - 1].has_step()
    }

    /// An entry of a journal, also of a closed tenancy; `None` if there is no such entry. Each
    /// journal's replies are those of its tenancy alone.
    #[tactic(auto, using(crate::proofs::Lists::by_id))]
    pub fn entry(&self, id: u32, place: u32) -> Option<&Entry>
        ensures value { option_copied result ≡ slice_get (journal_of self.now id) place }
        ensures alone { AreAlone self.now }
    {
        if id == 0 || id as usize > self.tenancies.len() {
            return None;
        }
        self.tenancies[id as usize - 1].entry(place)
    }

    /// The most bytes that the texts of a journal may have, also of a closed tenancy: the device's
    /// limit, and they never have more. `None` if there is no such journal.
    #[tactic(auto, using(crate::proofs::Lists::by_id))]
    pub fn text_limit(&self, id: u32) -> Option<u64>
        ensures some { is_some result ≡ is_some (history_of self.now.histories id) }
        ensures limit { IfSome result (λ limit. limit ≡ self.now.device.text_limit) }
        ensures fits { IfSome result (λ limit. FitInto limit (journal_of self.now id)) }
    {
        if id == 0 || id as usize > self.tenancies.len() {
            return None;
        }
        Some(self.tenancies[id as usize - 1].text_limit())
    }

    /// Lists each pin, wire and pad of the device that is owned, with its owner, in node order:
    /// what the tenancy has routed, at its strip's offset. Nothing has two owners. Fails with
    /// [`AllocError`] if memory runs out.
    pub fn owners(&self) -> Result<Vec<Owned>, AllocError>
        ensures value { IfOk result (λ list. ListsOwnersOf self.now list.items) }
        ensures exact { HasOneOwner self.now }
        ensures alone { AreAlone self.now }
    {
        self.book.owned_resources(self.alloc)
    }

    /// Returns the offset at which a tenancy of that width would be admitted now, if memory
    /// suffices, or why it would be refused. All strips are separated.
    pub fn room_for(&self, width: u32) -> Result<u32, OpRefusal>
        ensures admits { ChecksAdmission self.now width result }
        ensures laid_out { IsLaidOut self.now.plan }
        ensures parted { AreParted self.now.device self.now }
    {
        let _nobody = self.layout.offset(0);
        self.check_admission(width)
    }

    /// Admits a tenancy, at the least offset at which its strip is separated from the others.
    /// Returns its id and offset, or why it is refused; then nothing changes.
    pub fn admit(&mut self, width: u32) -> Result<(u32, u32), OpRefusal>
        ensures { IsAdmitted self.old width result self.new }
    {
        let offset = self.check_admission(width)?;
        let id = self.tenancies.len() as u32 + 1;
        let strip = Strip {
            width,
            rows: self.rows,
            io_rat: self.arch.arch().io_rat,
        };
        self.tenancies.reserve(1)?;
        let tenancy = Tenancy::new(self.alloc, id, &self.arch, strip, self.text_limit)?;
        self.layout.place(PlacedStrip { id, offset, width });
        self.tenancies.push(tenancy).unwrap();
        Ok((id, offset))
    }

    /// Returns the offset at which a tenancy of that width is admitted, if memory suffices.
    fn check_admission(&self, width: u32) -> Result<u32, OpRefusal>
        ensures { ChecksAdmission self.now width result }
    {
        if self.layout.is_bad_width(width) {
            return Err(OpRefusal::BadWidth);
        }
        if self.layout.is_full() {
            return Err(OpRefusal::TooManyStrips);
        }
        if self.tenancies.len() == MAX_ADMISSIONS {
            return Err(OpRefusal::IdsSpent);
        }
        match self.layout.first_fit(width) {
            Some(offset) => Ok(offset),
            None => Err(OpRefusal::NoRoom),
        }
    }

    /// Ends a tenancy. Its strip is free again, and its journal stays. Refused if the tenancy isn't
    /// live. Takes no memory.
    pub fn evict(&mut self, id: u32) -> Result<(), OpRefusal>
        ensures { IsEvicted self.old id result self.new }
    {
        if !is_live(&self.tenancies, id) {
            return Err(OpRefusal::NoSuchTenancy);
        }
        let offset = self.place_of(id);
        let tenancy = &mut self.tenancies[id as usize - 1];
        self.book.release(offset, tenancy.routed_resources());
        tenancy.close();
        self.layout.remove(id);
        Ok(())
    }

    /// Moves a live tenancy's strip to that offset, with all that the tenancy owns. Refused as
    /// `NoRoom` exactly if the strips would not be separated then; a refused move changes nothing.
    /// Jobs that are out go on. Takes no memory.
    pub fn move_strip(&mut self, id: u32, offset: u32) -> Result<(), OpRefusal>
        ensures { IsMoved self.old id offset result self.new }
    {
        if !is_live(&self.tenancies, id) {
            return Err(OpRefusal::NoSuchTenancy);
        }
        let from = self.place_of(id);
        if self.layout.move_to(id, offset).is_err() {
            return Err(OpRefusal::NoRoom);
        }
        let tenancy = &self.tenancies[id as usize - 1];
        self.book
            .shift(id as u16, from, offset, tenancy.routed_resources());
        Ok(())
    }

    /// The offset of a live tenancy's strip.
    fn place_of(&self, id: u32) -> u32
        requires { IsLiveIn self.now.histories id }
        ensures { IsPlaceOf self.now id result }
    {
        self.offset(id).unwrap()
    }

    /// Serves a command of a live tenancy, as if it were alone. If the tenancy isn't live, its
    /// journal is full or memory runs out, it fails with [`NotServed`] and nothing changes.
    pub fn tenant(&mut self, id: u32, command: Command) -> Result<Receipt, NotServed>
        ensures { IsServed self.old id command result self.new }
    {
        if !is_live(&self.tenancies, id) {
            let cause = NoteCause::NoSuchTenancy;
            return Err(NotServed::NoSuchTenancy(Note { id, cause }));
        }
        let offset = self.place_of(id);
        let tenancy = &mut self.tenancies[id as usize - 1];
        let place = tenancy.len();
        match tenancy.serve(&mut self.book, offset, command) {
            Ok((command, reply)) => Ok(Receipt {
                id,
                place,
                command,
                reply,
            }),
            Err(tenant_slot::NotAnswered::NoMemory) => Err(NotServed::NoMemory),
            Err(tenant_slot::NotAnswered::JournalFull) => {
                let cause = NoteCause::JournalFull;
                Err(NotServed::JournalFull(Note { id, cause }))
            }
        }
    }

    /// Takes the next step of a live tenancy's running job out; the step is made exactly if it came
    /// back made. `None` if no job of it runs, that step is out already, or the journal is full.
    /// Takes no memory.
    pub fn take(&mut self, id: u32) -> Option<AnyJob>
        ensures { IsTaken self.old id result self.new }
    {
        if !is_live(&self.tenancies, id) {
            return None;
        }
        self.tenancies[id as usize - 1].take()
    }

    /// Puts a step that was made, as if its tenancy were alone. If memory runs out, the step comes
    /// back.
    pub fn put(&mut self, done: Done) -> Result<PutReply, (Done, AllocError)>
        ensures { Puts self.old done result self.new }
    {
        self.put_from(done, Origin::Unknown)
    }

    /// Puts a step as `put` does, with what the caller knows of it. If it is known to be its
    /// tenancy's next one, its sources aren't compared. If memory runs out, the step comes back.
    pub fn put_from(&mut self, done: Done, origin: Origin) -> Result<PutReply, (Done, AllocError)>
        requires { IsOriginIn self.old done origin }
        ensures { Puts self.old done result self.new }
    {
        let id = done.id();
        if !is_live(&self.tenancies, id) {
            drop(done.park());
            return Ok(PutReply::Gone);
        }
        let offset = self.place_of(id);
        let tenancy = &mut self.tenancies[id as usize - 1];
        if tenancy.len() == MAX_ENTRIES {
            drop(done.park());
            return Ok(PutReply::Full);
        }
        match tenancy.put(done, origin) {
            Ok(reply) => {
                claim(&mut self.book, id, offset, tenancy, reply);
                Ok(PutReply::Recorded(reply))
            }
            Err(back) => Err(back),
        }
    }

    /// Takes back a job that wasn't stepped, or whose step couldn't be put. If it is the next step
    /// of the running one, it can be taken again; otherwise it is dropped. It is never recorded.
    /// Takes no memory.
    pub fn give_back(&mut self, back: Back)
        ensures { IsGivenBack self.old back self.new }
    {
        let id = back.id();
        if is_live(&self.tenancies, id) {
            self.tenancies[id as usize - 1].give_back(back);
        } else {
            drop(back.park());
        }
    }
}

/// Claims what a tenancy occupies after a job of it has finished.
fn claim(book: &mut Book, id: u32, offset: u32, tenancy: &Tenancy, reply: StepReply)
    requires { CanTakeUp book.old id offset tenancy.now reply }
    ensures { TakesUp book.old id offset tenancy.now reply book.new }
{
    match reply {
        StepReply::Finished => book.claim(id as u16, offset, tenancy.routed_resources()),
        StepReply::Advanced | StepReply::Stale => {}
    }
}

#[tactic(auto, using(crate::proofs::Lists::by_id))]
fn is_live(tenancies: &[Tenancy], id: u32) -> bool
    ensures { MatchBool result (IsLiveIn tenancies.now id) (live_of tenancies.now id ≡ None) }
{
    if id == 0 || id as usize > tenancies.len() {
        return false;
    }
    tenancies[id as usize - 1].is_live()
}
