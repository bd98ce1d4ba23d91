//! The service with its account.
ghost use Rattle.std.specs.Prelude.{◌+◌, ◌≡◌, ◌≤◌, IfErr, IfOk, length, option_copied, option_map, slice_get, true, false};
ghost use Rattle.shared_core.specs.Prelude.{MAX_ADMISSIONS, offset_of, IsAdmitted, IsEvicted, IsGivenBack, IsMoved, IsServed, IsTaken, Puts, AreParted, state_of, IsDevice, AreAlone, empty_service, journal_of, live_of};
ghost use Rattle.shared_core.specs.CoreCalls.{Admits, ChangesService, CountsCommand, CountsOwnPut, CountsPut, Evicts, GivesLease, GivesShare, IsWrapped, MarksEntry};
ghost use Rattle.shared_core.specs.CoreState.{can_lease, has_room_in, is_idle_in, is_leased, is_live, is_marked};

mod closing;
mod numbers;

use crate::begun::Begun;
use crate::lease_marks::{LeaseMarks, marks_of};
use crate::slots::Slots;
use crate::tokens::{Lease, Share};
use crate::wrapping::{count_puts, no_marks, slots_of};
use job_state::{AnyJob, Back, Done};
use service_core::{Device, Entry, NotServed, OpRefusal, PutReply, Receipt, Service};
use std::alloc::{AllocError, Global};
use std::marker::Model;
use std::sync::ledger::{self, Blank, Book, Ledger};
use tenant_slot::{Command, MAX_ENTRIES, StateName};

/// The most shares.
pub const MAX_WORKERS: u32 = 16;

/// All tenancies, and the account of what sessions and workers entered.
pub struct Core<C: Begun, P: Ledger> {
    alloc: Global,
    service: Service,
    marks: Vec<LeaseMarks>,
    slots: Slots,
    commands: Book<C>,
    spare: ledger::Share<C>,
    puts: Book<P>,
    own: ledger::Share<P>,
    shares: u32,
}

impl<C: Begun, P: Ledger> Model for Core<C, P> {
    ghost use Rattle.shared_core.specs.CoreState.{CoreState};
    ghost use Rattle.shared_core.specs.Accounts.{IsAccount};

    ghost Value = { CoreState };

    ghost view = { λ c. record { service = c.service; marks = c.marks.items; slots = c.slots; shares = c.shares; own_puts = c.own.amount } };

    ghost invariant = { λ c. IsAccount C.begun C.stay c.service c.marks.items c.slots.holders
        (c.commands.total, c.spare.parts, c.spare.amount, C.parts)
        (c.puts.total, c.own.parts, P.parts) c.shares };
}

impl<C: Begun, P: Ledger> Drop for Core<C, P> {
    fn drop(self) {
        let Core {
            alloc: _,
            service,
            marks,
            slots: _,
            commands: _,
            spare: _,
            puts: _,
            own: _,
            shares: _,
        } = self;
        drop((service, marks));
    }
}

impl<C: Begun, P: Ledger> Core<C, P> {
    /// The core of a device that no one uses.
    pub fn new(
        alloc: Global,
        device: Device,
        commands: Blank,
        puts: Blank,
    ) -> Result<Self, AllocError>
        requires device { IsDevice device }
        requires commands { (commands.name ≡ C.name) × (commands.parts ≡ C.parts)
            × (commands.parts ≡ MAX_ADMISSIONS + 1) }
        requires puts { (puts.name ≡ P.name) × (puts.parts ≡ P.parts) × (puts.parts
            ≡ MAX_WORKERS + 1) }
        requires begun { C.begun ≡ empty_service device }
        ensures { IfOk result (λ core. IsWrapped (empty_service device) core) }
    {
        let service = Service::new(alloc, device)?;
        match Core::over(alloc, service, commands, puts) {
            Ok(core) => Ok(core),
            Err((service, error)) => {
                drop(service);
                Err(error)
            }
        }
    }

    /// The core of a service. Nothing is marked, no lease and no share was given, and the put
    /// entries that there are count as the core's own. If memory runs out the service is handed
    /// back.
    pub fn over(
        alloc: Global,
        service: Service,
        commands: Blank,
        puts: Blank,
    ) -> Result<Self, (Service, AllocError)>
        requires commands { (commands.name ≡ C.name) × (commands.parts ≡ C.parts)
            × (commands.parts ≡ MAX_ADMISSIONS + 1) }
        requires puts { (puts.name ≡ P.name) × (puts.parts ≡ P.parts) × (puts.parts
            ≡ MAX_WORKERS + 1) }
        requires begun { C.begun ≡ service }
        ensures ok { IfOk result (λ core. IsWrapped service core) }
        ensures err { IfErr result (λ back. back.0 ≡ service) }
    {
        let marks = match no_marks(alloc, &service) {
            Ok(marks) => marks,
            Err(error) => return Err((service, error)),
        };
        let _room = service.room_for(1);
        let slots = slots_of(&service);
        let (commands, spare) = commands.open::<C>();
        let (mut puts, mut own) = puts.open::<P>();
        count_puts(&service, &mut puts, &mut own);
        Ok(Core {
            alloc,
            service,
            marks,
            slots,
            commands,
            spare,
            puts,
            own,
            shares: 0,
        })
    }

    /// The service, for its readers.
    pub fn service(&self) -> &Service
        ensures { result.now ≡ self.now.service }
    {
        &self.service
    }

    /// The number of tenancies that have been admitted so far: their ids are 1 to that number.
    pub fn admissions(&self) -> u32
        ensures value { result ≡ length self.now.service.histories }
        ensures few { result ≤ MAX_ADMISSIONS }
        ensures marks { length self.now.marks ≡ result }
        ensures alone { AreAlone self.now.service }
    {
        self.service.admissions()
    }

    /// The state of a live tenancy.
    pub fn state(&self, id: u32) -> Option<StateName>
        ensures value { result ≡ option_map (λ h. (state_of h).name)
            (live_of self.now.service.histories id) }
        ensures alone { AreAlone self.now.service }
    {
        self.service.state(id)
    }

    /// The offset of a live tenancy's strip: the number of columns before it. All strips are
    /// separated.
    pub fn offset(&self, id: u32) -> Option<u32>
        ensures value { result ≡ offset_of self.now.service.plan.strips id }
        ensures parted { AreParted self.now.service.device self.now.service }
        ensures alone { AreAlone self.now.service }
    {
        self.service.offset(id)
    }

    /// An entry of a journal, also of closed tenancies. Each journal's replies are those of its
    /// tenancy alone.
    pub fn entry(&self, id: u32, place: u32) -> Option<&Entry>
        ensures value { option_copied result ≡ slice_get (journal_of self.now.service id) place }
        ensures alone { AreAlone self.now.service }
    {
        self.service.entry(id, place)
    }

    /// Whether the tenancy's lease made this entry of its journal, also of closed tenancies.
    pub fn is_marked(&self, id: u32, place: u32) -> bool
        ensures { result ≡ is_marked self.now.marks id place }
    {
        match marks_of(&self.marks, id) {
            Some(marks) => marks.has(place),
            None => false,
        }
    }

    /// Whether a tenancy's lease was given, also of closed tenancies.
    pub fn is_leased(&self, id: u32) -> bool
        ensures { result ≡ is_leased self.now.marks id }
    {
        match marks_of(&self.marks, id) {
            Some(marks) => marks.is_given(),
            None => false,
        }
    }

    /// The number of shares that were given.
    pub fn shares_given(&self) -> u32
        ensures { result ≡ self.now.shares }
    {
        self.shares
    }

    /// Whether no step of the tenancy will follow: it isn't live, no job of it runs, or its journal
    /// is full.
    pub fn idle(&self, id: u32) -> bool
        ensures value { result ≡ is_idle_in (live_of self.now.service.histories id) }
        ensures alone { AreAlone self.now.service }
    {
        match self.service.state(id) {
            Some(StateName::Packing | StateName::Placing | StateName::Routing) => {
                !self.has_room(id)
            }
            _ => true,
        }
    }

    /// Whether the tenancy is live, and its lease wasn't given.
    fn can_lease(&self, id: u32) -> bool
        ensures { result ≡ can_lease self.now id }
    {
        self.service.state(id).is_some() && !self.is_leased(id)
    }

    /// Whether the tenancy is live and its journal has room.
    fn has_room(&self, id: u32) -> bool
        ensures value { result ≡ has_room_in (live_of self.now.service.histories id) }
        ensures alone { AreAlone self.now.service }
    {
        match self.service.state(id) {
            Some(_) => self.service.entry(id, MAX_ENTRIES - 1).is_none(),
            None => false,
        }
    }
}

impl<C: Begun, P: Ledger> Core<C, P> {
    /// Admits a tenancy, at the least offset that separates its strip from the others, with a slot
    /// number that is nobody's. Returns its id and offset. The caller must ensure that `stay` is
    /// false.
    pub fn admit(&mut self, width: u32) -> Result<(u32, u32), OpRefusal>
        requires { C.stay ≡ false }
        ensures admitted { IsAdmitted self.old.service width result self.new.service }
        ensures rest { Admits self.old result self.new }
    {
        if let Err(refusal) = self.service.room_for(width) {
            return Err(refusal);
        }
        if self.marks.reserve(1).is_err() {
            return Err(OpRefusal::NoMemory);
        }
        let (id, offset) = self.service.admit(width)?;
        self.marks.push(LeaseMarks::new(self.alloc)).unwrap();
        self.slots.hand(0, id);
        Ok((id, offset))
    }

    /// Ends a tenancy. Its strip and its slot number are free again, and its journal stays. Takes
    /// no memory. The caller must ensure that `stay` is false.
    pub fn evict(&mut self, id: u32) -> Result<(), OpRefusal>
        requires { C.stay ≡ false }
        ensures evicted { IsEvicted self.old.service id result self.new.service }
        ensures rest { Evicts self.old id result self.new }
    {
        self.service.evict(id)?;
        self.slots.hand(id, 0);
        Ok(())
    }

    /// Moves a live tenancy's strip to that offset, with all that the tenancy owns. Jobs that are
    /// out go on. Takes no memory. The caller must ensure that `stay` is false.
    pub fn move_strip(&mut self, id: u32, offset: u32) -> Result<(), OpRefusal>
        requires { C.stay ≡ false }
        ensures moved { IsMoved self.old.service id offset result self.new.service }
        ensures rest { ChangesService self.old self.new }
    {
        self.service.move_strip(id, offset)
    }

    /// Serves a command of a live tenancy, as if it were alone. Its entry isn't marked. The caller
    /// must ensure that `stay` is false: otherwise each command is one of a lease.
    pub fn tenant(&mut self, id: u32, command: Command) -> Result<Receipt, NotServed>
        requires { C.stay ≡ false }
        ensures served { IsServed self.old.service id command result self.new.service }
        ensures rest { ChangesService self.old self.new }
    {
        self.service.tenant(id, command)
    }

    /// Serves a command of a lease, as `tenant` does. Its entry is marked, and the lease counts it.
    /// While the tenancies stay the lease's tenancy is live.
    pub fn lease_command(
        &mut self,
        lease: &mut Lease<C>,
        command: Command,
    ) -> Result<Receipt, NotServed>
        ensures served { IsServed self.old.service lease.old.id command result self.new.service }
        ensures rest { MarksEntry self.old lease.old.id result self.new }
        ensures counted { CountsCommand lease.old result lease.new }
        ensures live { C.stay ≡ true → is_live self.old.service.histories lease.old.id ≡ true }
    {
        let id = lease.id;
        if !self.has_room(id) {
            return self.service.tenant(id, command);
        }
        let receipt = self.marks[id as usize - 1].serve(&mut self.service, id, command)?;
        self.commands.add(&mut lease.part, 1);
        Ok(receipt)
    }

    /// The next step of a live tenancy's running job, which is out then. None if no job of it runs,
    /// that step is out, or the journal is full. Takes no memory.
    pub fn take(&mut self, id: u32) -> Option<AnyJob>
        ensures taken { IsTaken self.old.service id result self.new.service }
        ensures rest { ChangesService self.old self.new }
    {
        self.service.take(id)
    }

    /// Puts a step that was made, as if its tenancy were alone; if it is recorded the core counts
    /// it as its own. If memory runs out the step is handed back. The caller must ensure that
    /// `stay` is false: otherwise each put is one of a share.
    pub fn put(&mut self, done: Done) -> Result<PutReply, (Done, AllocError)>
        requires { C.stay ≡ false }
        ensures put { Puts self.old.service done result self.new.service }
        ensures rest { CountsOwnPut self.old result self.new }
    {
        let reply = self.service.put(done)?;
        if let PutReply::Recorded(_) = &reply {
            self.puts.add(&mut self.own, 1);
        }
        Ok(reply)
    }

    /// Puts a worker's step, as `put` does; if it is recorded the worker's share counts it.
    pub fn share_put(
        &mut self,
        share: &mut Share<P>,
        done: Done,
    ) -> Result<PutReply, (Done, AllocError)>
        ensures put { Puts self.old.service done result self.new.service }
        ensures rest { ChangesService self.old self.new }
        ensures counted { CountsPut share.old result share.new }
    {
        let reply = self.service.put(done)?;
        if let PutReply::Recorded(_) = &reply {
            self.puts.add(&mut share.part, 1);
        }
        Ok(reply)
    }

    /// Takes back a job that wasn't stepped, or whose step couldn't be put. It can be taken again
    /// if it is the next step of the running job, and is dropped otherwise. It is never recorded.
    /// Takes no memory.
    pub fn give_back(&mut self, back: Back)
        ensures back { IsGivenBack self.old.service back self.new.service }
        ensures rest { ChangesService self.old self.new }
    {
        self.service.give_back(back)
    }

    /// Gives the lease of a live tenancy, once. Takes no memory.
    pub fn lease(&mut self, id: u32) -> Option<Lease<C>>
        ensures { GivesLease self.old id result self.new }
    {
        if !self.can_lease(id) {
            return None;
        }
        self.marks[id as usize - 1].give();
        let part = self.spare.split_off(1, 0);
        Some(Lease { id, part })
    }

    /// Gives a worker's share, up to 16. Takes no memory.
    pub fn share(&mut self) -> Option<Share<P>>
        ensures { GivesShare self.old result self.new }
    {
        if self.shares == MAX_WORKERS {
            return None;
        }
        let part = self.own.split_off(1, 0);
        self.shares += 1;
        Some(Share { part })
    }
}
