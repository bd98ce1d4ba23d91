//! How a core ends, once its leases and shares are all back.
ghost use Rattle.std.specs.Prelude.{◌≡◌, ◌+◌, ◌≤◌, true};
ghost use Rattle.shared_core.specs.Accounts.{AreMarks, leases_in, places_sum};
ghost use Rattle.shared_core.specs.CoreState.{puts_in};
ghost use Rattle.shared_core.specs.Following.{Follows, Stays};
ghost use Rattle.shared_core.specs.Reaching.{IsReached};

use crate::begun::Begun;
use crate::lease_marks::LeaseMarks;
use crate::shared::Core;
use service_core::Service;
use std::sync::ledger;
use std::sync::ledger::Ledger;

impl<C: Begun, P: Ledger> Core<C, P> {
    /// The service and the marks of a core whose leases and shares are all back: their amounts are
    /// the numbers of marked entries and of puts.
    pub fn close(
        self,
        commands: ledger::Share<C>,
        puts: ledger::Share<P>,
    ) -> (Service, Vec<LeaseMarks>)
        requires leases { leases_in self.marks ≤ commands.parts }
        requires shares { self.shares ≤ puts.parts }
        ensures service { result.0 ≡ self.service }
        ensures marks { result.1.items ≡ self.marks }
        ensures leases { commands.parts ≡ leases_in self.marks }
        ensures shares { puts.parts ≡ self.shares }
        ensures commands { commands.amount ≡ places_sum self.marks }
        ensures puts { puts.amount + self.own_puts ≡ puts_in self.service.histories }
        ensures account { AreMarks C.begun.histories self.service.histories self.marks }
        ensures follows { Follows C.begun self.service }
        ensures stays { C.stay ≡ true → Stays C.begun self.service }
        ensures reached { C.stay ≡ true → IsReached C.begun self.service self.marks }
    {
        let Core {
            alloc: _,
            service,
            marks,
            slots: _,
            commands: mut book,
            spare: mut all,
            puts: mut put_book,
            own: mut all_puts,
            shares: _,
        } = self;
        all.merge(commands);
        book.audit(&mut all);
        all_puts.merge(puts);
        put_book.audit(&mut all_puts);
        (service, marks)
    }

    /// An empty part, to which the leases' parts are added.
    pub fn no_commands(&mut self) -> ledger::Share<C>
        ensures nothing { (result.parts ≡ 0) × (result.amount ≡ 0) }
        ensures same { self.new ≡ self.old }
    {
        self.spare.empty()
    }

    /// An empty part, to which the shares' parts are added.
    pub fn no_puts(&mut self) -> ledger::Share<P>
        ensures nothing { (result.parts ≡ 0) × (result.amount ≡ 0) }
        ensures same { self.new ≡ self.old }
    {
        self.own.empty()
    }
}
