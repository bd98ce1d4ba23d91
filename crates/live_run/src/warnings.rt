//! Warnings that a service is nearly full.
ghost use Rattle.std.specs.Prelude.{◌≡◌, ◌-◌, ◌/◌, nat_le};

use live_input::LiveLines;
use service_core::{MAX_ADMISSIONS, Service};
use std::alloc::Global;
use std::io::Eprint;
use std::{fmt, mem};
use tenant_slot::MAX_ENTRIES;

/// A limit of which nine tenths are used.
#[derive(Clone, Copy)]
enum Warning {
    /// So many tenancies were admitted.
    Admissions(u32),
    /// The journal of that tenancy has so many entries.
    Entries(u32, u32),
    /// The texts of that tenancy take so many bytes, of so many.
    Texts(u32, u64, u64),
}

impl fmt::Display for Warning {
    fn fmt<W: fmt::Write>(&self, f: &mut fmt::Formatter<W>) -> fmt::Result {
        match self {
            Warning::Admissions(count) => {
                write!(
                    f,
                    "warning: {count} of {MAX_ADMISSIONS} tenancies are admitted"
                )
            }
            Warning::Entries(id, count) => {
                write!(f, "warning: tenancy {id}: {count} of {MAX_ENTRIES} entries")
            }
            Warning::Texts(id, bytes, limit) => {
                write!(
                    f,
                    "warning: tenancy {id}: {bytes} of {limit} bytes of texts"
                )
            }
        }
    }
}

/// A live tenancy, and whether it was warned of its entries and of its texts.
#[derive(Clone, Copy)]
struct Tenant {
    id: u32,
    entries: bool,
    texts: bool,
}

/// What was warned of already.
#[derive(Drop)]
pub struct Warnings {
    alloc: Global,
    /// The most bytes that the texts of one tenancy may take.
    text_limit: u64,
    admissions: bool,
    /// How many tenancies had been admitted when it looked last, and those that were live then.
    admitted: u32,
    tenants: Vec<Tenant>,
}

impl Warnings {
    /// Nothing was warned of.
    pub fn new(alloc: Global, text_limit: u64) -> Self {
        Warnings {
            alloc,
            text_limit,
            admissions: false,
            admitted: 0,
            tenants: Vec::new(alloc),
        }
    }

    /// Looks at how full a service is, and warns of each limit of which nine tenths are used, once.
    /// A tenancy for which memory runs out is not looked at any more.
    pub fn look<H: Eprint>(&mut self, rt: &H, lines: &LiveLines<'_>) {
        let core = lines.live().service();
        let admitted = core.admissions();
        if !self.admissions && is_nearly_full(u64::from(admitted), MAX_ADMISSIONS as u64) {
            self.admissions = true;
            warn(rt, Warning::Admissions(admitted));
        }
        let tenants = mem::replace(&mut self.tenants, Vec::new(self.alloc));
        for tenant in tenants.as_slice() {
            self.look_at(rt, core, *tenant);
        }
        for place in self.admitted..admitted {
            self.look_at(rt, core, new_tenant(place + 1));
        }
        self.admitted = admitted;
    }

    /// Looks at a tenancy, and notes it if it is live.
    fn look_at<H: Eprint>(&mut self, rt: &H, core: &Service, tenant: Tenant) {
        let Some(entries) = core.entries(tenant.id) else {
            return;
        };
        let bytes = core.text_bytes(tenant.id).unwrap_or(0);
        let mut tenant = tenant;
        if !tenant.entries && is_nearly_full(u64::from(entries), u64::from(MAX_ENTRIES)) {
            tenant.entries = true;
            warn(rt, Warning::Entries(tenant.id, entries));
        }
        if !tenant.texts && is_nearly_full(bytes, self.text_limit) {
            tenant.texts = true;
            warn(rt, Warning::Texts(tenant.id, bytes, self.text_limit));
        }
        let _ = self.tenants.push(tenant);
    }
}

/// A tenancy of which nothing was warned.
fn new_tenant(id: u32) -> Tenant
    ensures { result.id ≡ id }
{
    Tenant {
        id,
        entries: false,
        texts: false,
    }
}

/// Whether nine tenths of a limit are used.
fn is_nearly_full(count: u64, limit: u64) -> bool
    ensures { result ≡ nat_le (limit - limit / 10) count }
{
    count >= limit - limit / 10
}

fn warn<H: Eprint>(rt: &H, warning: Warning) {
    let _ = rt.eprintln(warning);
}
