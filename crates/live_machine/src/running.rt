//! Whether a tenancy's job runs, and whether it is at home.
ghost use Rattle.std.specs.Prelude.{◌≡◌, ◌↔◌, true};
ghost use Rattle.live_machine.specs.Prelude.{AreAlone, live_of, state_in};
ghost use Rattle.live_machine.specs.Workers.{IsHome, runs_in};

use live_input::LiveLines;
use service_core::Service;
use tenant_slot::{MAX_ENTRIES, StateName};

/// Whether a job of that tenancy runs, and its journal has room for an entry. Its next step may be
/// out with a worker.
pub(crate) fn has_job(core: &Service, id: u32) -> bool
    ensures value { result ≡ runs_in (live_of core.now.histories id) }
    ensures alone { AreAlone core.now }
{
    match core.state(id) {
        Some(StateName::Packing | StateName::Placing | StateName::Routing) => {
            core.entry(id, MAX_ENTRIES - 1).is_none()
        }
        _ => false,
    }
}

/// Whether no worker has the next step of that name's job.
pub fn is_home(lines: &LiveLines<'_>, name: &[u8]) -> bool
    ensures { (result ≡ true) ↔ IsHome (state_in lines.now) name.now }
{
    let live = lines.live();
    let core = live.service();
    let id = live.names().last_id(name);
    has_job(core, id) == core.has_step(id)
}
