//! A core to be tested, and calls of it. A function that can end early doesn't hold a core: it
//! borrows the core, and its caller drops the core by a call.
ghost use Rattle.std.specs.Prelude.{◌≡◌, ◌≤◌, IfSome};
ghost use Rattle.grid.specs.declared.TheConstants.{MAX_COLUMNS};
ghost use Rattle.arch_file.specs.Arch.{IsArch};
ghost use Rattle.job_state.specs.JobValue.{basis_in};

use arch_file::{Arch, read_arch};
use fixtures::ARCHITECTURE;
use job_state::{AnyJob, Done};
use line_text::Text;
use service_core::{Device, NO_TEXT_LIMIT, PutReply, Receipt, Service, window_for};
use std::alloc::Global;
use strips::{DeviceGraph, Window};
use tenant_slot::{Command, Reply, SharedText, StateName, StepReply};

/// The smallest architecture, with two tracks.
pub(crate) fn architecture(alloc: Global) -> Option<Arch>
    ensures { IfSome result (λ arch. IsArch arch) }
{
    match read_arch(alloc, ARCHITECTURE.as_bytes(), 2) {
        Ok(arch) => Some(arch),
        Err(_) => None,
    }
}

/// The core of a device with this number of columns and one row.
pub(crate) fn new_core(alloc: Global, columns: u32) -> Option<Service>
    requires some { 1 ≤ columns }
    requires few { columns ≤ MAX_COLUMNS }
{
    match architecture(alloc) {
        Some(arch) => {
            let device = Device {
                arch,
                columns,
                rows: 1,
                text_limit: NO_TEXT_LIMIT,
            };
            Service::new(alloc, device).ok()
        }
        None => None,
    }
}

/// The core of a device with nine columns and one row, in which the texts of a journal may have at
/// most `text_limit` bytes.
pub(crate) fn limited_core(alloc: Global, text_limit: u64) -> Option<Service> {
    match architecture(alloc) {
        Some(arch) => {
            let device = Device {
                arch,
                columns: 9,
                rows: 1,
                text_limit,
            };
            Service::new(alloc, device).ok()
        }
        None => None,
    }
}

/// The graph of that device.
pub(crate) fn new_graph(alloc: Global, columns: u32) -> Option<DeviceGraph>
    requires some { 1 ≤ columns }
    requires few { columns ≤ MAX_COLUMNS }
{
    match architecture(alloc) {
        Some(arch) => {
            let graph = DeviceGraph::new(alloc, &arch, columns, 1);
            drop(arch);
            graph.ok()
        }
        None => None,
    }
}

/// A shared text of these characters.
pub(crate) fn text(alloc: Global, netlist: &str) -> Option<SharedText> {
    match Text::from_slice(alloc, netlist.as_bytes()) {
        Ok(text) => SharedText::new(alloc, text).ok(),
        Err(_) => None,
    }
}

/// Whether a command is accepted, and leads to that state.
pub(crate) fn leads_to(core: &mut Service, id: u32, command: Command, state: StateName) -> bool {
    match core.tenant(id, command) {
        Ok(receipt) => accepts(receipt, state),
        Err(_) => false,
    }
}

fn accepts(receipt: Receipt, state: StateName) -> bool {
    let is_so = matches!(receipt.reply(), Reply::Accepted(name) if *name == state);
    drop(receipt);
    is_so
}

/// Whether the tenancy uploads the netlist, and begins to pack it.
pub(crate) fn begins_packing(alloc: Global, core: &mut Service, id: u32, netlist: &str) -> bool {
    match text(alloc, netlist) {
        Some(text) => {
            leads_to(core, id, Command::Upload(text), StateName::Loaded)
                && leads_to(core, id, Command::Pack, StateName::Packing)
        }
        None => false,
    }
}

/// Takes the next step of the tenancy's job, makes it through the window at that offset, and puts
/// it. A job whose step isn't made or put is given back.
pub(crate) fn step(
    core: &mut Service,
    graph: &DeviceGraph,
    id: u32,
    offset: u32,
) -> Option<PutReply> {
    match core.take(id) {
        Some(job) => step_at(core, graph, offset, job),
        None => None,
    }
}

/// Makes the step of a job that was taken, through the window at that offset, and puts it. A job
/// whose step isn't made or put is given back.
pub(crate) fn step_at(
    core: &mut Service,
    graph: &DeviceGraph,
    offset: u32,
    job: AnyJob,
) -> Option<PutReply> {
    match window_for(&job, graph, offset) {
        Some(window) => step_through(core, job, &window),
        None => {
            core.give_back(job.into_back());
            None
        }
    }
}

fn step_through(core: &mut Service, job: AnyJob, window: &Window<'_>) -> Option<PutReply>
    requires { window.now ≡ basis_in job.step.sources }
{
    match job.step(window) {
        Ok(done) => put(core, done),
        Err(back) => {
            core.give_back(back);
            None
        }
    }
}

fn put(core: &mut Service, done: Done) -> Option<PutReply> {
    match core.put(done) {
        Ok(reply) => Some(reply),
        Err((done, _)) => {
            core.give_back(done.into_back());
            None
        }
    }
}

/// Whether the tenancy's job is finished by exactly this number of steps, made through the window
/// at that offset.
pub(crate) fn finishes(
    core: &mut Service,
    graph: &DeviceGraph,
    id: u32,
    offset: u32,
    steps: u32,
) -> bool {
    let mut last = None;
    for _ in 0..steps {
        last = step(core, graph, id, offset);
    }
    last == Some(PutReply::Recorded(StepReply::Finished))
}
