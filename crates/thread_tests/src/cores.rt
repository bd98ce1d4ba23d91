//! A core to be shared, and the graph of its device.
ghost use Rattle.std.specs.Prelude.{◌+◌, ◌≡◌, ◌≤◌, IfSome, false};
ghost use Rattle.shared_core.specs.declared.shared.TheConstants.{MAX_WORKERS};
ghost use Rattle.service_core.specs.declared.service.TheConstants.{MAX_ADMISSIONS};
ghost use Rattle.arch_file.specs.declared.arch.TheConstants.{MAX_TRACKS};
ghost use Rattle.arch_file.specs.Arch.{IsArch};
ghost use Rattle.job_state.specs.JobValue.{basis_in};
ghost use Rattle.service_core.specs.Service.{empty_service};
ghost use Rattle.thread_tests.specs.Devices.{IsSmall};

use arch_file::{Arch, read_arch};
use fixtures::{AND, ARCHITECTURE};
use job_state::{AnyJob, Done};
use line_text::Text;
use service_core::{Device, NO_TEXT_LIMIT, Receipt, window_for};
use shared_core::{Begun, Core};
use std::alloc::Global;
use std::sync::ledger::{Blank, Ledger};
use strips::{DeviceGraph, Window};
use tenant_slot::{Command, Reply, SharedText};

/// The columns of the device, which has one row.
const COLUMNS: u32 = 8;

/// The tracks of each channel.
const TRACKS: u32 = 2;

/// The smallest architecture, with this number of tracks.
fn architecture(alloc: Global, tracks: u32) -> Option<Arch>
    requires few { 1 ≤ tracks }
    requires many { tracks ≤ MAX_TRACKS }
    ensures { IfSome result (λ arch. IsArch arch) }
{
    match read_arch(alloc, ARCHITECTURE.as_bytes(), tracks) {
        Ok(arch) => Some(arch),
        Err(_) => None,
    }
}

/// The device of the tests: the smallest architecture, eight columns and one row.
pub(crate) fn new_device(alloc: Global) -> Option<Device>
    ensures { IfSome result IsSmall }
{
    match architecture(alloc, TRACKS) {
        Some(arch) => Some(Device {
            arch,
            columns: COLUMNS,
            rows: 1,
            text_limit: NO_TEXT_LIMIT,
        }),
        None => None,
    }
}

/// The core of the device, without tenancies.
pub(crate) fn new_core<C: Begun, P: Ledger>(
    alloc: Global,
    device: Device,
    commands: Blank,
    puts: Blank,
) -> Option<Core<C, P>>
    requires small { IsSmall device }
    requires commands { (commands.name ≡ C.name) × (commands.parts ≡ C.parts)
        × (commands.parts ≡ MAX_ADMISSIONS + 1) }
    requires puts { (puts.name ≡ P.name) × (puts.parts ≡ P.parts) × (puts.parts ≡ MAX_WORKERS + 1) }
    requires begun { C.begun ≡ empty_service device }
{
    Core::<C, P>::new(alloc, device, commands, puts).ok()
}

/// The graph of the device.
pub(crate) fn new_graph(alloc: Global) -> Option<DeviceGraph> {
    graph_with(alloc, TRACKS)
}

/// The graph of a device that has two tracks more. No job fits it.
pub(crate) fn other_graph(alloc: Global) -> Option<DeviceGraph> {
    graph_with(alloc, TRACKS + 2)
}

/// The graph of a device with this number of tracks.
fn graph_with(alloc: Global, tracks: u32) -> Option<DeviceGraph>
    requires few { 1 ≤ tracks }
    requires many { tracks ≤ MAX_TRACKS }
{
    match architecture(alloc, tracks) {
        Some(arch) => {
            let graph = DeviceGraph::new(alloc, &arch, COLUMNS, 1);
            drop(arch);
            graph.ok()
        }
        None => None,
    }
}

pub(crate) fn text(alloc: Global) -> Option<SharedText> {
    match Text::from_slice(alloc, AND.as_bytes()) {
        Ok(text) => SharedText::new(alloc, text).ok(),
        Err(_) => None,
    }
}

/// Admits a tenancy, uploads a netlist, and begins to pack it. Returns the slot's number, which is
/// marked.
pub(crate) fn begin_packing<C: Begun, P: Ledger>(
    alloc: Global,
    core: &mut Core<C, P>,
    id: u32,
) -> Option<u32>
    requires { C.stay ≡ false }
{
    match text(alloc) {
        Some(text) => {
            let begins = core.admit(1).is_ok()
                && is_served(core, id, Command::Upload(text))
                && is_served(core, id, Command::Pack);
            if begins { core.mark_ready(id) } else { None }
        }
        None => None,
    }
}

/// Admits a tenancy, uploads a netlist, packs it by one step and begins to place it. Returns the
/// slot's number, which is marked.
pub(crate) fn begin_placing<C: Begun, P: Ledger>(
    alloc: Global,
    core: &mut Core<C, P>,
    graph: &DeviceGraph,
    id: u32,
) -> Option<u32>
    requires { C.stay ≡ false }
{
    let slot = begin_packing(alloc, core, id);
    let begins = is_stepped(core, graph, id)
        && is_served(core, id, Command::Place { seed: 7, effort: 0 });
    if begins { slot } else { None }
}

/// Admits a tenancy, uploads a netlist, packs it by one step, places it by three, and begins to
/// route it. Returns the slot's number, which is marked.
pub(crate) fn begin_routing<C: Begun, P: Ledger>(
    alloc: Global,
    core: &mut Core<C, P>,
    graph: &DeviceGraph,
    id: u32,
) -> Option<u32>
    requires { C.stay ≡ false }
{
    let slot = begin_placing(alloc, core, graph, id);
    let begins = is_stepped(core, graph, id)
        && is_stepped(core, graph, id)
        && is_stepped(core, graph, id)
        && is_served(core, id, Command::Route);
    if begins { slot } else { None }
}

pub(crate) fn is_served<C: Begun, P: Ledger>(
    core: &mut Core<C, P>,
    id: u32,
    command: Command,
) -> bool
    requires { C.stay ≡ false }
{
    core.tenant(id, command).is_ok()
}

/// Whether the file that the command asks for has these bytes.
pub(crate) fn has_file<C: Begun, P: Ledger>(
    core: &mut Core<C, P>,
    id: u32,
    command: Command,
    file: &str,
) -> bool
    requires { C.stay ≡ false }
{
    match core.tenant(id, command) {
        Ok(receipt) => tells_file(receipt, file),
        Err(_) => false,
    }
}

fn tells_file(receipt: Receipt, file: &str) -> bool {
    let is_so = match receipt.reply() {
        Reply::File { kind: _, text } => text.as_bytes() == file.as_bytes(),
        _ => false,
    };
    drop(receipt);
    is_so
}

/// Makes the next step, which the core counts as its own.
pub(crate) fn is_stepped<C: Begun, P: Ledger>(
    core: &mut Core<C, P>,
    graph: &DeviceGraph,
    id: u32,
) -> bool
    requires { C.stay ≡ false }
{
    match core.take(id) {
        Some(job) => is_made(core, graph, job),
        None => false,
    }
}

fn is_made<C: Begun, P: Ledger>(core: &mut Core<C, P>, graph: &DeviceGraph, job: AnyJob) -> bool
    requires { C.stay ≡ false }
{
    match window_for(&job, graph, 0) {
        Some(window) => is_made_through(core, &window, job),
        None => {
            core.give_back(job.into_back());
            false
        }
    }
}

fn is_made_through<C: Begun, P: Ledger>(
    core: &mut Core<C, P>,
    window: &Window<'_>,
    job: AnyJob,
) -> bool
    requires window { window.now ≡ basis_in job.step.sources }
    requires stay { C.stay ≡ false }
{
    match job.step(window) {
        Ok(done) => is_put(core, done),
        Err(back) => {
            core.give_back(back);
            false
        }
    }
}

fn is_put<C: Begun, P: Ledger>(core: &mut Core<C, P>, done: Done) -> bool
    requires { C.stay ≡ false }
{
    match core.put(done) {
        Ok(_) => true,
        Err((done, _)) => {
            core.give_back(done.into_back());
            false
        }
    }
}
