//! A slot to be tested, and a job that leaves it and comes back. A function that can end early
//! doesn't hold a slot: it borrows the slot, and its caller drops the slot by a call.
ghost use Rattle.std.specs.Prelude.{◌≡◌, ◌<◌};
ghost use Rattle.tenant_slot.specs.declared.slot.TheConstants.{MAX_ENTRIES};
ghost use Rattle.grid.specs.Sizes.{IsStripSize};
ghost use Rattle.job_state.specs.JobValue.{basis_in};

use crate::cores::{architecture, new_graph, text};
use arch_file::SharedArch;
use fixtures::AND;
use grid::Strip;
use job_state::{AnyJob, Done, JobKind, SharedText, Sources};
use service_core::window_for;
use std::alloc::Global;
use strips::{DeviceGraph, Window};
use tenant_slot::{Advance, Command, Reply, Slot, StateName, StepReply};

/// The smallest architecture, to be shared.
fn shared_architecture(alloc: Global) -> Option<SharedArch> {
    match architecture(alloc) {
        Some(arch) => SharedArch::new(alloc, arch).ok(),
        None => None,
    }
}

/// A strip of one place.
fn strip(arch: &SharedArch) -> Strip
    ensures { IsStripSize result }
{
    Strip {
        width: 1,
        rows: 1,
        io_rat: arch.arch().io_rat,
    }
}

/// An empty slot of a strip of one place.
fn slot(alloc: Global) -> Option<Slot> {
    match shared_architecture(alloc) {
        Some(arch) => {
            let strip = strip(&arch);
            Some(Slot::new(alloc, 7, arch, strip))
        }
        None => None,
    }
}

/// Whether the answer to a status command is the status once it is accepted.
fn accepts_later(slot: &mut Slot) -> bool {
    match slot.answer(&Command::Status) {
        Ok(answer) => is_status(slot.accept(answer)),
        Err(_) => false,
    }
}

fn is_status(reply: Reply) -> bool {
    let is_so = matches!(&reply, Reply::Status(_));
    drop(reply);
    is_so
}

/// Whether the netlist is loaded, and its packing begins.
fn begins_packing(alloc: Global, slot: &mut Slot) -> bool {
    match text(alloc, AND) {
        Some(text) => {
            leads_to(slot, &Command::Upload(text), StateName::Loaded)
                && leads_to(slot, &Command::Pack, StateName::Packing)
        }
        None => false,
    }
}

fn leads_to(slot: &mut Slot, command: &Command, state: StateName) -> bool {
    match slot.command(command) {
        Ok(reply) => accepts(reply, state),
        Err(_) => false,
    }
}

fn accepts(reply: Reply, state: StateName) -> bool {
    let is_so = matches!(&reply, Reply::Accepted(name) if *name == state);
    drop(reply);
    is_so
}

/// Whether a job of that tenancy, generation and number is the first step of the netlist's packing.
fn is_first(id: u32, generation: u32, number: u32, sources: &Sources) -> bool {
    id == 7
        && generation == 1
        && number == 1
        && sources.kind == JobKind::Packing
        && sources.seed == 0
        && sources.effort == 0
        && sources.text.as_bytes() == AND.as_bytes()
}

/// Whether a job reports its step before it is made, after it, and when given back.
#[tactic(auto, using(crate::proofs::Taken::out_so))]
fn tells_its_step(slot: &mut Slot, graph: &DeviceGraph) -> bool {
    match slot.take() {
        Some(job) => {
            let is_told = is_first(job.id(), job.generation(), job.number(), job.sources());
            goes_round(slot, graph, job) && is_told
        }
        None => false,
    }
}

fn goes_round(slot: &mut Slot, graph: &DeviceGraph, job: AnyJob) -> bool
    requires { job.step.id ≡ slot.old.id }
{
    match window_for(&job, graph, 0) {
        Some(window) => is_made(slot, &window, job),
        None => {
            slot.give_back(job.into_back());
            false
        }
    }
}

fn is_made(slot: &mut Slot, window: &Window<'_>, job: AnyJob) -> bool
    requires id { job.step.id ≡ slot.old.id }
    requires window { window.now ≡ basis_in job.step.sources }
{
    let fits = job.fits(window);
    match job.step(window) {
        Ok(done) => comes_back(slot, done) && fits,
        Err(back) => {
            slot.give_back(back);
            false
        }
    }
}

fn comes_back(slot: &mut Slot, done: Done) -> bool
    requires { done.id ≡ slot.old.id }
{
    let is_told = is_first(done.id(), done.generation(), done.number(), done.sources());
    let back = done.into_back();
    let is_told_back = is_first(back.id(), back.generation(), back.number(), back.sources());
    slot.give_back(back);
    is_told && is_told_back
}

/// Whether the job is finished by its next step.
#[tactic(auto, using(crate::proofs::Taken::out_so))]
fn is_finished(slot: &mut Slot, graph: &DeviceGraph) -> bool {
    match slot.take() {
        Some(job) => puts(slot, graph, job),
        None => false,
    }
}

fn puts(slot: &mut Slot, graph: &DeviceGraph, job: AnyJob) -> bool
    requires id { job.step.id ≡ slot.old.id }
    requires room { slot.old.state.entries < MAX_ENTRIES }
{
    match window_for(&job, graph, 0) {
        Some(window) => puts_through(slot, &window, job),
        None => {
            slot.give_back(job.into_back());
            false
        }
    }
}

fn puts_through(slot: &mut Slot, window: &Window<'_>, job: AnyJob) -> bool
    requires id { job.step.id ≡ slot.old.id }
    requires room { slot.old.state.entries < MAX_ENTRIES }
    requires window { window.now ≡ basis_in job.step.sources }
{
    match job.step(window) {
        Ok(done) => {
            let (made, reply) = slot.put(done);
            made == FIRST && reply == StepReply::Finished
        }
        Err(back) => {
            slot.give_back(back);
            false
        }
    }
}

/// The record of the first step of the first job.
const FIRST: Advance = Advance {
    generation: 1,
    number: 1,
    foreign: false,
};

/// Whether a job leaves the slot, comes back with its step made, and leaves once more.
fn job_leaves(alloc: Global, slot: &mut Slot, graph: &DeviceGraph) -> bool {
    slot.id() == 7
        && accepts_later(slot)
        && begins_packing(alloc, slot)
        && slot.has_step()
        && tells_its_step(slot, graph)
        && is_finished(slot, graph)
        && slot.state() == StateName::Packed
        && slot.routed_resources().is_empty()
}

fn is_so_with(alloc: Global, graph: &DeviceGraph) -> bool {
    match slot(alloc) {
        Some(mut slot) => {
            let is_so = job_leaves(alloc, &mut slot, graph);
            drop(slot);
            is_so
        }
        None => false,
    }
}

fn is_so_of(alloc: Global) -> bool {
    match new_graph(alloc, 1) {
        Some(graph) => {
            let is_so = is_so_with(alloc, &graph);
            drop(graph);
            is_so
        }
        None => false,
    }
}

#[test]
fn a_job_tells_its_step(rt: HostRuntime) {
    assert!(rt; is_so_of(rt.alloc()));
}

/// Whether sources equal their copy, and not sources with another effort.
fn are_compared(sources: &Sources) -> bool {
    match sources.clone() {
        Ok(copy) => is_other(sources, copy),
        Err(_) => false,
    }
}

fn is_other(sources: &Sources, copy: Sources) -> bool {
    let is_same = sources.same(&copy);
    let mut other = copy;
    other.effort = 1;
    let is_so = is_same && !sources.same(&other);
    drop(other);
    is_so
}

fn compares_sources(arch: &SharedArch, text: &SharedText) -> bool {
    match Sources::packing(arch, strip(arch), text) {
        Ok(sources) => {
            let is_so = are_compared(&sources);
            drop(sources);
            is_so
        }
        Err(_) => false,
    }
}

fn makes_sources(alloc: Global) -> bool {
    match (shared_architecture(alloc), text(alloc, AND)) {
        (Some(arch), Some(text)) => compares_sources(&arch, &text),
        _ => false,
    }
}

#[test]
fn sources_are_compared(rt: HostRuntime) {
    assert!(rt; makes_sources(rt.alloc()));
}
