//! The thread that serves, from the log to the end.
ghost use Rattle.std.specs.Prelude.{◌≡◌, ◌≢◌, [], Some, option_map, IfErr, IfOk, OnOk};
ghost use Rattle.live_threads.specs.Prelude.{is_ready, state_in, IsReady, machine_of, without_workers, Done};
ghost use Rattle.live_threads.specs.Outlet.{view_of};
ghost use Rattle.live_threads.specs.Ends.{IsResumed, PutsSome, Resumes, RunsService, StopsResuming, empty_on};
ghost use Rattle.live_threads.specs.Replays.{ArePuts};
ghost use Rattle.live_threads.specs.Taken.{TakesLines};

use crate::crew::Site;
use crate::outlet::{Devices, Outlet};
use crate::replaying::{Resumed, replay};
use crate::serving::serve_machine;
use dialogue::Log;
use line_text::{Sink, Source};
use live_input::LiveLines;
use live_machine::Machine;
use live_run::{Outcome, say_ready};
use rtrb::Consumer;
use service_core::Service;
use std::alloc::AllocGlobal;
use std::io::Eprint;
use std::snapshot::Snapshot;
use std::sync::Wait;
use std::thread::Promise;
use strips::DeviceGraph;

/// A service that has admitted no tenancy, the lines of its log, and where it keeps and tells.
#[derive(Drop)]
pub(crate) struct Opened<P: Source + Drop, W: Sink + Drop, L: Log + Drop> {
    pub(crate) service: Service,
    pub(crate) past: Option<P>,
    /// The number of a line of the log. The replies to the lines after it are written.
    pub(crate) told: Option<u64>,
    pub(crate) devices: Devices<W, L>,
}

/// What the thread that serves leaves.
#[derive(Drop)]
pub(crate) struct ServerEnd<W: Sink + Drop, L: Log + Drop> {
    pub(crate) lines: Consumer<Vec<u8>>,
    pub(crate) devices: Devices<W, L>,
    pub(crate) outcome: Outcome,
}

/// The promise of the thread that serves: it serves the lines that it takes from the ring.
#[derive(Drop)]
pub(crate) struct ServesOpened<P: Source + Drop, W: Sink + Drop, L: Log + Drop> {
    opened: Snapshot<Opened<P, W, L>>,
    lines: Snapshot<Consumer<Vec<u8>>>,
    graph: Snapshot<DeviceGraph>,
}

impl<P: Source + Drop, W: Sink + Drop, L: Log + Drop> ServesOpened<P, W, L> {
    pub(crate) fn of(
        opened: &Opened<P, W, L>,
        lines: &Consumer<Vec<u8>>,
        graph: &DeviceGraph,
    ) -> Self
        ensures opened { result.opened.value ≡ opened.now }
        ensures lines { result.lines.value ≡ lines.now }
        ensures graph { result.graph.value ≡ graph.now }
    {
        ServesOpened {
            opened: Snapshot::of(opened),
            lines: Snapshot::of(lines),
            graph: Snapshot::of(graph),
        }
    }
}

impl<P: Source + Drop, W: Sink + Drop, L: Log + Drop> Promise<ServerEnd<W, L>>
    for ServesOpened<P, W, L> {
    ghost use Rattle.std.specs.Prelude.{option_map};
    ghost use Rattle.live_threads.specs.Ends.{RunsService, empty_on};
    ghost use Rattle.live_threads.specs.Outlet.{view_of};
    ghost use Rattle.live_threads.specs.Taken.{TakesLines};

    ghost kept_by = { λ p r. TakesLines p.lines.value r.lines (λ heard.
        RunsService p.opened.value.told (option_map P.remaining p.opened.value.past)
        (empty_on p.opened.value.service p.graph.value)
        (view_of W.contents W.has_failed L.kept L.has_failed p.opened.value.devices) heard
        (view_of W.contents W.has_failed L.kept L.has_failed r.devices) r.outcome) };
}

/// Serves the lines of the log, and then those that come.
pub(crate) fn serve_opened<
    H: Wait + AllocGlobal + Eprint,
    P: Source + Drop,
    W: Sink + Drop,
    L: Log + Drop,
>(site: Site<'_, H>, opened: Opened<P, W, L>, lines: Consumer<Vec<u8>>) -> ServerEnd<W, L>
    requires { opened.service.histories ≡ [] }
    ensures { TakesLines lines result.lines (λ heard.
        RunsService opened.told (option_map P.remaining opened.past) (empty_on opened.service site.entry.graph.now)
        (view_of W.contents W.has_failed L.kept L.has_failed opened.devices) heard
        (view_of W.contents W.has_failed L.kept L.has_failed result.devices) result.outcome) }
{
    let Opened {
        service,
        past,
        told,
        devices,
    } = opened;
    let mut devices = devices;
    let mut lines = lines;
    let live = LiveLines::new(site.rt.alloc(), site.graph, service);
    let outcome = serve_resumed(site, live, past, told, &mut lines, &mut devices);
    site.crew.close(site.rt);
    ServerEnd {
        lines,
        devices,
        outcome,
    }
}

/// Serves the lines of the log over that live service, and then those that come. Between them it
/// says that it is ready, if that is wanted.
fn serve_resumed<H: Wait + AllocGlobal + Eprint, P: Source + Drop, O: Outlet>(
    site: Site<'_, H>,
    live: LiveLines<'_>,
    past: Option<P>,
    told: Option<u64>,
    lines: &mut Consumer<Vec<u8>>,
    outlet: &mut O,
) -> Outcome
    requires { is_ready live }
    ensures { TakesLines lines.old lines.new (λ heard. RunsService told (option_map P.remaining past)
        (without_workers (state_in live.entry)) (O.view outlet.old) heard (O.view outlet.new)
        result) }
{
    match resume(site, live, past, told, outlet) {
        Ok(machine) => {
            site.crew.mailbox.note_ready(site.rt);
            say_ready(site.rt, site.ready);
            serve_machine(site, lines, machine, outlet)
        }
        Err(outcome) => outcome,
    }
}

/// The machine after the lines of the log, if there is one. The replies to those after the line
/// `told` are written.
fn resume<'g, H: Wait + AllocGlobal, P: Source + Drop, O: Outlet>(
    site: Site<'g, H>,
    live: LiveLines<'g>,
    past: Option<P>,
    told: Option<u64>,
    outlet: &mut O,
) -> Result<Machine<'g>, Outcome>
    requires { is_ready live }
    ensures ready { IfOk result IsReady }
    ensures resumes { IfOk result (λ machine. Resumes told (option_map P.remaining past)
        (without_workers (state_in live.entry)) (machine_of machine) (O.view outlet.old)
        (O.view outlet.new)) }
    ensures none { IfErr result (λ outcome. (outcome ≢ Done)
        × StopsResuming told (option_map P.remaining past) (without_workers (state_in live.entry))
        (O.view outlet.old) (O.view outlet.new)) }
{
    match past {
        Some(past) => resume_log(site, live, past, told, outlet),
        None => Ok(Machine::new(site.rt.alloc(), live, 1)),
    }
}

/// The machine after the lines of a log.
fn resume_log<'g, H: Wait + AllocGlobal, P: Source + Drop, O: Outlet>(
    site: Site<'g, H>,
    live: LiveLines<'g>,
    past: P,
    told: Option<u64>,
    outlet: &mut O,
) -> Result<Machine<'g>, Outcome>
    requires { is_ready live }
    ensures ready { IfOk result IsReady }
    ensures resumes { IfOk result (λ machine. Resumes told (Some (P.remaining past))
        (without_workers (state_in live.entry)) (machine_of machine) (O.view outlet.old)
        (O.view outlet.new)) }
    ensures none { IfErr result (λ outcome. (outcome ≢ Done)
        × StopsResuming told (Some (P.remaining past)) (without_workers (state_in live.entry))
        (O.view outlet.old) (O.view outlet.new)) }
{
    let (live, resumed) = replay(site, live, past, told, outlet)?;
    match keep_more(outlet, resumed) {
        Ok(next) => with_steps(Machine::new(site.rt.alloc(), live, next)),
        Err(outcome) => {
            live.close();
            Err(outcome)
        }
    }
}

/// Keeps the lines that were served after those of the log. Returns the next number.
fn keep_more<O: Outlet>(outlet: &mut O, resumed: Resumed) -> Result<u64, Outcome>
    requires { ArePuts resumed.more.items }
    ensures next { IfOk result (λ next. next ≡ resumed.next) }
    ensures resumed { OnOk result (IsResumed resumed.more.items (O.view outlet.old)
        (O.view outlet.new)) }
    ensures none { IfErr result (λ outcome. (outcome ≢ Done)
        × PutsSome (O.view outlet.old) (O.view outlet.new)) }
{
    let Resumed { next, more } = resumed;
    if more.is_empty() {
        return Ok(next);
    }
    match outlet.keep(more.as_slice()) {
        Ok(()) => Ok(next),
        Err(device) => Err(Outcome::Stopped(device)),
    }
}

/// The machine, which knows all steps that can be made.
fn with_steps(machine: Machine<'_>) -> Result<Machine<'_>, Outcome>
    requires { IsReady machine }
    ensures ready { IfOk result IsReady }
    ensures same { IfOk result (λ new. machine_of new ≡ machine_of machine.entry) }
    ensures none { IfErr result (λ outcome. outcome ≢ Done) }
{
    let mut machine = machine;
    match machine.find_steps() {
        Ok(()) => Ok(machine),
        Err(_) => {
            machine.close();
            Err(Outcome::NoMemory)
        }
    }
}
