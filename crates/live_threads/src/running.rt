//! A service with workers, from its log to its end.
ghost use Rattle.std.specs.Prelude.{◌≡◌, ◌⊎◌, [], None, Some, true, option_map};
ghost use Rattle.live_threads.specs.Prelude.{Input, Stopped, IsPair, received, sent};
ghost use Rattle.live_threads.specs.Outlet.{view_of};
ghost use Rattle.live_threads.specs.Ends.{IsWhole, RunsOpened, RunsService, empty_on};
ghost use Rattle.live_threads.specs.Fed.{AreFirst};
ghost use Rattle.live_threads.specs.Taken.{TakesLines};

use crate::crew::{Crew, Site};
use crate::letters::InputEnd;
use crate::opened::{Opened, ServerEnd, ServesOpened, serve_opened};
use crate::outlet::{Devices, Outlet};
use crate::reader::{ReaderEnd, read_lines};
use crate::serving::MOST_AHEAD;
use crate::worker::run_worker;
use dialogue::{FailedDevice, Log};
use line_text::{Sink, Source};
use live_run::{CommandLine, Outcome};
use rtrb::{Consumer, Producer, RingBuffer};
use std::alloc::AllocGlobal;
use std::io::Eprint;
use std::sync::Wait;
use std::thread;
use std::thread::{Scope, Threads};
use std::time::Clock;
use strips::DeviceGraph;

/// How a service ended, and its devices.
#[derive(Drop)]
pub(crate) struct RunEnd<W: Sink + Drop, L: Log + Drop> {
    pub(crate) outcome: Outcome,
    /// None if the service did not begin.
    pub(crate) devices: Option<Devices<W, L>>,
}

/// Serves the lines of a log, and then those of an input, over the graph of the whole device, with
/// as many workers as the command line says.
pub(crate) fn serve_with_workers<
    H: Threads + Wait + Clock + AllocGlobal + Eprint + Sync,
    P: Source + Drop + Send,
    S: Source + Drop,
    W: Sink + Drop + Send,
    L: Log + Drop + Send,
>(
    rt: &H,
    line: &CommandLine<'_>,
    graph: &DeviceGraph,
    opened: Opened<P, W, L>,
    reader: S,
) -> RunEnd<W, L>
    requires { opened.service.histories ≡ [] }
    ensures { RunsOpened opened.told (option_map P.remaining opened.past) (empty_on opened.service graph.now)
        (view_of W.contents W.has_failed L.kept L.has_failed opened.devices) (S.remaining reader)
        (option_map (view_of W.contents W.has_failed L.kept L.has_failed) result.devices) result.outcome }
{
    let crew = Crew::new(rt.alloc());
    let site = Site {
        rt,
        crew: &crew,
        graph,
        ready: line.ready,
        text_limit: line.options.text_limit(),
    };
    let end = match RingBuffer::new(rt.alloc(), MOST_AHEAD) {
        Ok((producer, consumer)) => {
            let input = InputLines { producer, reader };
            run_threads(site, line.workers, opened, consumer, input)
        }
        Err(_) => {
            drop((opened, reader));
            RunEnd::not_begun(Outcome::NoMemory)
        }
    };
    drop(crew);
    end
}

impl<W: Sink + Drop, L: Log + Drop> RunEnd<W, L> {
    /// The end of a service that did not begin.
    pub(crate) fn not_begun(outcome: Outcome) -> Self
        ensures outcome { result.outcome ≡ outcome }
        ensures devices { result.devices ≡ None }
    {
        RunEnd {
            outcome,
            devices: None,
        }
    }
}

/// An input, and the end of the ring that its lines go into.
#[derive(Drop)]
struct InputLines<S: Source + Drop> {
    producer: Producer<Vec<u8>>,
    reader: S,
}

/// Runs the threads to their end.
fn run_threads<
    's,
    H: Threads + Wait + Clock + AllocGlobal + Eprint + Sync,
    P: Source + Drop + Send,
    S: Source + Drop,
    W: Sink + Drop + Send,
    L: Log + Drop + Send,
>(
    site: Site<'s, H>,
    workers: u32,
    opened: Opened<P, W, L>,
    lines: Consumer<Vec<u8>>,
    input: InputLines<S>,
) -> RunEnd<W, L>
    requires histories { opened.service.histories ≡ [] }
    requires pair { IsPair input.producer lines }
    requires sent { sent input.producer ≡ [] }
    requires received { received lines ≡ [] }
    ensures { RunsOpened opened.told (option_map P.remaining opened.past) (empty_on opened.service site.entry.graph.now)
        (view_of W.contents W.has_failed L.kept L.has_failed opened.devices) (S.remaining input.reader)
        (option_map (view_of W.contents W.has_failed L.kept L.has_failed) result.devices) result.outcome }
{
    thread::scope(
        thread::scope_env(),
        site.rt,
        move |scope| -> RunEnd<W, L>
            requires histories { opened.service.histories ≡ [] }
            requires pair { IsPair input.producer lines }
            requires sent { sent input.producer ≡ [] }
            requires received { received lines ≡ [] }
            ensures { RunsOpened opened.told (option_map P.remaining opened.past)
                (empty_on opened.service site.entry.graph.now)
                (view_of W.contents W.has_failed L.kept L.has_failed opened.devices)
                (S.remaining input.reader)
                (option_map (view_of W.contents W.has_failed L.kept L.has_failed) result.devices) result.outcome }
        { run_in(scope, site, workers, opened, lines, input) },
    )
}

/// Starts the threads, reads the input, and waits until the service is over.
fn run_in<
    's,
    E,
    H: Threads + Wait + Clock + AllocGlobal + Eprint + Sync + 's,
    P: Source + Drop + Send + 's,
    S: Source + Drop,
    W: Sink + Drop + Send + 's,
    L: Log + Drop + Send + 's,
>(
    scope: &Scope<'s, E>,
    site: Site<'s, H>,
    workers: u32,
    opened: Opened<P, W, L>,
    lines: Consumer<Vec<u8>>,
    input: InputLines<S>,
) -> RunEnd<W, L>
    requires histories { opened.service.histories ≡ [] }
    requires pair { IsPair input.producer lines }
    requires sent { sent input.producer ≡ [] }
    requires received { received lines ≡ [] }
    ensures { RunsOpened opened.told (option_map P.remaining opened.past) (empty_on opened.service site.entry.graph.now)
        (view_of W.contents W.has_failed L.kept L.has_failed opened.devices) (S.remaining input.reader)
        (option_map (view_of W.contents W.has_failed L.kept L.has_failed) result.devices) result.outcome }
{
    if !start_workers(scope, site, workers) {
        drop((opened, lines, input));
        site.crew.close(site.rt);
        return RunEnd::not_begun(Outcome::NoMemory);
    }
    let promise = ServesOpened::of(&opened, &lines, site.graph);
    let serve = move || -> ServerEnd<W, L>
        requires { opened.service.histories ≡ [] }
        ensures { TakesLines lines result.lines (λ heard. RunsService opened.told (option_map P.remaining opened.past)
            (empty_on opened.service site.entry.graph.now)
            (view_of W.contents W.has_failed L.kept L.has_failed opened.devices) heard
            (view_of W.contents W.has_failed L.kept L.has_failed result.devices)
            result.outcome) }
    { serve_opened(site, opened, lines) };
    match scope.spawn_with(promise, serve) {
        Ok(server) => {
            let InputLines { producer, reader } = input;
            let read = read_lines(site.rt, site.crew, producer, reader);
            end_of(read, server.join(site.rt))
        }
        Err(error) => {
            drop((error, input));
            site.crew.close(site.rt);
            RunEnd::not_begun(Outcome::NoMemory)
        }
    }
}

/// How the service ended, whose two threads ended so. It is done if all lines that were read are
/// served, which no thread knows alone.
fn end_of<W: Sink + Drop, L: Log + Drop>(read: ReaderEnd, served: ServerEnd<W, L>) -> RunEnd<W, L>
    requires { IsPair read.lines served.lines }
    ensures devices { result.devices ≡ Some served.devices }
    ensures taken { AreFirst (sent read.lines) (received served.lines) }
    ensures done { result.outcome ≡ Outcome.Done → IsWhole (sent read.lines)
        (received served.lines) read.end served.outcome }
    ensures other { (result.outcome ≡ served.outcome) ⊎ (result.outcome ≡ Stopped Input) }
{
    let ReaderEnd {
        lines: producer,
        end,
    } = read;
    let ServerEnd {
        lines: consumer,
        devices,
        outcome,
    } = served;
    let are_all = are_taken(consumer, producer) && end == Some(InputEnd::Done);
    let outcome = if are_all || outcome != Outcome::Done {
        outcome
    } else {
        Outcome::Stopped(FailedDevice::Input)
    };
    RunEnd {
        outcome,
        devices: Some(devices),
    }
}

/// Whether all texts that were put into a ring were taken.
fn are_taken(consumer: Consumer<Vec<u8>>, producer: Producer<Vec<u8>>) -> bool
    requires { IsPair producer consumer }
    ensures first { AreFirst (sent producer) (received consumer) }
    ensures all { result ≡ true → received consumer ≡ sent producer }
{
    let mut consumer = consumer;
    let mut producer = producer;
    let left = consumer.slots_beside(&mut producer);
    drop((producer, consumer));
    left == 0
}

/// Starts the workers. Returns whether all were started.
fn start_workers<'s, E, H: Threads + Wait + Clock + Sync + 's>(
    scope: &Scope<'s, E>,
    site: Site<'s, H>,
    count: u32,
) -> bool {
    for _ in 0..count {
        match scope.spawn(move || run_worker(site.rt, site.crew, site.graph)) {
            Ok(worker) => drop(worker),
            Err(error) => {
                drop(error);
                return false;
            }
        }
    }
    true
}
