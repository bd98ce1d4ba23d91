//! The program with workers.
ghost use Rattle.std.specs.Prelude.{◌≡◌, ◌≢◌, IfErr, IfOk, is_some, option_map};
ghost use Rattle.live_threads.specs.Prelude.{IsDevice};
ghost use Rattle.live_threads.specs.Endings.{IsDeviceOf, RunsOver, RunsThreaded};

use crate::opened::Opened;
use crate::outlet::{Devices, Outlet};
use crate::running::{RunEnd, serve_with_workers};
use arch_file::{ArchError, read_arch};
use dialogue::FileLog;
use line_text::{ReadError, Sink, Source};
use live_run::{CommandLine, KeptLog, LockLog, LogLines, Outcome, log_at, read_architecture};
use service_core::{Device, Service};
use sessions::device_graph;
use std::alloc::{AllocGlobal, Global};
use std::fs::OpenFile;
use std::io::{Eprint, Read, Write};
use std::rt::Files;
use std::sync::Wait;
use std::thread::Threads;
use std::time::Clock;

/// The lines of a log, and where a service keeps and tells.
#[derive(Drop)]
struct Streams<'h, R: Wait, F: Read + Write + OpenFile + LockLog + Drop, W: Sink + Drop> {
    past: Option<LogLines<'h, R, F>>,
    devices: Devices<W, FileLog<F>>,
}

/// Serves with workers as the command line says.
pub(crate) fn run_threads<
    H: Files + Threads + Wait + Clock + AllocGlobal + Eprint + Sync,
    S: Source + Drop,
    W: Sink + Drop + Send,
>(rt: &H, line: &CommandLine<'_>, reader: S, writer: W) -> RunEnd<W, FileLog<H::File>>
where
    H::File: LockLog + Send,
    ensures { RunsThreaded line.now (S.remaining reader) (W.contents writer)
        (option_map (⟦<Devices<W, FileLog<H::File>> as Outlet>⟧.view) result.devices)
        result.outcome }
{
    match read_architecture(rt, line.arch) {
        Ok(architecture) => {
            let end = run_over(rt, line, architecture.as_slice(), reader, writer);
            drop(architecture);
            end
        }
        Err(error) => {
            drop((reader, writer));
            RunEnd::not_begun(unread_architecture(error))
        }
    }
}

/// How a service ends whose architecture can't be read.
fn unread_architecture(error: ReadError) -> Outcome
    ensures { result ≢ Outcome.Done }
{
    match error {
        ReadError::Failed => Outcome::ArchUnreadable,
        ReadError::NoMemory => Outcome::NoMemory,
    }
}

/// Serves over that architecture, with a log if the command line names one.
fn run_over<
    H: Files + Threads + Wait + Clock + AllocGlobal + Eprint + Sync,
    S: Source + Drop,
    W: Sink + Drop + Send,
>(
    rt: &H,
    line: &CommandLine<'_>,
    architecture: &[u8],
    reader: S,
    writer: W,
) -> RunEnd<W, FileLog<H::File>>
where
    H::File: LockLog + Send,
    ensures { RunsThreaded line.now (S.remaining reader) (W.contents writer)
        (option_map (⟦<Devices<W, FileLog<H::File>> as Outlet>⟧.view) result.devices)
        result.outcome }
{
    let device = match device_of(rt.alloc(), line, architecture) {
        Ok(device) => device,
        Err(outcome) => {
            drop((reader, writer));
            return RunEnd::not_begun(outcome);
        }
    };
    match open_streams(rt, line, architecture, writer) {
        Ok(streams) => run_device(rt, line, device, streams, reader),
        Err(outcome) => {
            drop((device, reader));
            RunEnd::not_begun(outcome)
        }
    }
}

/// The device of a command line over that architecture.
fn device_of(alloc: Global, line: &CommandLine<'_>, architecture: &[u8]) -> Result<Device, Outcome>
    ensures device { IfOk result (λ device. IsDevice device
        × IsDeviceOf line.now.options architecture.now device) }
    ensures none { IfErr result (λ outcome. outcome ≢ Outcome.Done) }
{
    match read_arch(alloc, architecture, line.options.tracks) {
        Ok(arch) => Ok(line.options.device(arch)),
        Err(ArchError::Fault(fault)) => Err(Outcome::ArchRefused(fault)),
        Err(ArchError::NoMemory) => Err(Outcome::NoMemory),
    }
}

/// Opens the log of a command line, if it names one.
fn open_streams<'h, H: Files + Wait + AllocGlobal, W: Sink + Drop>(
    rt: &'h H,
    line: &CommandLine<'_>,
    architecture: &[u8],
    writer: W,
) -> Result<Streams<'h, H, H::File, W>, Outcome>
where
    H::File: LockLog,
    ensures past { IfOk result (λ s. is_some s.past ≡ is_some line.now.log) }
    ensures log { IfOk result (λ s. (⟦<Devices<W, FileLog<H::File>> as Outlet>⟧.view
        s.devices).has_log ≡ is_some line.now.log) }
    ensures output { IfOk result (λ s. (⟦<Devices<W, FileLog<H::File>> as Outlet>⟧.view
        s.devices).output ≡ W.contents writer) }
    ensures none { IfErr result (λ outcome. outcome ≢ Outcome.Done) }
{
    let Some(path) = line.log else {
        return Ok(Streams {
            past: None,
            devices: Devices { writer, log: None },
        });
    };
    match log_at(rt, line, path, architecture) {
        Ok(KeptLog { past, log }) => Ok(Streams {
            past: Some(past),
            devices: Devices {
                writer,
                log: Some(log),
            },
        }),
        Err(outcome) => {
            drop(writer);
            Err(outcome)
        }
    }
}

/// Serves over that device.
fn run_device<
    'h,
    H: Files + Threads + Wait + Clock + AllocGlobal + Eprint + Sync,
    S: Source + Drop,
    W: Sink + Drop + Send,
>(
    rt: &'h H,
    line: &CommandLine<'_>,
    device: Device,
    streams: Streams<'h, H, H::File, W>,
    reader: S,
) -> RunEnd<W, FileLog<H::File>>
where
    H::File: LockLog + Send,
    requires { IsDevice device }
    ensures { RunsOver line.now.told (option_map (⟦<LogLines<'h, H, H::File> as Source>⟧.remaining) streams.entry.past) device
        (⟦<Devices<W, FileLog<H::File>> as Outlet>⟧.view streams.entry.devices) (S.remaining reader)
        (option_map (⟦<Devices<W, FileLog<H::File>> as Outlet>⟧.view) result.devices)
        result.outcome }
{
    let Streams { past, devices } = streams;
    let Ok(graph) = device_graph(rt.alloc(), &device) else {
        drop((device, past, devices, reader));
        return RunEnd::not_begun(Outcome::NoMemory);
    };
    match Service::new(rt.alloc(), device) {
        Ok(service) => {
            let opened = Opened {
                service,
                past,
                told: line.told,
                devices,
            };
            serve_with_workers(rt, line, &graph, opened, reader)
        }
        Err(_) => {
            drop((past, devices, reader));
            RunEnd::not_begun(Outcome::NoMemory)
        }
    }
}
