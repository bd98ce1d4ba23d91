//! What is printed of a log.
ghost use Rattle.std.specs.Prelude.{List, ℕ, ◌≡◌, IfErr, IfOk, None, OnOk};
ghost use Rattle.desk_log.specs.Prelude.{TakesAll, begins, is_ready, kept_lines, state_in, device_of, first_differing, no_lines, IsDevice, own_graph};
ghost use Rattle.desk_log.specs.Printed.{IsFailure, IsPrinted, IsSafeLog};

use arch_file::Arch;
use desk_common::Outcome;
use itoa::Buffer;
use line_text::{Failed, MemorySource, Sink, write_slices};
use live_input::LiveLines;
use live_log::{CheckedLog, shorten_checked};
use live_run::{Options, changed_line};
use service_core::{Device, Service};
use sessions::device_graph;
use std::alloc::{AllocError, Global};
use strips::DeviceGraph;

/// Prints the shorter log of a service with these options, over that architecture, if its service
/// answers as the whole log's does; else the whole log, and says so. A log of which a line says
/// another sum than that of the lines before it is refused, and the first such line is told.
pub(crate) fn print_checked<W: Sink, E: Sink>(
    alloc: Global,
    options: Options,
    arch: Arch,
    log: &[u8],
    writer: &mut W,
    teller: &mut E,
) -> Result<(), Outcome>
    requires { IsDevice (device_of options arch) }
    ensures sums { OnOk result (first_differing no_lines (kept_lines log.now) ≡ None) }
    ensures printed { OnOk result ((text : List ℕ) × TakesAll W.contents W.has_failed writer.old
        writer.new text × IsPrinted (device_of options arch) log.now text) }
    ensures failed { IfErr result (IsFailure log.now (W.has_failed writer.new)) }
{
    match changed_line(alloc, MemorySource::new(log)) {
        Ok(None) => {}
        Ok(Some(number)) => {
            let _ = tell_changed(teller, number);
            return Err(Outcome::LogDiffers);
        }
        // What is in memory can be read.
        Err(_) => return Err(Outcome::NoMemory),
    }
    match shorten_log(alloc, options, arch, log, teller) {
        Ok(checked) => {
            let written = checked.log.write(writer);
            if let Some(name) = checked.differing {
                let _ = tell_differing(teller, name);
            }
            written.or(Err(Outcome::OutputFailed))
        }
        Err(_) => Err(Outcome::NoMemory),
    }
}

/// Says which line of the log says another sum.
fn tell_changed<E: Sink>(teller: &mut E, number: u64) -> Result<(), Failed> {
    let mut digits = Buffer::new();
    write_slices(
        teller,
        &[
            b"log: line ",
            digits.format(number).as_bytes(),
            b": its sum differs: what is before it has changed\n",
        ],
    )
}

/// Says that the whole log is printed.
fn tell_differing<E: Sink>(teller: &mut E, name: &[u8]) -> Result<(), Failed> {
    write_slices(
        teller,
        &[
            b"log: the shorter log differs for ",
            name,
            b": the whole log is printed\n",
        ],
    )
}

/// The shorter log of a service with these options, over that architecture.
fn shorten_log<'l, E: Sink>(
    alloc: Global,
    options: Options,
    arch: Arch,
    log: &'l [u8],
    teller: &mut E,
) -> Result<CheckedLog<'l>, AllocError>
    requires { IsDevice (device_of options arch) }
    ensures { IfOk result (IsSafeLog (begins (device_of options arch)) log.now) }
{
    let second = arch.clone()?;
    let device = options.device(arch);
    let graph = device_graph(alloc, &device)?;
    let (mut whole, mut short) = two_services(alloc, &graph, device, options.device(second))?;
    let checked = shorten_checked(alloc, &mut whole, &mut short, log, teller);
    whole.close();
    short.close();
    checked
}

/// Two services that have taken no line, over two like devices with that graph.
fn two_services<'g>(
    alloc: Global,
    graph: &'g DeviceGraph,
    device: Device,
    other: Device,
) -> Result<(LiveLines<'g>, LiveLines<'g>), AllocError>
    requires device { IsDevice device }
    requires other { other ≡ device }
    requires graph { graph.now ≡ own_graph device }
    ensures ready { IfOk result (λ services. is_ready services.0 × is_ready services.1) }
    ensures whole { IfOk result (λ services. state_in services.0 ≡ begins device) }
    ensures short { IfOk result (λ services. state_in services.1 ≡ begins device) }
{
    let core = Service::new(alloc, device)?;
    match Service::new(alloc, other) {
        Ok(second) => Ok((
            LiveLines::new(alloc, graph, core),
            LiveLines::new(alloc, graph, second),
        )),
        Err(failed) => {
            LiveLines::new(alloc, graph, core).close();
            Err(failed)
        }
    }
}
