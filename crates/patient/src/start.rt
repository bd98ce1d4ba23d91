//! The start of a script, read again if memory ran out.
ghost use Rattle.std.specs.Prelude.{◌+◌, ◌<◌, ◌^◌, length};

use crate::again::TIMES;
use arch_file::read_arch;
use script_text::{Script, read_script};
use service_core::{Device, NO_TEXT_LIMIT, Service};
use sessions::device_graph;
use std::alloc::Global;
use strips::DeviceGraph;

/// The device's columns, its rows and the tracks of each channel.
const COLUMNS: u32 = 1;

const ROWS: u32 = 1;

const TRACKS: u32 = 2;

/// The device of that architecture, and a service on it.
pub(crate) struct Start {
    pub graph: DeviceGraph,
    pub core: Service,
}

/// Returns a start, if the architecture is lawful and memory suffices in the end.
pub(crate) fn make_start(alloc: Global, text: &[u8]) -> Option<Start> {
    for _ in 0..TIMES {
        if let Some(start) = make_start_once(alloc, text) {
            return Some(start);
        }
    }
    None
}

fn make_start_once(alloc: Global, text: &[u8]) -> Option<Start> {
    let arch = read_arch(alloc, text, TRACKS).ok()?;
    let device = Device {
        arch,
        columns: COLUMNS,
        rows: ROWS,
        text_limit: NO_TEXT_LIMIT,
    };
    let graph = device_graph(alloc, &device).ok()?;
    let core = Service::new(alloc, device).ok()?;
    Some(Start { graph, core })
}

/// Returns the script's acts, if its lines have their forms and memory suffices in the end.
pub(crate) fn script_of(alloc: Global, text: &[u8], number: usize) -> Option<Script<'_>>
    requires { number + length text.now < 2 ^ 64 }
{
    for _ in 0..TIMES {
        if let Ok(script) = read_script(alloc, text, number) {
            return Some(script);
        }
    }
    None
}
