//! The text, written to a sink.
ghost use Rattle.std.specs.Prelude.{◌≡◌};
ghost use Rattle.configuration_text.specs.Prelude.{configuration_text};
ghost use Rattle.configuration_text.specs.Written.{IsWritten};

use crate::design::Design;
use crate::text::configuration_text;
use line_text::{Sink, write_all};
use std::alloc::Global;

/// Why a configuration is not written, or only a beginning of it.
#[derive(Clone, Copy, PartialEq, Eq)]
pub enum Unwritten {
    /// Memory ran out. Nothing is written.
    NoMemory,
    /// The sink failed. It has taken a beginning of the text.
    SinkFailed,
}

/// Writes the configuration of the design's layout: exactly its text, or a beginning of it if the
/// sink fails, or nothing if memory runs out.
pub fn write_configuration<W: Sink>(
    alloc: Global,
    design: Design<'_>,
    sink: &mut W,
) -> Result<(), Unwritten>
    ensures { IsWritten W.contents W.has_failed sink.old sink.new
        (configuration_text design.entry.netlist.now design.entry.circuit.now
        design.entry.arch.now design.entry.strip design.entry.layout.now) result }
{
    let Ok(text) = configuration_text(alloc, design) else {
        return Err(Unwritten::NoMemory);
    };
    match write_all(sink, text.as_slice()) {
        Ok(()) => Ok(()),
        Err(_) => Err(Unwritten::SinkFailed),
    }
}
