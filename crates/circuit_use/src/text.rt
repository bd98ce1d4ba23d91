//! The use of a device as a text.
ghost use Rattle.std.specs.Prelude.{◌≡◌, ◌+◌, ◌≤◌};
ghost use Rattle.std.specs.List.{flat_map, range_with_len};
ghost use Rattle.arch_file.specs.declared.arch.TheConstants.{MAX_LUT_SIZE};
ghost use Rattle.line_text.specs.Writing.{Writes};
ghost use Rattle.circuit_use.specs.Text.{count_text, elements_text, inputs_word, inputs_words, percent, resources_text, tables_text, use_line, use_text};

use crate::counting::{CircuitUse, tables_with};
use blif::Tables;
use device_report::ResourceUse;
use line_text::{Failed, Sink};
use text_parts::{Part, write_parts};

/// What a routed circuit uses of its device.
#[derive(Clone, Copy)]
pub struct DeviceUse {
    /// Logic blocks.
    pub blocks: ResourceUse,
    /// What the circuit consists of.
    pub circuit: CircuitUse,
    pub pads: ResourceUse,
    /// Wires of the channels.
    pub wires: ResourceUse,
}

/// Writes a line for each resource, and one for the circuit's tables, by their number of inputs, 0
/// to `lut_size`. If the sink fails, it has taken a beginning of them.
pub fn write_use<W: Sink>(
    sink: &mut W,
    device: DeviceUse,
    tables: &Tables,
    lut_size: u32,
) -> Result<(), Failed>
    requires { lut_size ≤ MAX_LUT_SIZE }
    ensures { Writes W.contents W.has_failed sink.old sink.new
        (use_text device tables.now lut_size) result }
{
    write_elements(sink, device)?;
    write_tables(sink, tables, lut_size)?;
    write_resources(sink, device)
}

/// Writes the lines of logic blocks, BLEs and latches.
fn write_elements<W: Sink>(sink: &mut W, device: DeviceUse) -> Result<(), Failed>
    ensures { Writes W.contents W.has_failed sink.old sink.new (elements_text device) result }
{
    write_line(sink, "logic blocks", device.blocks)?;
    write_line(sink, "BLEs", device.circuit.bles)?;
    write_line(sink, "latches", device.circuit.latches)
}

/// Writes the line of the tables.
fn write_tables<W: Sink>(sink: &mut W, tables: &Tables, lut_size: u32) -> Result<(), Failed>
    requires { lut_size ≤ MAX_LUT_SIZE }
    ensures { Writes W.contents W.has_failed sink.old sink.new
        (tables_text tables.now lut_size) result }
{
    write_table_count(sink, tables)?;
    write_inputs(sink, tables, lut_size)?;
    write_parts(sink, &[Part::Text("\n")])
}

/// Writes the number of tables.
fn write_table_count<W: Sink>(sink: &mut W, tables: &Tables) -> Result<(), Failed>
    ensures { Writes W.contents W.has_failed sink.old sink.new (count_text tables.now) result }
{
    let count = tables.len();
    write_parts(
        sink,
        &[
            Part::Text("use tables "),
            Part::Long(count as u64),
            Part::Text(", by inputs"),
        ],
    )
}

/// Writes how many tables have each number of inputs.
fn write_inputs<W: Sink>(sink: &mut W, tables: &Tables, lut_size: u32) -> Result<(), Failed>
    requires { lut_size ≤ MAX_LUT_SIZE }
    ensures { Writes W.contents W.has_failed sink.old sink.new
        (inputs_words tables.now lut_size) result }
{
    for inputs in 0..lut_size as usize + 1 {
        write_count(sink, tables, inputs)?;
    }
    Ok(())
}

/// Writes how many tables have that number of inputs.
fn write_count<W: Sink>(sink: &mut W, tables: &Tables, inputs: usize) -> Result<(), Failed>
    ensures { Writes W.contents W.has_failed sink.old sink.new (inputs_word tables.now inputs)
        result }
{
    let count = tables_with(tables, inputs);
    write_parts(
        sink,
        &[
            Part::Text(" "),
            Part::Long(inputs as u64),
            Part::Text(":"),
            Part::Long(count as u64),
        ],
    )
}

/// Writes the lines of pads, wires and global nets.
fn write_resources<W: Sink>(sink: &mut W, device: DeviceUse) -> Result<(), Failed>
    ensures { Writes W.contents W.has_failed sink.old sink.new (resources_text device) result }
{
    write_line(sink, "pads", device.pads)?;
    write_line(sink, "wires", device.wires)?;
    write_parts(
        sink,
        &[
            Part::Text("use global nets "),
            Part::Long(device.circuit.globals as u64),
            Part::Text("\n"),
        ],
    )
}

/// Writes the line of a resource.
fn write_line<W: Sink>(sink: &mut W, name: &str, one: ResourceUse) -> Result<(), Failed>
    ensures { Writes W.contents W.has_failed sink.old sink.new (use_line name.now one) result }
{
    write_parts(
        sink,
        &[
            Part::Text("use "),
            Part::Text(name),
            Part::Text(" "),
            Part::Long(one.used as u64),
            Part::Text("/"),
            Part::Number(one.there),
            Part::Text(" "),
            Part::Long(percent(one)),
            Part::Text("%\n"),
        ],
    )
}

/// How much of a resource is used, in per cent, rounded down. 0 if there is none of it.
fn percent(one: ResourceUse) -> u64
    ensures { result ≡ percent one }
{
    if one.there == 0 {
        return 0;
    }
    (one.used as u64).saturating_mul(100) / u64::from(one.there)
}
