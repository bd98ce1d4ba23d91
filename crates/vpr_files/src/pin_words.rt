//! The words for the pins that connect the BLEs of a cluster.
ghost use Rattle.std.specs.Prelude.{◌≡◌, ◌<◌, decimal, length, option_and_then, slice_get, Some};
ghost use Rattle.vpr_files.specs.Prelude.{Clock, Writes};
ghost use Rattle.std.specs.List.{flat_map, range_with_len};
ghost use Rattle.vpr_files.specs.TextLines.{word_after_space, line_of};
ghost use Rattle.vpr_files.specs.NetFile.{driver_place, element_line, input_word, or_open, pin_with};

use crate::net_file::net_name;
use crate::writing::{end_line, write_number, write_word};
use arch_file::PinClass;
use cluster::{Ble, Packed};
use line_text::{Failed, Sink, write_slices};

/// The number of the pin of this class that carries the net, if there is one.
fn pin_with(packed: &Packed, cluster: usize, class: PinClass, net: u32) -> Option<usize>
    requires { cluster < length packed.now.clusters }
    ensures { result ≡ pin_with packed.now cluster class net }
{
    for (number, pin) in packed.arch().pins.as_slice().iter().enumerate() {
        if pin.class == class && packed.pin(cluster, number) == Some(net) {
            return Some(number);
        }
    }
    None
}

/// The index in the cluster of the BLE that drives the net, if there is one.
fn driver_place(packed: &Packed, cluster: usize, net: u32) -> Option<usize>
    requires { cluster < length packed.now.clusters }
    ensures { result ≡ driver_place packed.now cluster net }
{
    let _ = packed.circuit();
    for (place, number) in packed.cluster(cluster).iter().enumerate() {
        if packed.ble(*number as usize).output == net {
            return Some(place);
        }
    }
    None
}

/// Writes the number of a pin, or `open`.
fn write_pin<W: Sink>(sink: &mut W, pin: Option<usize>) -> Result<(), Failed>
    ensures { Writes W.contents W.has_failed sink.old sink.new (word_after_space (or_open decimal
        pin))
        result }
{
    match pin {
        Some(number) => write_number(sink, b" ", number),
        None => write_word(sink, b"open"),
    }
}

/// Writes the source of a BLE's input, or `open`.
fn write_input<W: Sink>(
    packed: &Packed,
    cluster: usize,
    input: Option<u32>,
    sink: &mut W,
) -> Result<(), Failed>
    requires { cluster < length packed.now.clusters }
    ensures { Writes W.contents W.has_failed sink.old sink.new
        (word_after_space (or_open (input_word packed.now cluster) input)) result }
{
    let Some(net) = input else {
        return write_word(sink, b"open");
    };
    match driver_place(packed, cluster, net) {
        Some(place) => write_number(sink, b" ble_", place),
        None => write_pin(sink, pin_with(packed, cluster, PinClass::Input, net)),
    }
}

/// The input at this index, if there is one.
fn input_at(inputs: &[u32], place: usize) -> Option<u32>
    ensures { result ≡ slice_get inputs.now place }
{
    inputs.get(place).copied()
}

/// Writes the sources of a BLE's inputs, one word for each input of a table.
fn write_inputs<W: Sink>(
    packed: &Packed,
    cluster: usize,
    inputs: &[u32],
    sink: &mut W,
) -> Result<(), Failed>
    requires { cluster < length packed.now.clusters }
    ensures { Writes W.contents W.has_failed sink.old sink.new
        (flat_map (λ place. word_after_space
        (or_open (input_word packed.now cluster) (slice_get inputs.now place)))
        (range_with_len 0 packed.now.arch.lut_size)) result }
{
    for place in 0..packed.arch().lut_size as usize {
        write_input(packed, cluster, input_at(inputs, place), sink)?;
    }
    Ok(())
}

/// Writes the line of a BLE: its name, its inputs, its output and its clock.
pub(crate) fn write_element<W: Sink>(
    packed: &Packed,
    cluster: usize,
    ble: Ble<'_>,
    sink: &mut W,
) -> Result<(), Failed>
    requires { cluster < length packed.now.clusters }
    ensures { Writes W.contents W.has_failed sink.old sink.new
        (line_of (element_line packed.now cluster
        (record {
          inputs = ble.entry.inputs.now;
          output = ble.entry.output;
          clock = ble.entry.clock;
        }))) result }
{
    write_slices(
        sink,
        &[b"subblock: ", net_name(packed.circuit(), ble.output)],
    )?;
    write_inputs(packed, cluster, ble.inputs, sink)?;
    write_pin(
        sink,
        pin_with(packed, cluster, PinClass::Output, ble.output),
    )?;
    write_pin(sink, clock_pin(packed, cluster, ble.clock))?;
    end_line(sink)
}

/// The number of the pin that carries the clock, if there is one.
fn clock_pin(packed: &Packed, cluster: usize, clock: Option<u32>) -> Option<usize>
    requires { cluster < length packed.now.clusters }
    ensures { result ≡ option_and_then (pin_with packed.now cluster Clock) clock }
{
    pin_with(packed, cluster, PinClass::Clock, clock?)
}
