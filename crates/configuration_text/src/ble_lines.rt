//! The lines of a BLE.
ghost use Rattle.std.specs.Prelude.{◌≡◌, ◌++◌, IfOk, map};
ghost use Rattle.std.specs.Option.{option_to_list};
ghost use Rattle.configuration_text.specs.Prelude.{ble_lines, latch_lines, values_in, bit_digit, line_words, lines_text, Takes, Values, ble_numbers, traced_ble, line_of};
ghost use Rattle.configuration_text.specs.Parts.{latch_line};

use crate::bits::push_bits;
use crate::cells::{latch_driving, table_within};
use crate::design::Design;
use crate::feeds::{control_in, nets_in, signal_for};
use crate::latch_text::latch_words;
use crate::line_bytes::{end_line, push_stores, push_takes, push_used};
use crate::words::push_place;
use blif::Latch;
use configuration::{BlePlace, Signal};
use layouts::{LaidBle, LaidBlock};
use std::alloc::{AllocError, Global};

/// A BLE of a block, with its place.
#[derive(Clone, Copy)]
pub(crate) struct Seat<'a> {
    pub(crate) laid: &'a LaidBlock,
    pub(crate) ble: &'a LaidBle,
    pub(crate) place: BlePlace,
}

/// Appends the lines of the BLE. `numbers` are the places of the block's BLEs.
pub(crate) fn push_ble(
    alloc: Global,
    text: &mut Vec<u8>,
    design: Design<'_>,
    seat: Seat<'_>,
    numbers: &[usize],
) -> Result<(), AllocError>
    requires { numbers.now ≡ ble_numbers design.arch.now design.layout.now seat.laid.now }
    ensures { IfOk result (λ _. text.new.items ≡ text.old.items
        ++ lines_text (ble_lines design.entry.netlist.now design.entry.circuit.now
        design.entry.arch.now design.entry.layout.now seat.entry.laid.now seat.entry.place
        seat.entry.ble.now)) }
{
    push_used(text, seat.place)?;
    for (input, feed) in seat.ble.inputs().iter().enumerate() {
        let signal = signal_for(design.arch, design.layout, seat.laid, numbers, *feed);
        push_input(text, seat.place, input, signal)?;
    }
    push_values(alloc, text, design, seat)?;
    push_latch(text, design, seat)
}

/// Appends the line of an input, if it takes a signal.
fn push_input(
    text: &mut Vec<u8>,
    place: BlePlace,
    input: usize,
    signal: Option<Signal>,
) -> Result<(), AllocError>
    ensures { IfOk result (λ _. text.new.items ≡ text.old.items
        ++ lines_text (map (Takes place input) (option_to_list signal))) }
{
    match signal {
        Some(signal) => push_takes(text, place, input, signal),
        None => Ok(()),
    }
}

/// Appends the line of the BLE's table.
fn push_values(
    alloc: Global,
    text: &mut Vec<u8>,
    design: Design<'_>,
    seat: Seat<'_>,
) -> Result<(), AllocError>
    ensures { IfOk result (λ _. text.new.items ≡ text.old.items
        ++ line_of (line_words (Values seat.entry.place (values_in design.entry.netlist.now
        design.entry.circuit.now design.entry.arch.now seat.entry.laid.now seat.entry.ble.now)))) }
{
    let nets = nets_in(alloc, design.arch, seat.laid, seat.ble)?;
    text.extend_from_slice(b"table")?;
    push_place(text, seat.place)?;
    text.push(b' ')?;
    push_table_bits(text, design, seat.laid, seat.ble, nets.as_slice())?;
    end_line(text)
}

/// Appends the bits of the table of a block's BLE, those of a wire if it has a latch alone. `nets`
/// are the nets that come to the BLE's inputs.
pub fn push_table_bits(
    text: &mut Vec<u8>,
    design: Design<'_>,
    laid: &LaidBlock,
    ble: &LaidBle,
    nets: &[u32],
) -> Result<(), AllocError>
    requires { nets.now ≡ (traced_ble design.arch.now laid.now ble.now).inputs }
    ensures { IfOk result (λ _. text.new.items ≡ text.old.items
        ++ map bit_digit (values_in design.entry.netlist.now design.entry.circuit.now
        design.entry.arch.now laid.now ble.now)) }
{
    let table = table_within(design.circuit, ble.name(), nets);
    push_bits(text, design.netlist, table, nets, design.arch.lut_size)
}

/// Appends the line of the BLE's latch, if it has one.
fn push_latch(text: &mut Vec<u8>, design: Design<'_>, seat: Seat<'_>) -> Result<(), AllocError>
    ensures { IfOk result (λ _. text.new.items ≡ text.old.items
        ++ lines_text (latch_lines design.entry.netlist.now design.entry.circuit.now
        design.entry.arch.now design.entry.layout.now seat.entry.laid.now seat.entry.place
        seat.entry.ble.now)) }
{
    match latch_driving(design.circuit, seat.ble.name()) {
        Some(latch) => push_stored(text, design, seat, latch),
        None => Ok(()),
    }
}

/// Appends the line of the BLE's latch.
fn push_stored(
    text: &mut Vec<u8>,
    design: Design<'_>,
    seat: Seat<'_>,
    latch: Latch,
) -> Result<(), AllocError>
    ensures { IfOk result (λ _. text.new.items ≡ text.old.items
        ++ line_of (line_words (latch_line design.entry.netlist.now design.entry.arch.now
        design.entry.layout.now seat.entry.laid.now seat.entry.place seat.entry.ble.now latch))) }
{
    let words = latch_words(design.netlist, latch.line);
    let kind = match latch.control {
        Some(_) => words.kind,
        None => b"none",
    };
    let control = control_in(design.arch, design.layout, seat.laid, seat.ble);
    push_stores(text, seat.place, kind, words.init, control)
}
