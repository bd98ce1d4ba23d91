//! Lines, appended to a text.
ghost use Rattle.std.specs.Prelude.{◌≡◌, ◌++◌, ◌∷◌, [], IfOk};
ghost use Rattle.configuration_text.specs.Prelude.{line_words, Device, Feeds, PadIn, PadOut, Stores, Switch, Takes, Used, line_of};

use crate::words::{
    push_global, push_node, push_number, push_place, push_signal, push_three, push_word,
};
use configuration::{BlePlace, Driver, Signal};
use grid::Place;
use rr_graph::Node;
use std::alloc::AllocError;

/// Appends the end of a line.
pub(crate) fn end_line(text: &mut Vec<u8>) -> Result<(), AllocError>
    ensures { IfOk result (λ _. text.new.items ≡ text.old.items ++ 10 ∷ []) }
{
    text.push(b'\n')?;
    Ok(())
}

/// Appends the line of the device.
pub(crate) fn push_device(
    text: &mut Vec<u8>,
    columns: u32,
    rows: u32,
    tracks: u32,
    inputs: u32,
) -> Result<(), AllocError>
    ensures { IfOk result (λ _. text.new.items
        ≡ text.old.items ++ line_of (line_words (Device columns rows tracks inputs))) }
{
    text.extend_from_slice(b"device")?;
    push_three(text, columns, rows, tracks as usize)?;
    push_number(text, inputs as usize)?;
    end_line(text)
}

/// Appends the line of an input pad.
pub(crate) fn push_pad_in(text: &mut Vec<u8>, place: Place) -> Result<(), AllocError>
    ensures { IfOk result (λ _.
        text.new.items ≡ text.old.items ++ line_of (line_words (PadIn place))) }
{
    text.extend_from_slice(b"pad")?;
    push_three(text, place.x, place.y, place.subblock as usize)?;
    push_word(text, b"in")?;
    end_line(text)
}

/// Appends the line of an output pad.
pub(crate) fn push_pad_out(
    text: &mut Vec<u8>,
    place: Place,
    shown: Option<usize>,
) -> Result<(), AllocError>
    ensures { IfOk result (λ _.
        text.new.items ≡ text.old.items ++ line_of (line_words (PadOut place shown))) }
{
    text.extend_from_slice(b"pad")?;
    push_three(text, place.x, place.y, place.subblock as usize)?;
    push_word(text, b"out")?;
    push_global(text, shown)?;
    end_line(text)
}

/// Appends the line of a BLE that is used.
pub(crate) fn push_used(text: &mut Vec<u8>, place: BlePlace) -> Result<(), AllocError>
    ensures { IfOk result (λ _.
        text.new.items ≡ text.old.items ++ line_of (line_words (Used place))) }
{
    text.extend_from_slice(b"ble")?;
    push_place(text, place)?;
    end_line(text)
}

/// Appends the line of an input.
pub(crate) fn push_takes(
    text: &mut Vec<u8>,
    place: BlePlace,
    input: usize,
    signal: Signal,
) -> Result<(), AllocError>
    ensures { IfOk result (λ _.
        text.new.items ≡ text.old.items ++ line_of (line_words (Takes place input signal))) }
{
    text.extend_from_slice(b"input")?;
    push_place(text, place)?;
    push_number(text, input)?;
    push_signal(text, signal)?;
    end_line(text)
}

/// Appends the line of a latch.
pub(crate) fn push_stores(
    text: &mut Vec<u8>,
    place: BlePlace,
    kind: &[u8],
    init: &[u8],
    control: Option<usize>,
) -> Result<(), AllocError>
    ensures { IfOk result (λ _. text.new.items
        ≡ text.old.items ++ line_of (line_words (Stores place kind.now init.now control))) }
{
    text.extend_from_slice(b"latch")?;
    push_place(text, place)?;
    push_word(text, kind)?;
    push_word(text, init)?;
    push_global(text, control)?;
    end_line(text)
}

/// Appends the line of a global net.
pub(crate) fn push_feeds(
    text: &mut Vec<u8>,
    number: usize,
    driver: Driver,
) -> Result<(), AllocError>
    ensures { IfOk result (λ _.
        text.new.items ≡ text.old.items ++ line_of (line_words (Feeds number driver))) }
{
    text.extend_from_slice(b"global")?;
    push_number(text, number)?;
    match driver {
        Driver::PadAt(place) => {
            push_word(text, b"pad")?;
            push_three(text, place.x, place.y, place.subblock as usize)?;
            end_line(text)
        }
        Driver::BleAt(place) => {
            push_word(text, b"ble")?;
            push_place(text, place)?;
            end_line(text)
        }
    }
}

/// Appends the line of a switch.
pub(crate) fn push_switch(text: &mut Vec<u8>, from: Node, to: Node) -> Result<(), AllocError>
    ensures { IfOk result (λ _.
        text.new.items ≡ text.old.items ++ line_of (line_words (Switch from to))) }
{
    text.extend_from_slice(b"switch")?;
    push_node(text, from)?;
    push_node(text, to)?;
    end_line(text)
}
