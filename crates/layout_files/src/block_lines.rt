//! The lines of a cluster of a `.net` file.
ghost use Rattle.std.specs.Prelude.{◌≡◌, ◌≤◌, ◌-◌, IfOk, []};
ghost use Rattle.layout_files.specs.Cursors.{size};
ghost use Rattle.layout_files.specs.ReadingNets.{AreBlesRead, AreInputsRead, ArePinsRead, IsBleRead, IsFeedIn, IsInputRead, IsNetOnRead, IsNumberIn, IsPinRead};

use crate::cursor::Cursor;
use crate::names::net_named;
use crate::net_lines::NetContext;
use implements::Feed;
use layouts::LaidBle;
use line_text::{NameSet, decimal_u32, is_word};
use std::alloc::AllocError;
use strip_files::Fault;

/// Reads the nets on the pins.
pub(crate) fn read_pins(
    cursor: &mut Cursor<'_>,
    context: NetContext<'_, '_>,
) -> Result<Vec<Option<u32>>, AllocError>
    ensures read { IfOk result (λ pins. ArePinsRead context.entry.names.now cursor.old pins.items
        cursor.new) }
    ensures shorter { size cursor.new ≤ size cursor.old }
{
    let mut pins = Vec::new(context.alloc);
    while cursor.takes(" ") {
        let pin = net_on(cursor, context.names);
        pins.push(pin)?;
    }
    Ok(pins)
}

/// Reads the net on a pin, or `open`.
fn net_on(cursor: &mut Cursor<'_>, names: &NameSet<'_>) -> Option<u32>
    ensures read { IsNetOnRead names.now cursor.old result cursor.new }
    ensures shorter { size cursor.new ≤ size cursor.old }
{
    let word = cursor.word();
    if is_word(word, "open") {
        return None;
    }
    Some(net_named(cursor, names, word))
}

/// Reads the lines of the BLEs.
pub(crate) fn read_bles(
    cursor: &mut Cursor<'_>,
    context: NetContext<'_, '_>,
) -> Result<Vec<LaidBle>, AllocError>
    ensures read { IfOk result (λ bles. AreBlesRead context.entry.names.now context.entry.lut_size
        cursor.old bles.items cursor.new) }
    ensures shorter { size cursor.new ≤ size cursor.old }
{
    let mut bles = Vec::new(context.alloc);
    while cursor.takes("subblock: ") {
        let ble = read_ble(cursor, context)?;
        bles.push(ble)?;
    }
    Ok(bles)
}

/// Reads a BLE: its name, its inputs, its output pin and its clock pin.
fn read_ble(cursor: &mut Cursor<'_>, context: NetContext<'_, '_>) -> Result<LaidBle, AllocError>
    ensures read { IfOk result (λ ble. IsBleRead context.entry.names.now context.entry.lut_size
        cursor.old ble cursor.new) }
    ensures shorter { size cursor.new ≤ size cursor.old }
{
    cursor.expect(Fault::BadElement);
    let word = cursor.word();
    let name = net_named(cursor, context.names, word);
    let inputs = read_inputs(cursor, context)?;
    let output = read_pin(cursor);
    let clock = read_pin(cursor);
    cursor.text("\n");
    Ok(LaidBle::new(name, inputs, output, clock))
}

/// Reads where the inputs of a table come from. `open` is no input.
fn read_inputs(
    cursor: &mut Cursor<'_>,
    context: NetContext<'_, '_>,
) -> Result<Vec<Feed>, AllocError>
    ensures read { IfOk result (λ inputs. AreInputsRead context.entry.lut_size cursor.old
        inputs.items cursor.new) }
    ensures shorter { size cursor.new ≤ size cursor.old }
{
    let mut inputs = Vec::new(context.alloc);
    for _place in 0..context.lut_size {
        read_input(cursor, &mut inputs)?;
    }
    Ok(inputs)
}

/// Reads where an input comes from, and adds it to the others. `open` is no input.
fn read_input(cursor: &mut Cursor<'_>, inputs: &mut Vec<Feed>) -> Result<(), AllocError>
    ensures read { IfOk result (λ _. IsInputRead inputs.old.items cursor.old inputs.new.items
        cursor.new) }
    ensures shorter { size cursor.new ≤ size cursor.old }
{
    cursor.text(" ");
    let word = cursor.word();
    if is_word(word, "open") {
        return Ok(());
    }
    let feed = feed_in(cursor, word);
    inputs.push(feed)?;
    Ok(())
}

/// Where an input comes from: `ble_PLACE`, or the number of a pin.
fn feed_in(cursor: &mut Cursor<'_>, word: &[u8]) -> Feed
    ensures read { IsFeedIn word.now cursor.old result cursor.new }
    ensures shorter { size cursor.new ≤ size cursor.old }
{
    match word.strip_prefix(b"ble_".as_slice()) {
        Some(place) => Feed::Ble(number_in(cursor, place)),
        None => Feed::Pin(number_in(cursor, word)),
    }
}

/// Reads the number of a pin, or `open`.
fn read_pin(cursor: &mut Cursor<'_>) -> Option<usize>
    ensures read { IsPinRead cursor.old result cursor.new }
    ensures shorter { size cursor.new ≤ size cursor.old }
{
    cursor.text(" ");
    let word = cursor.word();
    if is_word(word, "open") {
        return None;
    }
    Some(number_in(cursor, word))
}

/// The number that the word spells.
fn number_in(cursor: &mut Cursor<'_>, word: &[u8]) -> usize
    ensures read { IsNumberIn word.now cursor.old result cursor.new }
    ensures shorter { size cursor.new ≤ size cursor.old }
{
    match decimal_u32(word) {
        Some(number) => number as usize,
        None => {
            cursor.fail(fault_of(word));
            0
        }
    }
}

/// What is told of a word that is no number: an empty one is one blank too many.
fn fault_of(word: &[u8]) -> Fault {
    if word.is_empty() {
        Fault::OtherText
    } else {
        Fault::BadElement
    }
}
