//! What is wrong with a block by itself, in words.
use crate::lines::{ble_line, block_line, place_line, write_line};
use crate::named::{write_block, write_net};
use crate::subject::Subject;
use cluster::Block;
use implements::Feed;
use layout_check::{BleFault, BlockFault};
use layouts::{LaidBle, LaidBlock};
use line_text::Sink;
use text_parts::{Part, Pen};

/// Writes a fault of the block with this number.
pub(crate) fn write_block_fault<E: Sink>(
    pen: &mut Pen<'_, E>,
    subject: Subject<'_>,
    block: usize,
    fault: &BlockFault,
) {
    let Some(laid) = subject.layout.blocks().get(block) else {
        return;
    };
    match fault {
        BlockFault::NoPlace => {
            write_line(pen, ".place", place_line(block));
            write_block(pen, subject, block);
            pen.text(place_words(laid));
        }
        BlockFault::TooManyBles => {
            write_line(pen, ".net", block_line(subject.layout, block));
            write_block(pen, subject, block);
            let most = subject.arch.cluster_size;
            write_too_many(pen, laid.bles().len(), "BLEs", "a block", most);
        }
        BlockFault::Ble(number, fault) => {
            if let Some(ble) = laid.bles().get(*number) {
                write_ble_name(pen, subject, block, *number, ble);
                write_ble_fault(pen, subject, ble, fault);
            }
        }
    }
}

/// That the strip has no such place for the block.
fn place_words(laid: &LaidBlock) -> &'static str {
    match laid.block() {
        Block::Cluster(_) => ": the strip has no such place for a cluster",
        _ => ": the strip has no such place for a pad",
    }
}

/// Writes that something has more of its parts than there may be.
fn write_too_many<'x, E: Sink>(
    pen: &mut Pen<'_, E>,
    number: usize,
    parts: &'x str,
    whole: &'x str,
    most: u32,
) {
    pen.write(&[
        Part::Text(": it has "),
        Part::Long(number as u64),
        Part::Text(" "),
        Part::Text(parts),
        Part::Text(", and "),
        Part::Text(whole),
        Part::Text(" has at most "),
        Part::Number(most),
    ]);
}

/// Writes the line and the name of a BLE.
pub(crate) fn write_ble_name<E: Sink>(
    pen: &mut Pen<'_, E>,
    subject: Subject<'_>,
    block: usize,
    number: usize,
    ble: &LaidBle,
) {
    write_line(pen, ".net", ble_line(subject.layout, block, number));
    write_block(pen, subject, block);
    pen.text(", BLE ");
    write_net(pen, subject, ble.name());
}

/// Writes a fault of a BLE, after its name.
fn write_ble_fault<E: Sink>(
    pen: &mut Pen<'_, E>,
    subject: Subject<'_>,
    ble: &LaidBle,
    fault: &BleFault,
) {
    match fault {
        BleFault::TooManyInputs => {
            let most = subject.arch.lut_size;
            write_too_many(pen, ble.inputs().len(), "inputs", "a table", most);
        }
        BleFault::NoInput(input) => {
            if let Some(feed) = ble.inputs().get(*input) {
                write_no_input(pen, *feed);
            }
        }
        BleFault::NoClock => {
            write_pin(pen, ": its clock comes from pin ", ble.clock());
            pen.text(", which is not a clock pin that carries a net");
        }
        BleFault::WrongOutput => {
            write_pin(pen, ": its output is on pin ", ble.output());
            pen.text(", which is not an output pin that carries net ");
            write_net(pen, subject, ble.name());
        }
    }
}

/// Writes that no net comes to an input.
fn write_no_input<E: Sink>(pen: &mut Pen<'_, E>, feed: Feed) {
    match feed {
        Feed::Pin(pin) => {
            write_pin(pen, ": an input comes from pin ", Some(pin));
            pen.text(", which is not an input pin that carries a net");
        }
        Feed::Ble(place) => {
            write_pin(pen, ": an input comes from ble_", Some(place));
            pen.text(", and the cluster has no such BLE");
        }
    }
}

/// Writes words, and the number after them if there is one.
fn write_pin<E: Sink>(pen: &mut Pen<'_, E>, words: &str, number: Option<usize>) {
    pen.text(words);
    if let Some(number) = number {
        pen.write(&[Part::Long(number as u64)]);
    }
}
