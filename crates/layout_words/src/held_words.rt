//! What is wrong with the BLEs that hold tables and latches, in words.
use crate::block_words::write_ble_name;
use crate::element::{Element, latch_at, table_at, write_element};
use crate::lines::ble_line;
use crate::named::write_net;
use crate::subject::Subject;
use layout_check::{BleNumber, HoldFault, ReadFault};
use layouts::{LaidBle, LaidBlock};
use line_text::Sink;
use text_parts::{Part, Pen};

/// Writes why a BLE holds no table and no latch.
pub(crate) fn write_no_holder<E: Sink>(
    pen: &mut Pen<'_, E>,
    subject: Subject<'_>,
    number: BleNumber,
    fault: &HoldFault,
) {
    let Some(laid) = subject.layout.blocks().get(number.block) else {
        return;
    };
    let Some(ble) = laid.bles().get(number.ble) else {
        return;
    };
    write_ble_name(pen, subject, number.block, number.ble, ble);
    match fault {
        HoldFault::WrongClock(latch) => write_clock(pen, subject, laid, ble, *latch),
        HoldFault::NotDriven => pen.text(": no table and no latch of the netlist drives this net"),
        _ => write_element_fault(pen, subject, fault),
    }
}

/// Writes in what a BLE differs from a table or a latch.
fn write_element_fault<E: Sink>(pen: &mut Pen<'_, E>, subject: Subject<'_>, fault: &HoldFault) {
    let circuit = subject.circuit;
    match fault {
        HoldFault::Clocked(table) => {
            pen.text(": it has a clock, and ");
            write_element(pen, subject, table_at(circuit, *table));
            pen.text(" has none");
        }
        HoldFault::Table(table, fault) => {
            write_reads(pen, subject, table_at(circuit, *table), fault);
        }
        HoldFault::Latch(latch, fault) => {
            write_reads(pen, subject, latch_at(circuit, *latch), fault);
        }
        HoldFault::Pair(table, latch, fault) => {
            write_reads(pen, subject, table_at(circuit, *table), fault);
            pen.text(", before ");
            write_element(pen, subject, latch_at(circuit, *latch));
        }
        HoldFault::ReadElsewhere(table, latch) => {
            pen.text(": it holds ");
            write_element(pen, subject, table_at(circuit, *table));
            pen.text(" together with ");
            write_element(pen, subject, latch_at(circuit, *latch));
            pen.text(", but the table is read elsewhere too");
        }
        HoldFault::NotDriven | HoldFault::WrongClock(_) => {}
    }
}

/// Writes in what the nets that a BLE receives differ from those that the element reads.
fn write_reads<E: Sink>(
    pen: &mut Pen<'_, E>,
    subject: Subject<'_>,
    element: Option<Element>,
    fault: &ReadFault,
) {
    let (before, net, after) = match fault {
        ReadFault::Lacks(net) => (
            ": it does not receive net ",
            *net,
            ", which is an input of ",
        ),
        ReadFault::Extra(net) => (": it receives net ", *net, ", which is no input of "),
        ReadFault::Twice(net) => (": it receives twice net ", *net, ", which is one input of "),
    };
    pen.text(before);
    write_net(pen, subject, net);
    pen.text(after);
    write_element(pen, subject, element);
}

/// Writes that the clock of a BLE isn't the control of its latch.
fn write_clock<E: Sink>(
    pen: &mut Pen<'_, E>,
    subject: Subject<'_>,
    laid: &LaidBlock,
    ble: &LaidBle,
    latch: usize,
) {
    match clock_of(laid, ble) {
        Some(net) => {
            pen.text(": its clock is ");
            write_net(pen, subject, net);
        }
        None => pen.text(": it has no clock"),
    }
    pen.text(", and ");
    write_element(pen, subject, latch_at(subject.circuit, latch));
    match control_of(subject, latch) {
        Some(net) => {
            pen.text(" is controlled by ");
            write_net(pen, subject, net);
        }
        None => pen.text(" has no control"),
    }
}

/// The net on the clock pin of a BLE.
fn clock_of(laid: &LaidBlock, ble: &LaidBle) -> Option<u32> {
    *laid.pins().get(ble.clock()?)?
}

/// The control of the latch with this number.
fn control_of(subject: Subject<'_>, latch: usize) -> Option<u32> {
    subject.circuit.latches.as_slice().get(latch)?.control
}

/// Writes that no BLE holds an element.
pub(crate) fn write_nowhere<E: Sink>(
    pen: &mut Pen<'_, E>,
    subject: Subject<'_>,
    element: Option<Element>,
) {
    pen.text(".net: no BLE holds ");
    write_element(pen, subject, element);
    if let Some(element) = element {
        pen.write(&[
            Part::Text(" (line "),
            Part::Number(element.line),
            Part::Text(" of the netlist)"),
        ]);
    }
}

/// Writes that two BLEs hold an element.
pub(crate) fn write_twice<E: Sink>(
    pen: &mut Pen<'_, E>,
    subject: Subject<'_>,
    element: Option<Element>,
    first: BleNumber,
    second: BleNumber,
) {
    if let Some(laid) = subject.layout.blocks().get(second.block) {
        if let Some(ble) = laid.bles().get(second.ble) {
            write_ble_name(pen, subject, second.block, second.ble, ble);
        }
    }
    pen.text(": it holds ");
    write_element(pen, subject, element);
    let line = ble_line(subject.layout, first.block, first.ble);
    pen.write(&[
        Part::Text(", and so does the BLE in line "),
        Part::Long(line as u64),
    ]);
}
