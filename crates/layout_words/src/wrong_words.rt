//! What is wrong with a layout, in words.
use crate::block_words::write_block_fault;
use crate::element::{latch_at, table_at};
use crate::entry_words::{write_entry, write_net_fault};
use crate::held_words::{write_no_holder, write_nowhere, write_twice};
use crate::lines::{net_line, place_line, write_line};
use crate::listed::net_without_entry;
use crate::named::{write_block, write_net};
use crate::port_words::{Port, write_ports};
use crate::subject::Subject;
use layout_check::Wrong;
use line_text::{Failed, Sink};
use text_parts::Pen;

/// Writes what is wrong with a layout, in one line.
pub fn write_wrong<E: Sink>(
    teller: &mut E,
    subject: Subject<'_>,
    wrong: &Wrong,
) -> Result<(), Failed> {
    let mut pen = Pen::new(teller);
    match wrong {
        Wrong::Block(block, fault) => write_block_fault(&mut pen, subject, *block, fault),
        Wrong::Net(fault) => write_net_fault(&mut pen, subject, fault),
        Wrong::Inputs => write_ports(&mut pen, subject, Port::Input),
        Wrong::Outputs => write_ports(&mut pen, subject, Port::Output),
        Wrong::SamePlace(one, other) => write_same_place(&mut pen, subject, *one, *other),
        Wrong::NotGlobal(net) => write_not_global(&mut pen, subject, *net),
        Wrong::LeftOut(latch) => write_left_out(&mut pen, subject, *latch),
        Wrong::SameNet(_, other) => write_same_net(&mut pen, subject, *other),
        Wrong::NoEntry(block) => write_no_entry(&mut pen, subject, *block),
        _ => write_not_held(&mut pen, subject, wrong),
    }
    pen.text("\n");
    pen.end()
}

/// Writes that a BLE holds nothing, or that an element isn't in one BLE.
fn write_not_held<E: Sink>(pen: &mut Pen<'_, E>, subject: Subject<'_>, wrong: &Wrong) {
    let circuit = subject.circuit;
    match wrong {
        Wrong::Ble(number, fault) => write_no_holder(pen, subject, *number, fault),
        Wrong::TableTwice(table, first, second) => {
            write_twice(pen, subject, table_at(circuit, *table), *first, *second);
        }
        Wrong::LatchTwice(latch, first, second) => {
            write_twice(pen, subject, latch_at(circuit, *latch), *first, *second);
        }
        Wrong::NoTable(table) => write_nowhere(pen, subject, table_at(circuit, *table)),
        Wrong::NoLatch(latch) => write_nowhere(pen, subject, latch_at(circuit, *latch)),
        Wrong::Unlawful(net) => {
            pen.text("the netlist does not drive once net ");
            write_net(pen, subject, *net);
        }
        _ => {}
    }
}

/// Writes that two blocks have one place.
fn write_same_place<E: Sink>(pen: &mut Pen<'_, E>, subject: Subject<'_>, one: usize, other: usize) {
    write_line(pen, ".place", place_line(other));
    write_block(pen, subject, other);
    pen.text(" is on the place of ");
    write_block(pen, subject, one);
}

/// Writes that a net on the global network controls no latch.
fn write_not_global<E: Sink>(pen: &mut Pen<'_, E>, subject: Subject<'_>, net: u32) {
    let globals = subject.layout.globals();
    let index = globals.iter().position(|global| *global == net);
    write_line(pen, ".net", index.unwrap_or(0).saturating_add(1));
    pen.text("net ");
    write_net(pen, subject, net);
    pen.text(" is global, but it controls no latch");
}

/// Writes that the control of a latch isn't on the global network.
fn write_left_out<E: Sink>(pen: &mut Pen<'_, E>, subject: Subject<'_>, latch: usize) {
    let Some(latch) = subject.circuit.latches.as_slice().get(latch) else {
        return;
    };
    pen.text(".net: latch ");
    write_net(pen, subject, latch.output);
    if let Some(control) = latch.control {
        pen.text(": its control ");
        write_net(pen, subject, control);
    }
    pen.text(" is not global");
}

/// Writes that an earlier entry is of the same net.
fn write_same_net<E: Sink>(pen: &mut Pen<'_, E>, subject: Subject<'_>, other: usize) {
    if let Some(between) = subject.layout.nets().get(other) {
        write_entry(pen, subject, net_line(subject.layout, other), between);
        pen.text("it has an earlier entry");
    }
}

/// Writes that a net which is used at the block has no entry.
fn write_no_entry<E: Sink>(pen: &mut Pen<'_, E>, subject: Subject<'_>, block: usize) {
    pen.text(".route: ");
    write_block(pen, subject, block);
    if let Some(laid) = subject.layout.blocks().get(block) {
        if let Some(net) = net_without_entry(subject, laid) {
            pen.text(" uses net ");
            write_net(pen, subject, net);
        }
    }
    pen.text(", which has no entry");
}
