//! What is wrong with the nets between blocks, in words.
use crate::lines::{item_line, net_line, node_index, write_line};
use crate::listed::{Difference, first_difference, is_global};
use crate::named::{write_block, write_net, write_rr_node};
use crate::path_words::write_path_fault;
use crate::subject::Subject;
use layout_check::{EntryFault, NetFault};
use layouts::LaidNet;
use line_text::Sink;
use rr_graph::Node;
use text_parts::Pen;

/// Writes a fault of the nets between blocks.
pub(crate) fn write_net_fault<E: Sink>(
    pen: &mut Pen<'_, E>,
    subject: Subject<'_>,
    fault: &NetFault,
) {
    match fault {
        NetFault::Entry(number, fault) => {
            if let Some(between) = subject.layout.nets().get(*number) {
                write_entry_fault(pen, subject, *number, between, fault);
            }
        }
        NetFault::Overused(node) => write_overuse(pen, subject, *node),
    }
}

/// Writes a fault of the entry with this number.
fn write_entry_fault<E: Sink>(
    pen: &mut Pen<'_, E>,
    subject: Subject<'_>,
    number: usize,
    between: &LaidNet,
    fault: &EntryFault,
) {
    let line = net_line(subject.layout, number);
    match fault {
        EntryFault::NoDriver => {
            write_entry(pen, subject, line, between);
            pen.text("no block drives it");
        }
        EntryFault::TwoDrivers(driver, other) => {
            write_entry(pen, subject, line, between);
            write_block(pen, subject, *driver);
            pen.text(" and ");
            write_block(pen, subject, *other);
            pen.text(" both drive it");
        }
        EntryFault::Listed(driver) => write_listed(pen, subject, line, between, *driver),
        EntryFault::Paths(driver, fault) => {
            write_path_fault(pen, subject, line, between, *driver, fault);
        }
    }
}

/// Writes the line and the name of an entry's net.
pub(crate) fn write_entry<E: Sink>(
    pen: &mut Pen<'_, E>,
    subject: Subject<'_>,
    line: usize,
    between: &LaidNet,
) {
    write_line(pen, ".route", line);
    pen.text("net ");
    write_net(pen, subject, between.net());
    pen.text(": ");
}

/// Writes that the blocks that are listed with a net aren't those of a global net, or that the net
/// isn't global.
fn write_listed<E: Sink>(
    pen: &mut Pen<'_, E>,
    subject: Subject<'_>,
    line: usize,
    between: &LaidNet,
    driver: usize,
) {
    let listed = between.listed_blocks();
    if !is_global(subject, between.net()) {
        write_entry(pen, subject, line, between);
        pen.text("it lists blocks, but it controls no latch");
    } else if listed.is_empty() {
        write_entry(pen, subject, line, between);
        pen.text(
            "it controls a latch, so it is global: it has no route, and its blocks are listed",
        );
    } else if let Some(found) = first_difference(subject, between.net(), driver, listed) {
        write_entry(pen, subject, item_line(line, found.index), between);
        write_difference(pen, subject, listed, found);
    }
}

/// Writes where a list of blocks differs from that of a global net.
fn write_difference<E: Sink>(
    pen: &mut Pen<'_, E>,
    subject: Subject<'_>,
    listed: &[u32],
    found: Difference,
) {
    match (listed.get(found.index), found.expected) {
        (Some(block), Some(expected)) => {
            write_block(pen, subject, *block as usize);
            pen.text(" is listed in place of ");
            write_block(pen, subject, expected);
        }
        (Some(block), None) => {
            write_block(pen, subject, *block as usize);
            pen.text(" is listed, and does not use it");
        }
        (None, Some(expected)) => {
            write_block(pen, subject, expected);
            pen.text(" uses it, and is not listed");
        }
        (None, None) => {}
    }
}

/// Writes that more nets use a node than it can carry: the line of the last of them, and the first.
fn write_overuse<E: Sink>(pen: &mut Pen<'_, E>, subject: Subject<'_>, node: Node) {
    let nets = subject.layout.nets();
    let (first, last) = (first_use(nets, node), last_use(nets, node));
    let (Some(other), Some(between)) = (nets.get(first), nets.get(last)) else {
        return;
    };
    let index = node_index(between, None, node).unwrap_or(0);
    let line = item_line(net_line(subject.layout, last), index);
    write_entry(pen, subject, line, between);
    write_rr_node(pen, subject, node);
    pen.text(" is in the routes of more nets than it can carry, net ");
    write_net(pen, subject, other.net());
    pen.text(" among them");
}

/// The number of the first net whose route has the node, or 0 if there is none.
fn first_use(nets: &[LaidNet], node: Node) -> usize {
    for (number, between) in nets.iter().enumerate() {
        if node_index(between, None, node).is_some() {
            return number;
        }
    }
    0
}

/// The number of the last net whose route has the node, or 0 if there is none.
fn last_use(nets: &[LaidNet], node: Node) -> usize {
    let mut last = 0;
    for (number, between) in nets.iter().enumerate() {
        if node_index(between, None, node).is_some() {
            last = number;
        }
    }
    last
}
