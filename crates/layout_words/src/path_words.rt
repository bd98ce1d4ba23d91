//! What is wrong with the paths of a net, in words.
use crate::entry_words::write_entry;
use crate::lines::{item_line, node_index};
use crate::named::{write_block, write_rr_node, write_sink};
use crate::subject::Subject;
use layout_check::RouteFault;
use layouts::LaidNet;
use line_text::Sink;
use rr_graph::Node;
use text_parts::Pen;

/// Writes a fault of the paths of a net whose first line that is.
pub(crate) fn write_path_fault<E: Sink>(
    pen: &mut Pen<'_, E>,
    subject: Subject<'_>,
    line: usize,
    between: &LaidNet,
    driver: usize,
    fault: &RouteFault,
) {
    write_entry(pen, subject, line_of(line, between, fault), between);
    match fault {
        RouteFault::NoEdge(from, to) => {
            write_two(pen, subject, "no edge leads from ", *from, " to ", *to);
        }
        RouteFault::TwoPins(one, other) => {
            write_two(
                pen,
                subject,
                "it leaves its block by ",
                *one,
                " and by ",
                *other,
            );
        }
        RouteFault::TwoWays(one, other, to) => {
            write_two(
                pen,
                subject,
                "its route comes from ",
                *one,
                " and from ",
                *other,
            );
            pen.text(" to ");
            write_rr_node(pen, subject, *to);
        }
        RouteFault::NoSource => {
            pen.text("its route does not begin at its driver, ");
            write_block(pen, subject, driver);
        }
        RouteFault::NoPin => pen.text("its route has no output pin"),
        _ => write_node_fault(pen, subject, fault),
    }
}

/// The line at which the fault is: that of the last node that it names if the paths have it, and
/// else the net's first line.
fn line_of(line: usize, between: &LaidNet, fault: &RouteFault) -> usize {
    let found = match fault {
        RouteFault::NoEdge(from, to) => node_index(between, Some(*from), *to),
        RouteFault::TwoWays(_, from, to) => node_index(between, Some(*from), *to),
        RouteFault::TwoPins(_, pin) => node_index(between, None, *pin),
        RouteFault::NoNode(node)
        | RouteFault::IntoSource(node)
        | RouteFault::NotReached(node)
        | RouteFault::LeadsOn(node)
        | RouteFault::EndsAt(node)
        | RouteFault::NotEmpty(node) => node_index(between, None, *node),
        RouteFault::NoSource | RouteFault::NoPin | RouteFault::NoSink(_) => None,
    };
    match found {
        Some(index) => item_line(line, index),
        None => line,
    }
}

/// Writes two nodes with words before them.
fn write_two<E: Sink>(
    pen: &mut Pen<'_, E>,
    subject: Subject<'_>,
    before: &str,
    one: Node,
    between: &str,
    other: Node,
) {
    pen.text(before);
    write_rr_node(pen, subject, one);
    pen.text(between);
    write_rr_node(pen, subject, other);
}

/// Writes a fault of one node.
fn write_node_fault<E: Sink>(pen: &mut Pen<'_, E>, subject: Subject<'_>, fault: &RouteFault) {
    match fault {
        RouteFault::NoNode(node) => write_one(pen, subject, "the strip has no ", *node),
        RouteFault::IntoSource(node) => {
            write_one(
                pen,
                subject,
                "its route leads back to its source from ",
                *node,
            );
        }
        RouteFault::NotReached(node) => {
            write_one(
                pen,
                subject,
                "its route does not lead from its driver to ",
                *node,
            );
        }
        RouteFault::LeadsOn(node) => {
            write_one(pen, subject, "its route leads on from ", *node);
        }
        RouteFault::NotEmpty(node) => {
            write_one(pen, subject, "no block uses it, and its route has ", *node);
        }
        RouteFault::NoSink(sink) => {
            pen.text("its route does not reach ");
            write_sink(pen, subject, *sink);
        }
        RouteFault::EndsAt(sink) => {
            pen.text("its route ends where it is not used, at ");
            write_sink(pen, subject, *sink);
        }
        _ => {}
    }
}

/// Writes a node with words before it.
fn write_one<E: Sink>(pen: &mut Pen<'_, E>, subject: Subject<'_>, words: &str, node: Node) {
    pen.text(words);
    write_rr_node(pen, subject, node);
}
