//! The nets as lines.
ghost use Rattle.std.specs.Prelude.{◌≤◌};

use crate::names::write_beginning;
use crate::pieces::{Run, Stub, Walk};
use crate::plan::Plan;
use line_text::Sink;
use picture_lines::{Direction, write_line};
use strip_files::{RouteNode, RoutedStrip};
use text_parts::{Part, Pen};

/// The largest number of letters of a net's name that are written.
pub(crate) const TOLD_LETTERS: usize = 60;

/// The number of colours of nets.
const COLOURS: usize = 12;

/// The largest number of lines that are drawn. More would make a picture of more than 10 MB.
const MAX_LINES: u64 = 300_000;

/// How much of the routes is drawn.
#[derive(Clone, Copy, PartialEq, Eq)]
pub(crate) enum Detail {
    /// All.
    Pins,
    /// Wires alone.
    Wires,
    /// Nothing.
    Nothing,
}

impl Detail {
    /// As much as stays within the limit of lines.
    pub(crate) fn of(strip: &RoutedStrip<'_>, plan: Plan) -> Self {
        let mut walk = Walk::new(plan);
        let mut runs = 0u64;
        let mut stubs = 0u64;
        for read in strip.nodes.iter() {
            let step = walk.step(*read);
            runs = runs.saturating_add(u64::from(step.run.is_some()));
            stubs = stubs.saturating_add(u64::from(step.stub.is_some()));
        }
        if runs.saturating_add(stubs).saturating_add(stubs) <= MAX_LINES {
            Detail::Pins
        } else if runs <= MAX_LINES {
            Detail::Wires
        } else {
            Detail::Nothing
        }
    }
}

/// How a net is drawn.
#[derive(Clone, Copy, PartialEq, Eq)]
pub(crate) enum Ink {
    /// In the colour of its number.
    Coloured,
    /// Pale, in the background of another one.
    Pale,
    /// In front of the others.
    Strong,
}

/// Writes the routes of all nets; if a net is given, all others as pale ones.
pub(crate) fn write_routes<K: Sink>(
    pen: &mut Pen<'_, K>,
    plan: Plan,
    strip: &RoutedStrip<'_>,
    picked: Option<usize>,
    detail: Detail,
) {
    pen.text("<g class=\"r\">\n");
    let ink = match picked {
        Some(_) => Ink::Pale,
        None => Ink::Coloured,
    };
    if detail != Detail::Nothing {
        for net in 0..strip.nets.len() {
            write_net(pen, plan, strip, net, ink, detail);
        }
    }
    if let Some(net) = picked {
        write_net(pen, plan, strip, net, Ink::Strong, Detail::Pins);
    }
    pen.text("</g>\n");
}

/// Writes the route of a net, if it has one.
fn write_net<K: Sink>(
    pen: &mut Pen<'_, K>,
    plan: Plan,
    strip: &RoutedStrip<'_>,
    net: usize,
    ink: Ink,
    detail: Detail,
) {
    let nodes = strip.nodes_of(net);
    if nodes.is_empty() {
        return;
    }
    begin_path(pen, net, ink, "");
    write_lines(pen, plan, nodes, detail == Detail::Pins);
    pen.text("\">");
    write_title(pen, strip, net);
    pen.text("</path>\n");
    if detail == Detail::Pins {
        begin_path(pen, net, ink, " d");
        write_dots(pen, plan, nodes);
        pen.text("\"/>\n");
    }
}

/// Begins a path of a net, with a further class.
fn begin_path<K: Sink>(pen: &mut Pen<'_, K>, net: usize, ink: Ink, class: &str) {
    pen.text("<path class=\"");
    match ink {
        Ink::Coloured => pen.write(&[Part::Text("c"), Part::Number((net % COLOURS) as u32)]),
        Ink::Pale => pen.text("q"),
        Ink::Strong => pen.text("z"),
    }
    pen.write(&[Part::Text(class), Part::Text("\" d=\"")]);
}

/// Writes the name of a net as the title of its path.
fn write_title<K: Sink>(pen: &mut Pen<'_, K>, strip: &RoutedStrip<'_>, net: usize) {
    pen.text("<title>net ");
    if let Some(net) = strip.nets.get(net) {
        write_beginning(pen, net.name, TOLD_LETTERS);
    }
    pen.text("</title>");
}

/// Writes the wires of a route, and the lines to its pins if `pins` is set.
fn write_lines<K: Sink>(pen: &mut Pen<'_, K>, plan: Plan, nodes: &[RouteNode], pins: bool) {
    let mut walk = Walk::new(plan);
    for read in nodes {
        let step = walk.step(*read);
        write_run(pen, plan, step.run);
        if pins {
            write_stub(pen, step.stub);
        }
    }
    write_run(pen, plan, walk.rest());
}

/// Writes the ends of the lines to the pins of a route.
fn write_dots<K: Sink>(pen: &mut Pen<'_, K>, plan: Plan, nodes: &[RouteNode]) {
    let mut walk = Walk::new(plan);
    for read in nodes {
        if let Some(stub) = walk.step(*read).stub {
            write_line(pen, stub.x, stub.y, "h", 0);
        }
    }
}

/// Writes adjoining wires, if there are any.
fn write_run<K: Sink>(pen: &mut Pen<'_, K>, plan: Plan, run: Option<Run>) {
    let Some(run) = run else {
        return;
    };
    let along = plan.lattice.track(run.last, run.track);
    let across = plan.lattice.track(run.channel, run.track);
    let length = plan.lattice.span(run.count());
    match run.direction {
        Direction::Across => write_line(pen, along, across, "h-", length),
        Direction::Up => write_line(pen, across, along, "v-", length),
    }
}

/// Writes the line to a pin, if there is one.
fn write_stub<K: Sink>(pen: &mut Pen<'_, K>, stub: Option<Stub>) {
    match stub {
        Some(stub) => write_line(pen, stub.x, stub.y, stub.command, stub.length),
        None => (),
    }
}
