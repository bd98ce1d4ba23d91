//! A line for each step.
ghost use Rattle.std.specs.Prelude.{◌≡◌, ◌-◌};
ghost use Rattle.one_user.specs.Prelude.{pass_count, Writes, temperature_at};
ghost use Rattle.one_user.specs.Lines.{cluster_line, iteration_line, kind_word, most_line, overuse_line, packed_line, pass_line, step_line};

use crate::passes::{pass_count, temperature_after};
use crate::steps::StepMade;
use job_state::Progress;
use line_text::{Failed, Sink};
use pathfinder::Overuse;
use rr_graph::{Node, NodeKind, StripGraph};
use strips::Window;
use text_parts::{Part, write_parts};

/// Writes the line of a step that was made on the strip of a window.
pub(crate) fn tell_step<W: Sink>(
    sink: &mut W,
    window: &Window<'_>,
    made: StepMade,
) -> Result<(), Failed>
    ensures { Writes W.contents W.has_failed sink.old sink.new
        (step_line window.now.strip made.number made.progress) result }
{
    match made.progress {
        Progress::Packing { tables, latches } => {
            tell_cluster(sink, made.number, tables.saturating_add(latches))
        }
        Progress::Packed {
            clusters,
            pads,
            nets,
        } => tell_packed(sink, clusters, pads, nets),
        Progress::Placing { cost } => tell_pass(sink, window, made.number, cost),
        Progress::Routing(overuse) => tell_overuse(sink, made.number, overuse),
        Progress::Routed => tell_iteration(sink, made.number, "no node overused"),
        Progress::GaveUp => tell_iteration(sink, made.number, "given up"),
        Progress::NoPath => tell_iteration(sink, made.number, "a net has no path"),
    }
}

/// Writes the line of a cluster, of a packing with at most `most` clusters.
fn tell_cluster<W: Sink>(sink: &mut W, number: u32, most: usize) -> Result<(), Failed>
    ensures { Writes W.contents W.has_failed sink.old sink.new (cluster_line number most) result }
{
    write_parts(
        sink,
        &[
            Part::Text("cluster "),
            Part::Number(number),
            Part::Text(" of at most "),
            Part::Long(most as u64),
            Part::Text("\n"),
        ],
    )
}

/// Writes the line of a packing that is whole.
fn tell_packed<W: Sink>(
    sink: &mut W,
    clusters: usize,
    pads: usize,
    nets: usize,
) -> Result<(), Failed>
    ensures { Writes W.contents W.has_failed sink.old sink.new (packed_line clusters pads nets)
        result }
{
    write_parts(
        sink,
        &[
            Part::Text("packed: "),
            Part::Long(clusters as u64),
            Part::Text(" clusters, "),
            Part::Long(pads as u64),
            Part::Text(" pads, "),
            Part::Long(nets as u64),
            Part::Text(" nets\n"),
        ],
    )
}

/// Writes the line of a pass on that strip.
fn tell_pass<W: Sink>(
    sink: &mut W,
    window: &Window<'_>,
    number: u32,
    cost: u64,
) -> Result<(), Failed>
    ensures { Writes W.contents W.has_failed sink.old sink.new
        (pass_line number (pass_count window.now.strip)
        (temperature_at window.now.strip (number - 1)) cost) result }
{
    window.laws();
    let strip = window.strip();
    let passes = pass_count(strip);
    let temperature = temperature_after(strip, number.saturating_sub(1));
    tell_pass_of(sink, number, passes, temperature, cost)
}

/// Writes the line of a pass, with the number of passes and its temperature.
fn tell_pass_of<W: Sink>(
    sink: &mut W,
    number: u32,
    passes: u32,
    temperature: u32,
    cost: u64,
) -> Result<(), Failed>
    ensures { Writes W.contents W.has_failed sink.old sink.new
        (pass_line number passes temperature cost) result }
{
    write_parts(
        sink,
        &[
            Part::Text("pass "),
            Part::Number(number),
            Part::Text(" of "),
            Part::Number(passes),
            Part::Text(": temperature "),
            Part::Number(temperature),
            Part::Text(", cost "),
            Part::Long(cost),
            Part::Text("\n"),
        ],
    )
}

/// Writes the line of an iteration with that end.
fn tell_iteration<W: Sink>(sink: &mut W, number: u32, end: &str) -> Result<(), Failed>
    ensures { Writes W.contents W.has_failed sink.old sink.new (iteration_line number end.now)
        result }
{
    write_parts(
        sink,
        &[
            Part::Text("iteration "),
            Part::Number(number),
            Part::Text(" of 30: "),
            Part::Text(end),
            Part::Text("\n"),
        ],
    )
}

/// Writes the line of an iteration after which nodes are overused.
fn tell_overuse<W: Sink>(sink: &mut W, number: u32, overuse: Overuse) -> Result<(), Failed>
    ensures { Writes W.contents W.has_failed sink.old sink.new
        (overuse_line number overuse.nodes overuse.most) result }
{
    match overuse.most {
        Some(most) => tell_most(sink, number, overuse.nodes, most),
        None => tell_iteration(sink, number, "no node overused"),
    }
}

/// Writes the line of an iteration after which `nodes` nodes are overused, with the most overused
/// one.
fn tell_most<W: Sink>(sink: &mut W, number: u32, nodes: usize, most: Node) -> Result<(), Failed>
    ensures { Writes W.contents W.has_failed sink.old sink.new (most_line number nodes most)
        result }
{
    write_parts(
        sink,
        &[
            Part::Text("iteration "),
            Part::Number(number),
            Part::Text(" of 30: "),
            Part::Long(nodes as u64),
            Part::Text(" nodes overused, most at "),
            Part::Text(kind_word(most.kind)),
            Part::Text(" ("),
            Part::Number(most.x),
            Part::Text(","),
            Part::Number(most.y),
            Part::Text(")\n"),
        ],
    )
}

/// The word of the route file for a kind of node.
fn kind_word(kind: NodeKind) -> &'static str
    ensures { result.now ≡ kind_word kind }
{
    match kind {
        NodeKind::Source => "SOURCE",
        NodeKind::Sink => "SINK",
        NodeKind::Opin => "OPIN",
        NodeKind::Ipin => "IPIN",
        NodeKind::ChanX => "CHANX",
        NodeKind::ChanY => "CHANY",
    }
}
