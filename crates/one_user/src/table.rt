//! The figures as a text.
ghost use Rattle.std.specs.Prelude.{◌≡◌};
ghost use Rattle.one_user.specs.Prelude.{Writes};
ghost use Rattle.one_user.specs.Lines.{counts_text, figures_text, fullest_line, named_line, none_line};

use crate::figures::Figures;
use device_report::{ChannelUse, write_channel};
use line_text::{Failed, Sink};
use text_parts::{Part, write_parts};

/// Writes one line for each figure. If the sink fails, it has taken a first part of them.
pub fn write_figures<W: Sink>(sink: &mut W, figures: &Figures) -> Result<(), Failed>
    ensures { Writes W.contents W.has_failed sink.old sink.new (figures_text figures.now) result }
{
    write_counts(sink, figures)?;
    write_fullest(sink, figures.fullest, figures.tracks)
}

/// Writes the lines of all figures except the fullest channel.
fn write_counts<W: Sink>(sink: &mut W, figures: &Figures) -> Result<(), Failed>
    ensures { Writes W.contents W.has_failed sink.old sink.new (counts_text figures.now) result }
{
    write_parts(
        sink,
        &[
            Part::Text("logic blocks "),
            Part::Long(figures.blocks.used as u64),
            Part::Text("/"),
            Part::Number(figures.blocks.there),
            Part::Text("\npads "),
            Part::Long(figures.pads.used as u64),
            Part::Text("/"),
            Part::Number(figures.pads.there),
            Part::Text("\nnets "),
            Part::Long(figures.nets as u64),
            Part::Text("\nwire length "),
            Part::Long(figures.wires.used as u64),
            Part::Text("/"),
            Part::Number(figures.wires.there),
            Part::Text("\niterations "),
            Part::Number(figures.iterations),
            Part::Text("\n"),
        ],
    )
}

/// Writes the line of the fullest channel, which has `tracks` tracks.
fn write_fullest<W: Sink>(
    sink: &mut W,
    fullest: Option<ChannelUse>,
    tracks: u32,
) -> Result<(), Failed>
    ensures { Writes W.contents W.has_failed sink.old sink.new (fullest_line tracks fullest)
        result }
{
    match fullest {
        Some(channel) => write_named(sink, channel, tracks),
        None => write_none(sink),
    }
}

/// Writes the line of that channel.
fn write_named<W: Sink>(sink: &mut W, channel: ChannelUse, tracks: u32) -> Result<(), Failed>
    ensures { Writes W.contents W.has_failed sink.old sink.new (named_line tracks channel) result }
{
    write_parts(sink, &[Part::Text("fullest channel ")])?;
    write_channel(sink, channel, tracks)
}

/// Writes that no channel is used.
fn write_none<W: Sink>(sink: &mut W) -> Result<(), Failed>
    ensures { Writes W.contents W.has_failed sink.old sink.new none_line result }
{
    write_parts(sink, &[Part::Text("fullest channel none\n")])
}
