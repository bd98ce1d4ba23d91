//! The report as a text.
ghost use Rattle.std.specs.Prelude.{◌≡◌, flat_map};
ghost use Rattle.line_text.specs.Writing.{Writes};
ghost use Rattle.text_parts.specs.Parts.{bytes_of_part};
ghost use Rattle.device_report.specs.Text.{channel_line, channel_word, columns_line, report_text, tenancy_line, used_text, widest_line};

use crate::channels::{ChannelDirection, ChannelUse};
use crate::columns::ColumnUse;
use crate::report::Report;
use crate::tenancies::{ResourceUse, TenancyUse};
use crate::widest::Room;
use device_lines::Tenancy;
use line_text::{Failed, Sink, is_word};
use text_parts::{Part, write_parts};

/// Writes a report: one line for each tenancy, as in `op list`, with what it uses, a line of
/// columns, the widest strip that would be admitted, and one line for each of the fullest channels.
/// If the sink fails, it has taken a first part of them.
pub fn write_report<K: Sink>(sink: &mut K, report: &Report<'_>) -> Result<(), Failed>
    ensures { Writes K.contents K.has_failed sink.old sink.new (report_text report.now) result }
{
    write_tenancies(sink, &report.tenancies)?;
    write_columns(sink, report.size.columns, report.columns)?;
    write_widest(sink, report.widest)?;
    write_channels(sink, &report.fullest, report.size.tracks)
}

/// Writes the lines of the tenancies.
fn write_tenancies<K: Sink>(sink: &mut K, tenancies: &[TenancyUse<'_>]) -> Result<(), Failed>
    ensures { Writes K.contents K.has_failed sink.old sink.new (flat_map tenancy_line tenancies.now)
        result }
{
    for uses in tenancies {
        write_tenancy(sink, uses)?;
    }
    Ok(())
}

/// Writes the lines of the fullest channels.
fn write_channels<K: Sink>(sink: &mut K, channels: &[ChannelUse], tracks: u32) -> Result<(), Failed>
    ensures { Writes K.contents K.has_failed sink.old sink.new
        (flat_map (channel_line tracks) channels.now) result }
{
    for channel in channels {
        write_channel(sink, *channel, tracks)?;
    }
    Ok(())
}

/// Writes the line of a tenancy.
fn write_tenancy<K: Sink>(sink: &mut K, uses: &TenancyUse<'_>) -> Result<(), Failed>
    ensures { Writes K.contents K.has_failed sink.old sink.new (tenancy_line uses.now) result }
{
    write_parts(
        sink,
        &[
            Part::Text("tenancy "),
            Part::Number(uses.tenancy.id),
            Part::Text(" "),
            Part::Bytes(uses.tenancy.name),
            Part::Text(" offset "),
            Part::Number(uses.tenancy.offset),
            Part::Text(" width "),
            Part::Number(uses.tenancy.width),
            Part::Text(" "),
            Part::Bytes(uses.tenancy.state),
            Part::Text(" blocks "),
            used_part(&uses.tenancy, uses.blocks),
            Part::Text("/"),
            Part::Number(uses.blocks.there),
            Part::Text(" pads "),
            used_part(&uses.tenancy, uses.pads),
            Part::Text("/"),
            Part::Number(uses.pads.there),
            Part::Text(" across "),
            used_part(&uses.tenancy, uses.across),
            Part::Text("/"),
            Part::Number(uses.across.there),
            Part::Text(" up "),
            used_part(&uses.tenancy, uses.up),
            Part::Text("/"),
            Part::Number(uses.up.there),
            Part::Text("\n"),
        ],
    )
}

/// The number of resources of one kind that a tenancy uses, as a part of a text; `-` if it isn't
/// routed, since only a routed tenancy owns anything.
pub fn used_part(tenancy: &Tenancy<'_>, resources: ResourceUse) -> Part<'static>
    ensures { bytes_of_part result ≡ used_text tenancy.now resources }
{
    if is_word(tenancy.state, "Routed") {
        Part::Long(resources.used as u64)
    } else {
        Part::Text("-")
    }
}

/// Writes the line of columns.
fn write_columns<K: Sink>(sink: &mut K, columns: u32, counts: ColumnUse) -> Result<(), Failed>
    ensures { Writes K.contents K.has_failed sink.old sink.new (columns_line columns counts)
        result }
{
    write_parts(
        sink,
        &[
            Part::Text("columns "),
            Part::Number(columns),
            Part::Text(" used "),
            Part::Long(counts.used as u64),
            Part::Text(" guard "),
            Part::Long(counts.guard as u64),
            Part::Text(" free "),
            Part::Long(counts.free as u64),
            Part::Text("\n"),
        ],
    )
}

/// Writes the line of the widest strip.
fn write_widest<K: Sink>(sink: &mut K, widest: Option<Room>) -> Result<(), Failed>
    ensures { Writes K.contents K.has_failed sink.old sink.new (widest_line widest) result }
{
    match widest {
        Some(room) => write_parts(
            sink,
            &[
                Part::Text("widest "),
                Part::Number(room.width),
                Part::Text(" offset "),
                Part::Number(room.offset),
                Part::Text("\n"),
            ],
        ),
        None => write_parts(sink, &[Part::Text("widest none\n")]),
    }
}

/// Writes the line of a channel with `tracks` tracks: its place, and how many of its tracks are
/// used. If the sink fails, it has taken a first part of the line.
pub fn write_channel<K: Sink>(sink: &mut K, channel: ChannelUse, tracks: u32) -> Result<(), Failed>
    ensures { Writes K.contents K.has_failed sink.old sink.new (channel_line tracks channel)
        result }
{
    write_parts(
        sink,
        &[
            Part::Text(channel_word(channel.direction)),
            Part::Text(" ("),
            Part::Number(channel.x),
            Part::Text(","),
            Part::Number(channel.y),
            Part::Text(") "),
            Part::Long(channel.wires as u64),
            Part::Text("/"),
            Part::Number(tracks),
            Part::Text("\n"),
        ],
    )
}

/// The word for a channel.
pub fn channel_word(direction: ChannelDirection) -> &'static str
    ensures { result.now ≡ channel_word direction }
{
    match direction {
        ChannelDirection::Across => "CHANX",
        ChannelDirection::Up => "CHANY",
    }
}
