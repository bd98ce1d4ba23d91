//! The picture, from its first byte to its last.
use crate::blocks::{
    write_blocks, write_cluster_names, write_end_blocks, write_ends, write_pad_names, write_places,
};
use crate::channels::{ChannelTracks, Channels, channels_of};
use crate::frame::Frame;
use crate::heat::{write_bars, write_numbers, write_scale};
use crate::names::write_beginning;
use crate::plan::Plan;
use crate::routes::{Detail, TOLD_LETTERS, write_routes};
use line_text::Sink;
use picture_lines::{DrawError, end_group};
use rr_graph::NodeKind;
use std::alloc::Global;
use strip_files::RoutedStrip;
use text_parts::{Part, Pen};

/// How the nets are drawn.
#[derive(Clone, Copy, PartialEq, Eq)]
pub enum View {
    /// Each net in a colour, by its number.
    Nets,
    /// The net of that number in front of the others, which are pale.
    Net(usize),
    /// The number of used tracks of each channel.
    Channels(Full),
}

/// The number of used tracks at which a channel has the darkest colour.
#[derive(Clone, Copy, PartialEq, Eq)]
pub enum Full {
    /// That of the fullest channel.
    Fullest,
    /// The number of tracks that a channel has.
    Tracks(u32),
}

/// A strip, the use of its channels, and how it is drawn.
#[derive(Clone, Copy)]
struct Sheet<'a, 't> {
    strip: &'a RoutedStrip<'t>,
    channels: &'a Channels,
    frame: Frame,
    view: View,
    detail: Detail,
    /// The number of used tracks of the fullest channel.
    fullest: usize,
    /// The driver and the readers of the net in front, by block, if it has no route.
    ends: &'a [usize],
}

/// Writes the picture of a strip as an SVG. Fails if memory runs out, before it writes anything, or
/// if the sink fails, which then has a first part of the picture.
///
/// - Each place of a logic block is a box, and so is each used pad. Clusters and pads have their
///   names in them, as far as they fit, and a title with the whole name and the BLEs.
/// - Adjoining wires of one net and track are one line. A pin is a line between its block and the
///   wire, with a dot at the wire. Its side is that of the channel, and its place on the side
///   follows from the pin's number.
/// - For channels by use, each channel is a bar, darker if it is fuller, with the number of its
///   used tracks; the legend has the scale.
/// - The heading has the size, the nets, the wires and the fullest channel.
///
/// If the lines of all nets would make the picture too large, pins are left out, and if that is not
/// enough the channels are drawn by use; the second heading says so.
pub fn draw<K: Sink>(
    alloc: Global,
    strip: &RoutedStrip<'_>,
    view: View,
    sink: &mut K,
) -> Result<(), DrawError> {
    draw_with_ends(alloc, strip, view, &[], sink)
}

/// Writes the picture as [`draw`] does. The blocks of these numbers are marked as the ends of the
/// net in front, the first one as its driver and the others as its readers: a net that goes by the
/// global network has no route that shows them.
pub fn draw_with_ends<K: Sink>(
    alloc: Global,
    strip: &RoutedStrip<'_>,
    view: View,
    ends: &[usize],
    sink: &mut K,
) -> Result<(), DrawError> {
    let channels = channels_of(alloc, strip)?;
    let mut pen = Pen::new(sink);
    write_sheet(&mut pen, Sheet::of(strip, &channels, view, ends));
    drop(channels);
    Ok(pen.end()?)
}

impl<'a, 't> Sheet<'a, 't> {
    /// The sheet of a strip.
    fn of(
        strip: &'a RoutedStrip<'t>,
        channels: &'a Channels,
        view: View,
        ends: &'a [usize],
    ) -> Self {
        let tracks = Plan::of_tracks(strip);
        let all = Detail::of(strip, tracks);
        let (view, detail) = match view {
            View::Channels(_) => (view, Detail::Pins),
            View::Nets if all == Detail::Nothing => (View::Channels(Full::Fullest), all),
            View::Nets | View::Net(_) => (view, all),
        };
        let plan = match view {
            View::Channels(_) => Plan::of_numbers(strip),
            View::Nets | View::Net(_) => tracks,
        };
        Sheet {
            strip,
            channels,
            frame: Frame::of(plan),
            view,
            detail,
            fullest: most_tracks(&channels.across).max(most_tracks(&channels.up)),
            ends,
        }
    }

    /// The number of used tracks at which a channel has the darkest colour.
    fn full_at(&self, full: Full) -> usize {
        match full {
            Full::Fullest => self.fullest,
            Full::Tracks(tracks) => tracks as usize,
        }
    }
}

/// The number of used tracks of the fullest of these channels.
fn most_tracks(channels: &[ChannelTracks]) -> usize {
    let mut most = 0;
    for channel in channels {
        most = channel.tracks.max(most);
    }
    most
}

/// The number of used tracks of these channels together.
fn wires(channels: &[ChannelTracks]) -> usize {
    let mut wires = 0usize;
    for channel in channels {
        wires = wires.saturating_add(channel.tracks);
    }
    wires
}

fn write_sheet<K: Sink>(pen: &mut Pen<'_, K>, sheet: Sheet<'_, '_>) {
    let frame = sheet.frame;
    frame.write_head(pen);
    write_heading(pen, &sheet);
    write_second_heading(pen, &sheet);
    frame.begin_shapes(pen);
    write_shapes(pen, &sheet);
    end_group(pen);
    write_texts(pen, &sheet);
    frame.write_columns(pen);
    frame.write_rows(pen);
    write_legend(pen, &sheet);
    pen.text("</svg>\n");
}

/// Writes the first heading.
fn write_heading<K: Sink>(pen: &mut Pen<'_, K>, sheet: &Sheet<'_, '_>) {
    let channels = sheet.channels;
    let wires = wires(&channels.across).saturating_add(wires(&channels.up));
    sheet.frame.begin_heading(pen, 1);
    pen.write(&[
        Part::Number(sheet.strip.size.columns),
        Part::Text(" × "),
        Part::Number(sheet.strip.size.rows),
        Part::Text(" blocks, "),
        Part::Long(sheet.strip.nets.len() as u64),
        Part::Text(" nets, "),
        Part::Long(wires as u64),
        Part::Text(" wires, fullest channel "),
        Part::Long(sheet.fullest as u64),
        Part::Text(" tracks</text>\n"),
    ]);
}

/// Writes the second heading: what is drawn, and what is not.
fn write_second_heading<K: Sink>(pen: &mut Pen<'_, K>, sheet: &Sheet<'_, '_>) {
    sheet.frame.begin_heading(pen, 2);
    match sheet.view {
        View::Nets => pen.text("nets in colours, by number"),
        View::Net(net) => write_picked(pen, sheet.strip, net),
        View::Channels(Full::Fullest) => pen.text("used tracks of each channel"),
        View::Channels(Full::Tracks(tracks)) => pen.write(&[
            Part::Text("used tracks of each channel, of "),
            Part::Number(tracks),
        ]),
    }
    let missing = match sheet.detail {
        Detail::Pins => "",
        Detail::Wires => ", without pins: there are too many",
        Detail::Nothing => ", without nets: there are too many wires",
    };
    pen.write(&[Part::Text(missing), Part::Text("</text>\n")]);
}

/// Writes the facts about the net that is drawn in front of the others.
fn write_picked<K: Sink>(pen: &mut Pen<'_, K>, strip: &RoutedStrip<'_>, number: usize) {
    let Some(net) = strip.nets.get(number) else {
        return pen.text("no such net");
    };
    pen.text("net ");
    write_beginning(pen, net.name, TOLD_LETTERS);
    let way = if net.is_global {
        ", which goes by the global network and has no wires"
    } else if strip.nodes_of(number).is_empty() {
        ", which has no wires"
    } else {
        ""
    };
    pen.text(way);
}

/// Writes everything except texts.
fn write_shapes<K: Sink>(pen: &mut Pen<'_, K>, sheet: &Sheet<'_, '_>) {
    let plan = sheet.frame.plan;
    let strip = sheet.strip;
    write_places(pen, plan);
    write_blocks(pen, plan, strip);
    match sheet.view {
        View::Nets => write_routes(pen, plan, strip, None, sheet.detail),
        View::Net(net) => {
            let nodes = strip.nodes_of(net);
            write_ends(pen, plan, nodes, NodeKind::Ipin, "t");
            write_ends(pen, plan, nodes, NodeKind::Opin, "s");
            write_end_blocks(pen, plan, strip, sheet.ends);
            write_routes(pen, plan, strip, Some(net), sheet.detail);
        }
        View::Channels(full) => write_bars(pen, plan, sheet.channels, sheet.full_at(full)),
    }
}

/// Writes the names and the numbers.
fn write_texts<K: Sink>(pen: &mut Pen<'_, K>, sheet: &Sheet<'_, '_>) {
    let frame = sheet.frame;
    let plan = frame.plan;
    frame.begin_texts(pen, "m", plan.name_font, "");
    write_cluster_names(pen, plan, sheet.strip);
    end_group(pen);
    frame.begin_texts(pen, "m", plan.pad_font, " rotate(-90)");
    write_pad_names(pen, plan, sheet.strip);
    end_group(pen);
    if let View::Channels(_) = sheet.view {
        frame.begin_texts(pen, "n", 5 * plan.lattice.channel, "");
        let channels = sheet.channels;
        pen.lend(|sink| write_numbers(sink, plan.lattice, &channels.across));
        pen.lend(|sink| write_numbers(sink, plan.lattice, &channels.up));
        end_group(pen);
    }
}

fn write_legend<K: Sink>(pen: &mut Pen<'_, K>, sheet: &Sheet<'_, '_>) {
    let frame = sheet.frame;
    frame.write_entry(pen, 0, "k", "cluster");
    frame.write_entry(pen, 1, "i", "input pad");
    frame.write_entry(pen, 2, "o", "output pad");
    match sheet.view {
        View::Nets => (),
        View::Net(_) => {
            frame.write_entry(pen, 3, "s", "driver");
            frame.write_entry(pen, 4, "t", "reader");
        }
        View::Channels(full) => write_scale(pen, frame, sheet.full_at(full)),
    }
}
