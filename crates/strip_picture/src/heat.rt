//! The channels by use: a bar in each, in a colour that shows how full it is, with the number of
//! its used tracks.
ghost use Rattle.std.specs.Prelude.{◌≡◌, ◌≤◌};
ghost use Rattle.std.specs.List.{flat_map};
ghost use Rattle.line_text.specs.Writing.{Writes};
ghost use Rattle.strip_picture.specs.Numbers.{goes_across, goes_up, middle, number_text, text_at};

use crate::channels::{ChannelTracks, Channels};
use crate::frame::Frame;
use crate::plan::Plan;
use line_text::{Failed, Sink};
use picture_lines::{Direction, Lattice, write_box};
use text_parts::{Part, Pen, write_parts};

/// The number of colours of bars, without that of an unused channel.
const LEVELS: usize = 8;

/// The classes of bars, by level.
const CLASSES: [&str; 5] = ["h h0", "h h2", "h h4", "h h6", "h h8"];

/// Writes the scale of the bars into the legend: for each second level its colour, and the largest
/// number of used tracks that it stands for, if a channel is full with `full` of them. A number is
/// written once.
pub(crate) fn write_scale<K: Sink>(pen: &mut Pen<'_, K>, frame: Frame, full: usize) {
    for (step, class) in CLASSES.iter().enumerate() {
        let step = step.min(4);
        let tracks = full.saturating_mul(step) / 4;
        let before = full.saturating_mul(step.saturating_sub(1)) / 4;
        if step == 0 || tracks > before {
            frame.begin_mark(pen, 28 + 4 * step as u32, class);
            let word = if step == 4 { " tracks" } else { "" };
            pen.write(&[
                Part::Long(tracks as u64),
                Part::Text(word),
                Part::Text("</text></g>\n"),
            ]);
        }
    }
}

/// Writes the bars of all channels, the emptier ones first. A channel with `fullest` used tracks
/// has the darkest colour.
pub(crate) fn write_bars<K: Sink>(
    pen: &mut Pen<'_, K>,
    plan: Plan,
    channels: &Channels,
    fullest: usize,
) {
    for level in 0..=LEVELS {
        pen.write(&[
            Part::Text("<path class=\"h h"),
            Part::Number(level as u32),
            Part::Text("\" d=\""),
        ]);
        write_level(pen, plan, &channels.across, fullest, level);
        write_level(pen, plan, &channels.up, fullest, level);
        pen.text("\"/>\n");
    }
}

/// Writes the bars of a level.
fn write_level<K: Sink>(
    pen: &mut Pen<'_, K>,
    plan: Plan,
    channels: &[ChannelTracks],
    fullest: usize,
    level: usize,
) {
    for channel in channels {
        if level_of(channel.tracks, fullest) == level {
            write_bar(pen, plan, *channel);
        }
    }
}

/// The level of a channel with that number of used tracks: 0 if no track is used, the highest if as
/// many are used as in the fullest channel.
fn level_of(tracks: usize, fullest: usize) -> usize {
    tracks
        .saturating_mul(LEVELS)
        .div_ceil(fullest.max(1))
        .min(LEVELS)
}

fn write_bar<K: Sink>(pen: &mut Pen<'_, K>, plan: Plan, channel: ChannelTracks) {
    let lattice = plan.lattice;
    let x = lattice.start(channel.x.min(256));
    let y = lattice.start(channel.y.min(256));
    let width = lattice.channel.saturating_sub(2);
    match channel.direction {
        Direction::Across => write_box(pen, x, y + lattice.block + 1, lattice.block, width),
        Direction::Up => write_box(pen, x + lattice.block + 1, y, width, lattice.block),
    }
}

/// Writes the numbers of all channels, as texts of a group in which heights count downwards from
/// row 0.
pub(crate) fn write_numbers<K: Sink>(
    sink: &mut K,
    lattice: Lattice,
    channels: &[ChannelTracks],
) -> Result<(), Failed>
    ensures { Writes K.contents K.has_failed sink.old sink.new
        (flat_map (number_text lattice) channels.now) result }
{
    for channel in channels {
        write_number(sink, lattice, *channel)?;
    }
    Ok(())
}

/// Writes the number of a channel's used tracks, in its middle. If the sink fails, it has taken a
/// first part of the text.
pub fn write_number<K: Sink>(
    sink: &mut K,
    lattice: Lattice,
    channel: ChannelTracks,
) -> Result<(), Failed>
    ensures { Writes K.contents K.has_failed sink.old sink.new (number_text lattice channel)
        result }
{
    let x = middle(lattice, channel.x, goes_up(channel.direction));
    let y = middle(lattice, channel.y, goes_across(channel.direction));
    write_at(sink, x, y, channel.tracks as u64)
}

/// Writes a number at a point.
fn write_at<K: Sink>(sink: &mut K, x: u64, y: u64, number: u64) -> Result<(), Failed>
    ensures { Writes K.contents K.has_failed sink.old sink.new (text_at x y number) result }
{
    write_parts(
        sink,
        &[
            Part::Text("<text x=\""),
            Part::Long(x),
            Part::Text("\" y=\"-"),
            Part::Long(y),
            Part::Text("\" dy=\".35em\">"),
            Part::Long(number),
            Part::Text("</text>\n"),
        ],
    )
}

/// The middle of a column or row, or of the channel after it.
fn middle(lattice: Lattice, number: u32, behind: bool) -> u64
    ensures { result ≡ middle lattice number behind }
{
    let start = u64::from(number) * u64::from(lattice.block + lattice.channel);
    if behind {
        start + u64::from(lattice.block + lattice.channel / 2)
    } else {
        start + u64::from(lattice.block / 2)
    }
}

/// Returns whether a channel is vertical.
fn goes_up(direction: Direction) -> bool
    ensures { result ≡ goes_up direction }
{
    match direction {
        Direction::Up => true,
        Direction::Across => false,
    }
}

/// Returns whether a channel is horizontal.
fn goes_across(direction: Direction) -> bool
    ensures { result ≡ goes_across direction }
{
    match direction {
        Direction::Up => false,
        Direction::Across => true,
    }
}
