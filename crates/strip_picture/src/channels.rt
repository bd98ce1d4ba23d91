//! How many tracks of each channel are used.
ghost use Rattle.std.specs.Prelude.{◌≡◌, ◌≤◌, ◌<◌, ◌++◌, ◌∷◌, ◌*◌, ◌/◌, ◌%◌, ◌^◌, ◌==◌, [], List, bit_and, bit_or, count_by, length, slice_index, slice_set as set, IfOk, MatchOption};
ghost use Rattle.std.specs.List.{range_with_len};
ghost use Rattle.arch_file.specs.declared.arch.TheConstants.{MAX_TRACKS};
ghost use Rattle.grid.specs.declared.TheConstants.{MAX_COLUMNS, MAX_ROWS};
ghost use Rattle.strip_files.specs.declared.route_node.RouteNode.{RouteNode};
ghost use Rattle.strip_picture.specs.Channels.{HasTracks, IsNoWire, IsWireOf, across_uses, channel_number, tracks_in, up_uses, use_of};

use arch_file::MAX_TRACKS;
use grid::MAX_ROWS;
use picture_lines::Direction;
use rr_graph::{Node, NodeKind};
use std::alloc::{AllocError, Global};
use strip_files::{RouteNode, RoutedStrip, StripSize};

/// The number of channels of the largest strip: two for each column, from 0 to 256, and each row,
/// from 0 to 64.
const CHANNELS: usize = 33_410;

/// The number of used tracks of a channel. A channel is above a row in one column, or right of a
/// column in one row.
#[derive(Clone, Copy, PartialEq, Eq)]
pub struct ChannelTracks {
    pub direction: Direction,
    pub x: u32,
    pub y: u32,
    pub tracks: usize,
}

/// The channels of a strip, column by column.
#[derive(Drop)]
pub struct Channels {
    /// Those above rows, from row 0.
    pub across: Vec<ChannelTracks>,
    /// Those right of columns, from column 0.
    pub up: Vec<ChannelTracks>,
}

/// Returns how many tracks of each channel of a strip the routes of its nets use. A track that is
/// used twice, by one net or by two, counts once. Fails with [`AllocError`] if memory runs out.
pub fn channels_of(alloc: Global, strip: &RoutedStrip<'_>) -> Result<Channels, AllocError>
    ensures across { IfOk result (λ channels.
        channels.across.items ≡ across_uses strip.now.size strip.now.nodes.items) }
    ensures up { IfOk result (λ channels.
        channels.up.items ≡ up_uses strip.now.size strip.now.nodes.items) }
{
    let used = used_tracks(alloc, &strip.nodes)?;
    let across = across_channels(alloc, strip.size, &used)?;
    let up = up_channels(alloc, strip.size, &used)?;
    Ok(Channels { across, up })
}

/// The used tracks of each channel: one bit for each track.
fn used_tracks(alloc: Global, nodes: &[RouteNode]) -> Result<Vec<u64>, AllocError>
    ensures { IfOk result (λ used. HasTracks nodes.now used.items) }
{
    let mut used = no_tracks(alloc, CHANNELS)?;
    for read in nodes {
        used = mark_track(used, *read);
    }
    Ok(used)
}

/// No used tracks, for `channels` channels.
fn no_tracks(alloc: Global, channels: usize) -> Result<Vec<u64>, AllocError>
    requires { channels ≡ CHANNELS }
    ensures { IfOk result (λ used. HasTracks [] used.items) }
{
    Vec::from_elem(alloc, 0, channels)
}

/// The used tracks with that of one more node, if it is a wire.
fn mark_track(used: Vec<u64>, read: RouteNode) -> Vec<u64>
    requires { length used.items ≡ CHANNELS }
    ensures { (nodes : List RouteNode) → HasTracks nodes used.items →
        HasTracks (nodes ++ read ∷ []) result.items }
{
    match channel_of(read) {
        Some(number) => with_track(used, number, read.node.n),
        None => used,
    }
}

/// The used tracks with one more in the channel of that number.
fn with_track(mut used: Vec<u64>, number: usize, track: u32) -> Vec<u64>
    requires channel { number < length used.items }
    requires track { track < MAX_TRACKS }
    ensures { result.items ≡ set used.items number
        (bit_or (slice_index used.items number) (1 * 2 ^ track % 2 ^ 64)) }
{
    used[number] |= 1 << track;
    used
}

/// The number of the channel to which a wire belongs; `None` if the node isn't one.
fn channel_of(read: RouteNode) -> Option<usize>
    ensures { MatchOption result (IsNoWire read) (IsWireOf read) }
{
    let Node { x, kind, y, n } = read.node;
    if y > MAX_ROWS || n >= MAX_TRACKS {
        return None;
    }
    match kind {
        NodeKind::ChanX => Some(channel_number(Direction::Across, x, y)),
        NodeKind::ChanY => Some(channel_number(Direction::Up, x, y)),
        _ => None,
    }
}

/// The number of a channel among all channels of the largest strip.
fn channel_number(direction: Direction, x: u32, y: u32) -> usize
    requires column { x ≤ MAX_COLUMNS }
    requires row { y ≤ MAX_ROWS }
    ensures { result ≡ channel_number direction x y }
{
    let cell = 2 * (65 * x as usize + y as usize);
    match direction {
        Direction::Across => cell,
        Direction::Up => cell + 1,
    }
}

/// The number of used tracks of a channel.
fn tracks_in(used: &[u64], direction: Direction, x: u32, y: u32) -> usize
    requires used { length used.now ≡ CHANNELS }
    requires column { x ≤ MAX_COLUMNS }
    requires row { y ≤ MAX_ROWS }
    ensures { (nodes : List RouteNode) → HasTracks nodes used.now →
        result ≡ tracks_in direction x y nodes }
{
    bits_set(used[channel_number(direction, x, y)], MAX_TRACKS)
}

/// A channel with the number of its used tracks.
fn use_of(used: &[u64], direction: Direction, x: u32, y: u32) -> ChannelTracks
    requires used { length used.now ≡ CHANNELS }
    requires column { x ≤ MAX_COLUMNS }
    requires row { y ≤ MAX_ROWS }
    ensures { (nodes : List RouteNode) → HasTracks nodes used.now →
        result ≡ use_of nodes direction x y }
{
    let tracks = tracks_in(used, direction, x, y);
    ChannelTracks {
        direction,
        x,
        y,
        tracks,
    }
}

/// How many of the first `count` bits are set.
fn bits_set(bits: u64, count: u32) -> usize
    requires { count ≤ MAX_TRACKS }
    ensures { result ≡ count_by (λ track. bit_and (bits / 2 ^ track) 1 == 1)
        (range_with_len 0 count) }
{
    (0..count).filter(|track| bits >> *track & 1 == 1).count()
}

/// The channels above rows.
fn across_channels(
    alloc: Global,
    size: StripSize,
    used: &[u64],
) -> Result<Vec<ChannelTracks>, AllocError>
    requires { length used.now ≡ CHANNELS }
    ensures { IfOk result (λ channels. (nodes : List RouteNode) → HasTracks nodes used.now →
        channels.items ≡ across_uses size nodes) }
{
    let rows = size.rows + 1;
    let mut channels = Vec::new(alloc);
    for number in 0..size.columns * rows {
        let channel = use_of(used, Direction::Across, number / rows + 1, number % rows);
        channels.push(channel)?;
    }
    Ok(channels)
}

/// The channels right of columns.
fn up_channels(
    alloc: Global,
    size: StripSize,
    used: &[u64],
) -> Result<Vec<ChannelTracks>, AllocError>
    requires { length used.now ≡ CHANNELS }
    ensures { IfOk result (λ channels. (nodes : List RouteNode) → HasTracks nodes used.now →
        channels.items ≡ up_uses size nodes) }
{
    let rows = size.rows;
    let mut channels = Vec::new(alloc);
    for number in 0..(size.columns + 1) * rows {
        let channel = use_of(used, Direction::Up, number / rows, number % rows + 1);
        channels.push(channel)?;
    }
    Ok(channels)
}
