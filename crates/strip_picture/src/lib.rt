//! A picture of one tenancy's strip, as an SVG: its blocks with their names, its pads, and its
//! nets.
//!
//! [`draw`] writes it to a [`line_text::Sink`], in small pieces, so the sink should have a buffer.
//! A [`View`] says how the nets are drawn: each in a colour, one of them in front of the others, or
//! as the number of used tracks of each channel. Row 1 is the lowest.
//!
//! It is proved that it is safe and returns; that the number for a channel is the number of its
//! distinct tracks among the nodes of all routes, and that exactly this number is written into the
//! channel; and that a name is written without anything that has a meaning in XML. What else the
//! picture shows is tested, and looked at.
#![tactic(auto)]

mod blocks;
mod channels;
mod frame;
mod heat;
mod names;
mod picture;
mod pieces;
mod plan;
mod routes;

pub use channels::{ChannelTracks, Channels, channels_of};
pub use heat::write_number;
pub use picture::{Full, View, draw, draw_with_ends};
pub use picture_lines::DrawError;
