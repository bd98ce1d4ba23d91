//! A picture of the device: who owns which wire, pin and pad, as an SVG.
//!
//! [`draw`] writes the picture of a [`device_lines::Device`] to a [`line_text::Sink`], in small
//! pieces, so the sink should have a buffer; it never holds a whole picture. Adjoining wires of one
//! owner and track are one line.
//!
//! It is proved that `draw` is safe and returns. What the picture shows is tested, and looked at.
#![tactic(auto)]

mod colours;
mod frame;
mod geometry;
mod ground;
mod legend;
mod marks;
mod picture;
mod runs;
mod strip_names;
mod view;
mod wires;

pub use picture::draw;
pub use picture_lines::DrawError;
