//! The positions of columns, rows and tracks in a picture, the lines and boxes of an SVG's paths,
//! and the sheet with the numbers and the legend beside the picture. The pictures of a device and
//! of a strip are drawn with it.
//!
//! The unit of lengths is the distance of two tracks. Columns and rows are squares side by side,
//! `pitch` long. The blocks and pads of column x are in its first `block`, and the vertical channel
//! right of them is in the rest. Row y is laid out upwards in this way, with the horizontal channel
//! above its blocks.
//!
//! It is proved that all of it is safe, how large positions are at most, and that a name is written
//! with no byte that XML takes for markup ([`write_escaped`]).
#![tactic(auto)]

mod draw_error;
mod escape;
mod lattice;
mod paths;
mod sheet;

pub use draw_error::DrawError;
pub use escape::write_escaped;
pub use lattice::{Direction, Lattice};
pub use paths::{write_box, write_line};
pub use sheet::{Sheet, begin_group, end_group, write_numbers, write_rows, write_swatch};
