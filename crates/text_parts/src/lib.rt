//! Texts written in parts, without memory of their own. [`write_parts`] writes texts, bytes and
//! numbers one after another to a [`line_text::Sink`]. No whole text is built in between, so the
//! sink should be buffered. A [`Pen`] makes many writes and reports a failure of the sink once, at
//! the end. A [`Scanner`] reads such parts from the front of a line. The tools beside the service
//! write and read with them.
#![tactic(auto)]

mod parts;
mod pen;
mod scanner;

pub use parts::{Part, write_parts};
pub use pen::Pen;
pub use scanner::Scanner;
