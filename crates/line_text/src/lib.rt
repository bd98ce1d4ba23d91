//! Text as joined lines of words, numbers in decimal digits, numbered names, and the devices that
//! bytes are read from and written to.
//!
//! A physical line ends at LF or at the end of the text. Everything from its first `#` on is cut,
//! and then the blanks at its end: spaces, tabs and CRs. If it then ends in `\`, that becomes a
//! blank and the next physical line is joined to it. A joined line has the number of its first
//! physical line, from 1; its words are separated by blanks. [`logical_lines`] returns the joined
//! lines that have words, as slices of the text, or the least fault: outside comments a byte that
//! is neither a blank nor a printing ASCII character, or a joined line of more than [`MAX_LINE`]
//! bytes. Netlists in BLIF and architecture files are read with it.
//!
//! A reader of a text that has no value to return answers with a [`TextError`]: memory ran out, or
//! the least of all faults of the text, ordered by line, number and word; faults of the end come
//! last (`specs/LeastFault.antt`).
//!
//! A [`NameSet`] numbers different names in the order in which they first appear.
//!
//! Bytes are read from a [`Source`] and written to a [`Sink`]. Both return [`Failed`] from their
//! first failure on. [`write_slices`] writes a text that is given in parts: the sink takes all of
//! it, or a beginning of it if it fails (`specs/Writing.antt`).
#![tactic(auto)]

mod decimal;
mod fault;
mod line;
mod lines;
mod memory_sink;
mod memory_source;
mod name_set;
mod physical_line;
mod reader;
mod sink;
mod source;
mod std_sink;
mod std_source;
mod text;
mod text_error;
mod words;
mod writing;

pub use decimal::{decimal_u32, decimal_u64, millionths, whole_number};
pub use fault::{LineError, LineFault};
pub use line::Line;
pub use lines::{Lines, MAX_LINE, MAX_TEXT, logical_lines};
pub use memory_sink::MemorySink;
pub use memory_source::MemorySource;
pub use name_set::NameSet;
pub use physical_line::split_line;
pub use sink::{Sink, write_all};
pub use source::{Failed, ReadError, Source, read_all};
pub use std_sink::StdSink;
pub use std_source::StdSource;
pub use text::Text;
pub use text_error::TextError;
pub use words::{append_words, is_blank, is_word, skip_blanks, split_word, word_end, word_start};
pub use writing::write_slices;
