//! What is wrong with a layout, in words: with the file, the line and the names.
//!
//! [`write_wrong`] writes one line of text. A line of a file is counted from 1; what is missing in
//! a file has no line. It is proved that this is safe and returns; which words are written is only
//! tested.
#![tactic(auto)]

mod block_words;
mod element;
mod entry_words;
mod held_words;
mod lines;
mod listed;
mod named;
mod path_words;
mod port_words;
mod subject;
mod wrong_words;

pub use subject::Subject;
pub use wrong_words::write_wrong;
