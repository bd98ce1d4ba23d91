//! The layout of a circuit, read from its three files, whoever wrote them.
//!
//! [`read_layout`] reads a `.net`, a `.place` and a `.route` file. It accepts exactly what the
//! service writes of some layout, byte by byte, and returns that layout. Otherwise it returns the
//! first faulty line, and its file.
//!
//! It reads in two steps. The first finds the layout: a `Cursor` takes what is expected off the
//! front of what is left of a text, and notes where the text first differs. The second prints this
//! layout, and the files must be just this print. Where a text is the print of a part of a layout,
//! the first step reads this part (`specs/Reading.antt` and its kin); so it is proved of the result
//! (`IsReadingOf` of `specs/LayoutFiles.antt`) that the files are the print of the layout, and that
//! files are refused only if they are the print of none.
#![tactic(auto)]

mod block_lines;
mod cursor;
mod fault;
mod finder;
mod form;
mod front;
mod laid_names;
mod names;
mod net_lines;
mod net_print;
mod node_lines;
mod node_words;
mod place_lines;
mod place_print;
mod reader;
mod route_lines;
mod route_print;

pub use fault::LayoutFault;
pub use reader::read_layout;
