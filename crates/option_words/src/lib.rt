//! The options of a program, declared in a table and read from the program's words.
//!
//! - A `Program` has its help texts and its options, each an `OptionWord`: `--name VALUE`,
//!   `--name`, or a word alone.
//! - `read_words` reads a program's words, and `Given` returns the options' values by name.
//! - `refusal` refuses words for a reason that only the program knows.
//! - A `Toolbox` is a program of several tools: `read_call` reads which tool the first word calls
//!   and the values that the other words give to its options; `call_refusal` refuses such words.
#![tactic(auto)]

mod calls;
mod declared;
mod given;
mod reading;

pub use calls::{Call, call_refusal, read_call};
pub use declared::{OptionWord, Program, Takes, Toolbox};
pub use given::Given;
pub use reading::{read_words, refusal};
