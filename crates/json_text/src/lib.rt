//! JSON (RFC 8259) for programs that read what the tools count: numbers, names, lists and objects.
//!
//! A [`JsonPen`] takes the tokens of a value one after another and gives its text, a line for each
//! item and each member. `json_text` of `specs/Values.antt` is the text of a value. Whoever writes
//! a value says so by its tokens: `out.new ≡ out.old ++ json_tokens value`.
#![tactic(auto)]

mod pen;

pub use pen::{JsonPen, Member, Scalar};
