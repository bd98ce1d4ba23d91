//! Lists of lists of numbers, in two flat vectors.
//!
//! [`Rows`] are lists of numbers, one after another in one vector; a second vector keeps where each
//! begins and ends. No list has memory of its own. They are built row by row, or from items with
//! keys by a counting sort ([`Rows::by_key`]). Their value is the list of the rows. A [`Span`] is a
//! part of such a vector, for callers who keep more data with each row.
#![tactic(auto)]

mod by_key;
mod rows;
mod span;

pub use by_key::Keyed;
pub use rows::Rows;
pub use span::Span;
