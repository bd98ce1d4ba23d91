//! The longest path through the tables of a circuit.
//!
//! A path begins at an input or at the output of a latch, goes through tables, and ends at an
//! output or at the input of a latch. Its length is the number of its tables. [`longest_path`]
//! returns a path with the most tables, or that the tables form a loop; [`find_loop`] returns such
//! a loop. `Paths` in `specs/` says what a path and a loop are.
//!
//! Each pass over the tables raises the nets that a table can reach by a longer way. A pass that
//! raises nothing ends the search. If each table comes after those that it reads from, the second
//! pass is that one; in any order of `n` tables there are at most as many passes as nets.
#![tactic(auto)]

mod lasting;
mod longest;
mod loops;
mod pass;
mod reach;
mod settle;
mod trace;

pub use longest::{Longest, LongestPath, longest_path};
pub use loops::find_loop;
