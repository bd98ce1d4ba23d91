//! The three files with which a routed tenancy is answered are such as a reader takes.
//!
//! `prints_are_filed`: the layout that the files print is one that files can say, and it has the
//! form of a print.
//!
//! `prints_are_accepted`: a verdict on these files, with the tenancy's own netlist, architecture
//! and strip, is that they implement the netlist, unless memory ran out.
//!
//! `no_print_is_refused`: so the tools `check` and `configure` never refuse them.
#![tactic(auto)]

mod law;

pub use law::{no_print_is_refused, prints_are_accepted, prints_are_filed};
