//! Netlists in the Berkeley Logic Interchange Format (BLIF), read as circuits of lookup tables and
//! latches.
//!
//! `read_blif` reads a text whose lines are `.model`, `.inputs`, `.outputs`, `.clock`, `.names`
//! with the rows of its cover, `.latch` and `.end`. Lines of delays, areas and loads are skipped;
//! of a cover only the form is checked. Nets are numbered from 0 in the order in which `.inputs`,
//! `.outputs`, `.clock`, `.names` and `.latch` lines first name them.
//!
//! A text has its circuit or its least fault. Its length is checked first, then the splitting into
//! lines, then the lines. The fault is that of the first line that has any, of that line the one
//! with the least number, and of one number that of the first word. Faults that only the end shows
//! come last: that there is no line at all, or the first word that reads a net that nothing drives.
//!
//! The circuit or the fault is `circuit_of` of `specs/CircuitOf.antt`, which speaks of the nets
//! that all lines above name, drive and output, and lists every fault. The code reads the lines
//! twice: `checker` finds the first fault and numbers the nets, `parts` builds the circuit.
//!
//! Each circuit of a text satisfies `IsCircuit` of `specs/LawfulCircuits.antt`. [`SharedCircuit`]
//! is a circuit with many owners.
#![tactic(auto)]

mod checker;
mod circuit;
mod cover;
mod driven;
mod fault;
mod keyword;
mod latch_line;
mod latches;
mod names;
mod net_names;
mod nets;
mod parts;
mod reader;
mod shared;
mod span;
mod tables;

pub use circuit::{Circuit, MAX_NETS};
pub use fault::{BlifError, BlifFault, BlifFaultKind};
pub use latches::{Latch, Latches};
pub use net_names::NetNames;
pub use nets::Nets;
pub use reader::read_blif;
pub use shared::SharedCircuit;
pub use tables::{Table, Tables};
