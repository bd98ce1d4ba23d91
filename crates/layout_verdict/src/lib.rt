//! The verdict on a layout: whether the three files of a layout, whoever wrote them, implement a
//! netlist.
//!
//! [`verdict_of`] reads the architecture, the netlist and the three files, and checks the layout
//! that they describe. [`Verdict::Implements`] has the circuit and the layout that were read, and
//! it is proved that this layout implements this circuit. Otherwise the verdict is what is wrong:
//! the fault of a text, or the first thing in the layout that is not as the netlist says.
#![tactic(auto)]

mod laid_circuit;
mod shape;
mod texts;
mod verdict;

pub use laid_circuit::LaidCircuit;
pub use shape::StripShape;
pub use texts::LayoutTexts;
pub use verdict::{Verdict, verdict_of};
