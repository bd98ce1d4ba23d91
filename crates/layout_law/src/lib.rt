//! What is configured for a tenancy is what was uploaded, whatever its events were.
//!
//! `texts_are_lawful`: each circuit that a text gives is lawful.
//!
//! `routed_implements`: in the state Routed, the packing, the places and the routes that a
//! tenancy's own events have led to implement the circuit of its text (`Implements`), and so
//! connect it. The three files with which the tenancy is answered there are the printing of a
//! layout that implements this circuit. Places that were kept from an earlier text are part of
//! this.
#![tactic(auto)]

mod law;

pub use law::{routed_implements, texts_are_lawful};
