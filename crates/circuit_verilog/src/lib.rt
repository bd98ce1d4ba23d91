//! What a configured device computes, as Verilog.
//!
//! [`verilog_text`] returns a module with the circuit's inputs and outputs: a table for each BLE,
//! with the bits that the device is loaded with, and its latch. Names of the netlist are escaped
//! identifiers. A table is an instance of a module that chooses among its bits input by input, so
//! that an unknown input gives an unknown output only if the output depends on it. `verilog_of` of
//! `specs/Verilog.antt` is the text.
#![tactic(auto)]

mod ble;
mod latch;
mod module;
mod parts;
mod ports;
mod table;

pub use module::verilog_text;
