//! What a netlist's lines say of its tables and latches beside their nets: the rows of a table, and
//! the type and the initial value of a latch.
//!
//! `value_of` of `specs/TableBits.antt` is a table's value by its rows, and `bits_of` are its bits,
//! one for each number that the values of its inputs make. `rows_at` of `specs/CellLines.antt` are
//! the rows after a `.names` line. `bits_are_rows`: each bit is what the rows say of the inputs'
//! values, by name.
#![tactic(auto)]

mod laws;

pub use laws::bits_are_rows;
