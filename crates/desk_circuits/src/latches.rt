//! Warnings of latches without a clock.

use blif::Circuit;
use line_text::{Failed, Sink};
use text_parts::{Part, write_parts};

/// Writes a warning for each latch of a circuit that has no clock, with its line and its name.
pub(crate) fn write_latch_warnings<E: Sink>(
    circuit: &Circuit,
    teller: &mut E,
) -> Result<(), Failed> {
    for latch in circuit.latches.as_slice() {
        let net = latch.output as usize;
        if latch.control.is_none() && net < circuit.nets.len() {
            write_warning(teller, latch.line, circuit.nets.name(net))?;
        }
    }
    Ok(())
}

/// Writes the warning of a latch.
fn write_warning<E: Sink>(teller: &mut E, line: u32, name: &[u8]) -> Result<(), Failed> {
    const NO_CLOCK: &str =
        " has no clock (from Verilog: a level-sensitive latch, or an always block that does not assign in every case)\n";
    write_parts(teller, &[Part::Text("warning: line "), Part::Number(line)])?;
    write_parts(teller, &[Part::Text(" of the netlist: latch ")])?;
    write_parts(teller, &[Part::Bytes(name), Part::Text(NO_CLOCK)])
}
