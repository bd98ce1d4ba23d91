//! Warnings of what is lawful in a netlist, and is likely to be a mistake.
ghost use Rattle.desk_circuits.specs.Prelude.{IsCircuit};

use crate::latches::write_latch_warnings;
use blif::{Circuit, read_blif};
use line_text::{Failed, Sink, is_blank};
use std::alloc::Global;
use text_parts::{Part, write_parts};
use unread_tables::unread_tables;

/// A number of inputs that no table of a netlist has.
pub(crate) const ANY_TABLE: u32 = 1_000_000;

/// The name that a `.net` file has for a pin without a net.
const NO_NET: &[u8] = b"open";

/// Writes warnings of a netlist: that it is empty; each latch without a clock, with its line; a
/// net with the name of a pin without a net; and how many tables drive nothing that is read. A
/// netlist with a fault has no other warnings: it is refused. A warning that can't be written is
/// skipped.
pub fn warn_of_netlist<E: Sink>(alloc: Global, netlist: &[u8], teller: &mut E) {
    if is_empty(netlist) {
        let words = "warning: the netlist is empty: check whether synthesis succeeded\n";
        let _ = write_parts(teller, &[Part::Text(words)]);
        return;
    }
    if let Ok(circuit) = read_blif(alloc, netlist, ANY_TABLE) {
        let _ = write_warnings(alloc, &circuit, teller);
    }
}

/// Returns whether a text has no words.
fn is_empty(text: &[u8]) -> bool {
    text.iter()
        .all(|byte| is_blank(*byte) || *byte == b'\n' || *byte == b'\r')
}

/// Writes the warnings of a circuit.
fn write_warnings<E: Sink>(alloc: Global, circuit: &Circuit, teller: &mut E) -> Result<(), Failed>
    requires { IsCircuit circuit.now }
{
    write_latch_warnings(circuit, teller)?;
    write_open_warning(circuit, teller)?;
    match unread_tables(alloc, circuit) {
        Ok(count) => write_unread_warning(count as u64, teller),
        Err(_) => Ok(()),
    }
}

/// Writes a warning if a net has the name of a pin without a net.
fn write_open_warning<E: Sink>(circuit: &Circuit, teller: &mut E) -> Result<(), Failed> {
    for net in 0..circuit.nets.len() {
        if circuit.nets.name(net) == NO_NET {
            let words =
                "warning: a net is called `open`, as a .net file calls a pin without a net, so `check` and `configure` refuse the netlist: rename it\n";
            return write_parts(teller, &[Part::Text(words)]);
        }
    }
    Ok(())
}

/// Writes a warning of that many tables that drive nothing that is read.
fn write_unread_warning<E: Sink>(count: u64, teller: &mut E) -> Result<(), Failed> {
    const RECIPE: &str = " (opt_clean -purge; write_blif -noalias)\n";
    match count {
        0 => Ok(()),
        1 => {
            let words = "warning: 1 table drives nothing that is read, and takes a BLE";
            write_parts(teller, &[Part::Text(words), Part::Text(RECIPE)])
        }
        _ => {
            let words = " tables drive nothing that is read, and take ";
            write_parts(teller, &[Part::Text("warning: "), Part::Long(count)])?;
            write_parts(teller, &[Part::Text(words), Part::Long(count)])?;
            write_parts(teller, &[Part::Text(" BLEs"), Part::Text(RECIPE)])
        }
    }
}
