//! The longest path of a netlist, in a line.
ghost use Rattle.desk_circuits.specs.Prelude.{IsCircuit, Writes, IsLoop};
ghost use Rattle.desk_circuits.specs.Json.{end_name, has_output, latch_storing};
ghost use Rattle.desk_circuits.specs.Measured.{AreWiresOf, IsMeasured};
ghost use Rattle.desk_circuits.specs.PathLines.{measured_line, path_in, path_tables};
ghost use Rattle.desk_circuits.specs.Strips.{files_of_texts};
ghost use Rattle.std.specs.Prelude.{◌≡◌, IfSome, option_map};

use crate::loop_line::write_known_loop;
use crate::path_line::write_path_line;
use crate::warnings::ANY_TABLE;
use crate::wires::{name_of, wires_of};
use blif::{Circuit, Latch, read_blif};
use line_text::{Failed, Sink};
use longest_path::{Longest, LongestPath, find_loop, longest_path};
use std::alloc::Global;
use strip_files::StripTexts;
use text_parts::{Part, write_parts};

/// A netlist's circuit and its longest path.
pub struct MeasuredCircuit {
    pub(crate) circuit: Circuit,
    pub(crate) longest: Longest,
    /// The tables of a loop, the last one first, if some tables form one.
    pub(crate) looped: Option<Vec<usize>>,
    /// The wires of that path, if they are known.
    pub(crate) wires: Option<u64>,
}

impl Drop for MeasuredCircuit {
    fn drop(self) {
        let MeasuredCircuit {
            circuit,
            longest,
            looped,
            wires: _,
        } = self;
        drop(circuit);
        drop(longest);
        drop(looped);
    }
}

/// The longest path of a netlist, with its wires if the netlist's files are given. `None` if the
/// netlist has a fault or memory runs out.
pub fn measure(
    alloc: Global,
    netlist: &[u8],
    files: Option<StripTexts<'_>>,
) -> Option<MeasuredCircuit>
    ensures { IfSome result (IsMeasured netlist.now (option_map files_of_texts files.entry)) }
{
    let Ok(circuit) = read_blif(alloc, netlist, ANY_TABLE) else {
        return None;
    };
    match longest_path(alloc, &circuit) {
        Ok(longest) => {
            let wires = wires_with(alloc, &circuit, &longest, files);
            let looped = loop_with(alloc, &circuit, &longest);
            Some(MeasuredCircuit {
                circuit,
                longest,
                looped,
                wires,
            })
        }
        Err(_) => None,
    }
}

/// The wires of the longest path, if there is one and the files are given.
fn wires_with(
    alloc: Global,
    circuit: &Circuit,
    longest: &Longest,
    files: Option<StripTexts<'_>>,
) -> Option<u64>
    ensures { IfSome result (AreWiresOf (option_map files_of_texts files.entry) circuit.now
        longest.now) }
{
    match (longest, files) {
        (Longest::Path(path), Some(texts)) => wires_of(alloc, circuit, path, texts),
        _ => None,
    }
}

/// The tables of a loop, if the circuit has no longest path because some tables form one.
fn loop_with(alloc: Global, circuit: &Circuit, longest: &Longest) -> Option<Vec<usize>>
    requires { IsCircuit circuit.now }
    ensures { IfSome result (λ tables. IsLoop circuit.now.tables tables.items) }
{
    match longest {
        Longest::Loop => match find_loop(alloc, circuit) {
            Ok(found) => found,
            Err(_) => None,
        },
        Longest::Path(_) | Longest::NoPath => None,
    }
}

impl MeasuredCircuit {
    /// The number of tables of the longest path.
    pub(crate) fn tables(&self) -> Option<u64>
        ensures { result ≡ path_tables self.now }
    {
        match self.path() {
            Some(path) => Some(path.tables.len() as u64),
            None => None,
        }
    }

    /// The circuit.
    pub(crate) fn circuit(&self) -> &Circuit
        ensures { result.now ≡ self.now.circuit }
    {
        &self.circuit
    }

    /// The longest path, if there is one.
    pub(crate) fn path(&self) -> Option<&LongestPath>
        ensures { option_map (λ path. path.now) result ≡ path_in self.now.longest }
    {
        match &self.longest {
            Longest::Path(path) => Some(path),
            Longest::NoPath | Longest::Loop => None,
        }
    }

    /// The number of wires of the longest path, if it is known.
    pub(crate) fn wires(&self) -> Option<u64>
        ensures { result ≡ self.now.wires }
    {
        self.wires
    }

    /// Writes the line of the longest path: the numbers of its tables and wires, and the names of
    /// its ends.
    pub fn write_line<W: Sink>(&self, writer: &mut W) -> Result<(), Failed>
        ensures { Writes W.contents W.has_failed writer.old writer.new (measured_line self.now)
            result }
    {
        match &self.longest {
            Longest::Path(path) => write_path_line(&self.circuit, path, self.wires, writer),
            Longest::NoPath => write_parts(writer, &[Part::Text("longest path none\n")]),
            Longest::Loop => write_known_loop(&self.circuit, &self.looped, writer),
        }
    }
}

/// The name of the end of a path: of the output, or of the first latch that reads the net.
pub(crate) fn end_name(circuit: &Circuit, net: u32) -> &[u8]
    ensures { result.now ≡ end_name circuit.now net }
{
    if has_output(circuit, net) {
        return name_of(circuit, net);
    }
    match latch_storing(circuit, net) {
        Some(latch) => name_of(circuit, latch.output),
        None => name_of(circuit, net),
    }
}

/// Returns whether a net is an output.
fn has_output(circuit: &Circuit, net: u32) -> bool
    ensures { result ≡ has_output circuit.now net }
{
    circuit
        .outputs
        .as_slice()
        .iter()
        .any(|output| *output == net)
}

/// The first latch that reads a net.
fn latch_storing(circuit: &Circuit, net: u32) -> Option<Latch>
    ensures { result ≡ latch_storing circuit.now net }
{
    match circuit
        .latches
        .as_slice()
        .iter()
        .find(|latch| latch.input == net)
    {
        Some(latch) => Some(*latch),
        None => None,
    }
}
