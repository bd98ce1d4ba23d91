//! The tool that checks a layout against its netlist.
ghost use Rattle.std.specs.Prelude.{IfErr, IfOk, codes};
ghost use Rattle.desk_layouts.specs.Prelude.{LaidCircuit, TakesAll};
ghost use Rattle.desk_layouts.specs.Checked.{IsChecked, IsLaidIn};
ghost use Rattle.desk_layouts.specs.Refused.{IsFailure, IsRefusal};

use crate::given_files::GivenFiles;
use crate::laid_circuit::circuit_in;
use crate::layout_input::{LAYOUT_OPTIONS, LayoutPaths};
use desk_common::{FileTexts, Outcome};
use line_text::{Sink, write_all};
use option_words::Program;
use std::alloc::Global;

/// The tool and its options.
pub const TOOL: Program = Program {
    name: "check",
    about: "Says whether a .net, a .place and a .route file, whoever wrote them, implement a netlist",
    after_help: "\
Prints `implements` if each table and each latch of the netlist is in exactly one BLE, and each input, clock and output pad gets its
net from the block that drives it: over wires, in a tree that shares no wire and no pin with another net, or over the global network
if the net controls a latch. Each port has its pad, and each block a place of its own. Otherwise standard error names the first thing
that is wrong, with the file and the line, and the status is 1. The three files must have the form in which the service writes them,
byte by byte. It says nothing about the bits of tables: they are not in the files.

Example: fpgad_desk check --arch my.arch --tracks 8 t.blif t.net t.place t.route",
    options: LAYOUT_OPTIONS,
};

/// Checks a layout against its netlist, and prints `implements` if it implements the netlist.
pub fn run<F: FileTexts + AllocGlobal, W: Sink, E: Sink>(
    files: &F,
    paths: LayoutPaths<'_>,
    writer: &mut W,
    teller: &mut E,
) -> Result<(), Outcome>
    ensures checked { IfOk result (λ _. IsChecked (F.text files.now) paths.entry) }
    ensures printed { IfOk result (λ _. TakesAll W.contents W.has_failed writer.old writer.new
        (codes "implements\n")) }
    ensures failed { IfErr result (IsFailure (F.fails files.now) ⊥ (F.text files.now)
        (W.has_failed writer.new) paths.entry) }
{
    let given = GivenFiles::read(files, paths, teller)?;
    let checked = check(files.alloc(), paths, &given, teller);
    drop(given);
    checked?;
    match write_all(writer, b"implements\n") {
        Ok(()) => Ok(()),
        Err(_) => Err(Outcome::OutputFailed),
    }
}

/// Checks the layout whose files have these bytes.
fn check<E: Sink>(
    alloc: Global,
    paths: LayoutPaths<'_>,
    given: &GivenFiles,
    teller: &mut E,
) -> Result<(), Outcome>
    ensures laid { IfOk result (λ _. (laid : LaidCircuit) × IsLaidIn paths.entry given.now laid) }
    ensures refused { IfErr result (IsRefusal paths.entry given.now) }
{
    let laid = circuit_in(alloc, paths, given, teller)?;
    drop(laid);
    Ok(())
}
