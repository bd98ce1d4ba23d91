//! The verdict.
ghost use Rattle.std.specs.Prelude.{◌≡◌, IfOk, MatchResult, Ok};
ghost use Rattle.arch_file.specs.Arch.{IsArch, arch_of};
ghost use Rattle.blif.specs.CircuitOf.{IsLawfulFor, circuit_of};
ghost use Rattle.blif.specs.LawfulCircuits.{IsCircuit};
ghost use Rattle.grid.specs.Sizes.{IsStripSize};
ghost use Rattle.layout_verdict.specs.Texts.{IsReadFrom, Texts};
ghost use Rattle.layout_verdict.specs.Verdicts.{IsImplemented, IsOnlyReading, IsVerdict};

use crate::laid_circuit::LaidCircuit;
use crate::texts::LayoutTexts;
use arch_file::{Arch, ArchFault, read_arch};
use blif::{BlifFault, Circuit, read_blif};
use grid::Strip;
use layout_check::{Wrong, check_layout};
use layout_files::{LayoutFault, read_layout};
use line_text::TextError;
use rr_graph::Fabric;
use std::alloc::{AllocError, Global};

/// Whether the three files of a layout implement a netlist.
#[derive(Drop)]
pub enum Verdict {
    /// They do. This was read.
    Implements(LaidCircuit),
    /// This was read, and the layout doesn't implement the circuit: this is the first thing that is
    /// wrong.
    Differs(LaidCircuit, Wrong),
    /// The text of the architecture has this fault.
    ArchRefused(ArchFault),
    /// The netlist has this fault.
    NetlistRefused(BlifFault),
    /// A file isn't the print of a layout of the netlist.
    FilesRefused(LayoutFault),
    /// Memory ran out.
    NoMemory,
}

/// Reads the architecture, the netlist and the three files, and says whether the layout implements
/// the circuit.
pub fn verdict_of(alloc: Global, texts: &LayoutTexts<'_>) -> Verdict
    ensures { IsVerdict texts.now result }
{
    let shape = texts.shape;
    match read_arch(alloc, texts.arch, shape.tracks) {
        Ok(arch) => verdict_on(alloc, texts, arch),
        Err(TextError::NoMemory) => Verdict::NoMemory,
        Err(TextError::Fault(fault)) => Verdict::ArchRefused(fault),
    }
}

/// The verdict on this architecture.
fn verdict_on(alloc: Global, texts: &LayoutTexts<'_>, arch: Arch) -> Verdict
    requires read { arch_of texts.now.arch texts.now.shape.tracks ≡ Ok arch }
    requires lawful { IsArch arch }
    ensures { IsVerdict texts.now result }
{
    match read_blif(alloc, texts.netlist, arch.lut_size) {
        Ok(circuit) => verdict_for(alloc, texts, arch, circuit),
        Err(TextError::NoMemory) => {
            drop(arch);
            Verdict::NoMemory
        }
        Err(TextError::Fault(fault)) => {
            drop(arch);
            Verdict::NetlistRefused(fault)
        }
    }
}

/// The verdict for this circuit.
fn verdict_for(alloc: Global, texts: &LayoutTexts<'_>, arch: Arch, circuit: Circuit) -> Verdict
    requires arch { arch_of texts.now.arch texts.now.shape.tracks ≡ Ok arch }
    requires circuit { circuit_of texts.now.netlist arch.lut_size ≡ Ok circuit }
    requires arch_lawful { IsArch arch }
    requires circuit_lawful { IsLawfulFor arch.lut_size circuit }
    ensures { IsVerdict texts.now result }
{
    let strip = Strip {
        width: texts.shape.columns,
        rows: texts.shape.rows,
        io_rat: arch.io_rat,
    };
    match read_layout(alloc, &circuit, &arch, strip, texts.files) {
        Ok(layout) => {
            let laid = LaidCircuit {
                arch,
                circuit,
                strip,
                layout,
            };
            verdict_of_laid(alloc, laid)
        }
        Err(error) => {
            drop(circuit);
            drop(arch);
            match error {
                TextError::NoMemory => Verdict::NoMemory,
                TextError::Fault(fault) => Verdict::FilesRefused(fault),
            }
        }
    }
}

/// The verdict on what was read.
fn verdict_of_laid(alloc: Global, laid: LaidCircuit) -> Verdict
    requires arch { IsArch laid.arch }
    requires circuit { IsCircuit laid.circuit }
    requires strip { IsStripSize laid.strip }
    ensures { (texts : Texts) → IsReadFrom texts laid → IsOnlyReading texts laid
        → IsVerdict texts result }
{
    match first_wrong(alloc, &laid) {
        Ok(Ok(())) => Verdict::Implements(laid),
        Ok(Err(wrong)) => Verdict::Differs(laid, wrong),
        Err(_) => {
            drop(laid);
            Verdict::NoMemory
        }
    }
}

/// The first thing in the layout that is not as the circuit says.
fn first_wrong(alloc: Global, laid: &LaidCircuit) -> Result<Result<(), Wrong>, AllocError>
    requires arch { IsArch laid.now.arch }
    requires circuit { IsCircuit laid.now.circuit }
    requires strip { IsStripSize laid.now.strip }
    ensures { IfOk result (λ checked. MatchResult checked (λ _. IsImplemented laid.now)
        (λ _. IsImplemented laid.now → ⊥)) }
{
    let graph = Fabric::new(alloc, &laid.arch, laid.strip)?;
    let checked = check_layout(alloc, &laid.circuit, &graph, &laid.layout);
    drop(graph);
    checked
}
