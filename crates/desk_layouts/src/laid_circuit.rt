//! The circuit and the layout of the files that a tool is given.
ghost use Rattle.std.specs.Prelude.{◌≡◌, IfErr, IfOk};
ghost use Rattle.desk_layouts.specs.Prelude.{OtherCircuit, IsReadFrom, IsImplemented};
ghost use Rattle.desk_layouts.specs.Checked.{IsLaidIn};
ghost use Rattle.desk_layouts.specs.Refused.{IsRefusal, IsRefusalOf};

use crate::given_files::GivenFiles;
use crate::layout_input::{LayoutPaths, shape_of};
use crate::refused_file::tell_file;
use desk_common::{NetlistSource, Outcome, told_refused, write_arch_fault};
use layout_check::Wrong;
use layout_verdict::{LaidCircuit, LayoutTexts, Verdict, verdict_of};
use layout_words::{Subject, write_wrong};
use line_text::Sink;
use std::alloc::Global;
use tenant_slot::Refusal;

/// The circuit and the layout that these files describe, as [`laid_circuit`] returns them. Of a
/// file that is refused the path is written to the teller.
pub(crate) fn circuit_in<E: Sink>(
    alloc: Global,
    paths: LayoutPaths<'_>,
    given: &GivenFiles,
    teller: &mut E,
) -> Result<LaidCircuit, Outcome>
    ensures laid { IfOk result (IsLaidIn paths.entry given.now) }
    ensures refused { IfErr result (IsRefusal paths.entry given.now) }
{
    let Some(shape) = shape_of(paths, given.place.as_slice()) else {
        return Err(Outcome::NoMemory);
    };
    let source = NetlistSource {
        path: paths.netlist,
        text: given.netlist.as_slice(),
        arch: given.arch.as_slice(),
    };
    let texts = given.texts(shape);
    let laid = laid_circuit(alloc, paths.arch, source, &texts, teller);
    drop(texts);
    tell_file(paths, given, &laid, teller);
    laid
}

/// The circuit and the layout that the texts describe, if the layout implements the circuit.
/// Otherwise what is wrong is written to the teller; the architecture and the netlist are named by
/// their paths.
pub(crate) fn laid_circuit<E: Sink>(
    alloc: Global,
    arch: &str,
    source: NetlistSource<'_>,
    texts: &LayoutTexts<'_>,
    teller: &mut E,
) -> Result<LaidCircuit, Outcome>
    ensures laid { IfOk result (λ laid. IsReadFrom texts.now laid × IsImplemented laid) }
    ensures refused { IfErr result (IsRefusalOf texts.now) }
{
    match verdict_of(alloc, texts) {
        Verdict::Implements(laid) => Ok(laid),
        Verdict::Differs(laid, wrong) => Err(told_wrong(laid, wrong, teller)),
        Verdict::ArchRefused(fault) => {
            let _ = write_arch_fault(teller, arch, fault);
            Err(Outcome::ArchRefused(fault))
        }
        Verdict::NetlistRefused(fault) => {
            Err(told_refused(alloc, source, Refusal::BadBlif(fault), teller))
        }
        Verdict::FilesRefused(fault) => Err(Outcome::LayoutRefused(fault)),
        Verdict::NoMemory => Err(Outcome::NoMemory),
    }
}

/// Writes what is wrong with a layout, and returns how the errand ended.
fn told_wrong<E: Sink>(laid: LaidCircuit, wrong: Wrong, teller: &mut E) -> Outcome
    ensures { result ≡ OtherCircuit }
{
    let subject = Subject {
        circuit: &laid.circuit,
        arch: &laid.arch,
        layout: &laid.layout,
        rows: laid.strip.rows,
    };
    let _ = write_wrong(teller, subject, &wrong);
    drop(laid);
    Outcome::OtherCircuit
}
