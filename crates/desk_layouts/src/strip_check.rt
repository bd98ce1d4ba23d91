//! The check of a layout against its netlist, before it is drawn.
ghost use Rattle.std.specs.Prelude.{Option, IfOk, OnErr, OnOk};
ghost use Rattle.desk_layouts.specs.Prelude.{IsBeginning};
ghost use Rattle.desk_layouts.specs.Drawn.{AreChecked, IsRefusedStrip, bytes_of};
ghost use Rattle.desk_layouts.specs.StripAsked.{IsCheckAskedFor};

use crate::given_files::MAX_READ;
use crate::laid_circuit::laid_circuit;
use crate::layout_input::size_in_places;
use arch_file::MAX_TRACKS;
use desk_common::{FileRole, FileTexts, NO_DEVICE, NetlistSource, Outcome};
use layout_verdict::{LayoutTexts, StripShape};
use line_text::{Sink, TextError};
use option_words::Given;
use std::alloc::Global;
use strip_files::{StripTexts, read_strip};

/// Why a netlist is refused without its device.
const NO_TRACKS: &str = "--netlist needs --arch and --tracks";

/// A netlist, and the device on which it was laid out.
#[derive(Clone, Copy)]
pub(crate) struct Against<'a> {
    netlist: &'a str,
    arch: &'a str,
    tracks: u32,
}

/// The netlist against which a layout is to be checked, if one is given, or why the options are
/// refused.
pub(crate) fn against_of<'a>(given: &Given<'a>) -> Result<Option<Against<'a>>, &'static str>
    ensures asked { IfOk result (IsCheckAskedFor given.now) }
    ensures refused { OnErr result ((against : Option Against) →
        IsCheckAskedFor given.now against → ⊥) }
{
    let Some(netlist) = given.text("netlist") else {
        return Ok(None);
    };
    if given.text("tracks").is_none() {
        return Err(NO_TRACKS);
    }
    let arch = given.text("arch").ok_or(NO_TRACKS)?;
    let tracks = given.number("tracks")?;
    if !(1..=MAX_TRACKS).contains(&tracks) {
        return Err(NO_DEVICE);
    }
    Ok(Some(Against {
        netlist,
        arch,
        tracks,
    }))
}

/// Checks the layout with these files against the netlist, as `fpgad_desk check` does, on a strip
/// of the size in the `.place` file. What is wrong is written to the teller.
pub(crate) fn check_against<F: FileTexts + AllocGlobal, E: Sink>(
    files: &F,
    against: Against<'_>,
    texts: StripTexts<'_>,
    teller: &mut E,
) -> Result<(), Outcome>
    ensures { OnOk result (AreChecked (F.text files.now) against.entry (bytes_of texts.entry)) }
{
    let arch = files.read_text(FileRole::Architecture, against.arch, MAX_READ, teller)?;
    let netlist = files.read_text(FileRole::Netlist, against.netlist, MAX_READ, teller)?;
    let alloc = files.alloc();
    let Some(size) = size_in_places(texts.place) else {
        return Err(outcome_without_size(alloc, texts));
    };
    let Some(shape) = StripShape::new(size.columns, size.rows, against.tracks) else {
        return Err(Outcome::NoMemory);
    };
    let layout = LayoutTexts::new(shape, arch.as_slice(), netlist.as_slice(), texts);
    let source = NetlistSource {
        path: against.netlist,
        text: netlist.as_slice(),
        arch: arch.as_slice(),
    };
    laid_circuit(alloc, against.arch, source, &layout, teller)?;
    Ok(())
}

/// How the errand ends with a `.place` file without a size: it is refused as it is by the drawing.
fn outcome_without_size(alloc: Global, files: StripTexts<'_>) -> Outcome
    ensures { IsRefusedStrip result }
{
    match read_strip(alloc, files) {
        Err(TextError::Fault(fault)) => Outcome::StripRefused(fault),
        Err(TextError::NoMemory) => Outcome::NoMemory,
        Ok(_) => Outcome::NoMemory,
    }
}
