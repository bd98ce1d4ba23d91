//! The three files together.
ghost use Rattle.std.specs.Prelude.{◌≡◌, IfOk, OnErr, OnOk};
ghost use Rattle.layout_files.specs.LayoutFiles.{AreFilesOf, ArePrintOf, IsReadingOf};

use crate::fault::LayoutFault;
use crate::finder::find_layout;
use crate::form::{has_printed_form, none_is_open};
use crate::net_print::compare_net;
use crate::place_print::compare_place;
use crate::route_print::compare_route;
use arch_file::Arch;
use blif::Circuit;
use grid::Strip;
use layouts::Layout;
use line_text::TextError;
use std::alloc::Global;
use strip_files::{Fault, File, FileFault, StripTexts};

/// Reads the layout of a circuit from its three files, which must be as the service writes them,
/// byte by byte. Fails with the first faulty line of the `.place`, then of the `.net`, then of the
/// `.route` file, with the first line that is not the one that the service would write of what it
/// has read, if a net is called `open`, or if memory runs out.
pub fn read_layout(
    alloc: Global,
    circuit: &Circuit,
    arch: &Arch,
    strip: Strip,
    texts: StripTexts<'_>,
) -> Result<Layout, TextError<LayoutFault>>
    ensures read { IfOk result (λ layout. AreFilesOf circuit.now arch.now strip
        texts.entry.net.now texts.entry.place.now texts.entry.route.now layout) }
    ensures exact { IsReadingOf circuit.now arch.now strip texts.entry.net.now
        texts.entry.place.now texts.entry.route.now result }
{
    if !none_is_open(&circuit.nets) {
        return Err(TextError::Fault(LayoutFault::NetCalledOpen));
    }
    let layout = match find_layout(alloc, circuit, arch, strip, texts) {
        Ok(layout) => layout,
        Err(error) => return Err(error.told_as()),
    };
    match confirm(circuit, arch, strip, texts, &layout) {
        Ok(()) => Ok(layout),
        Err(error) => Err(error.told_as()),
    }
}

/// Confirms that the files are the print of the layout, and that it has the form of a print.
fn confirm(
    circuit: &Circuit,
    arch: &Arch,
    strip: Strip,
    texts: StripTexts<'_>,
    layout: &Layout,
) -> Result<(), TextError<FileFault>>
    ensures ok { OnOk result (ArePrintOf circuit.now arch.now strip texts.entry.net.now
        texts.entry.place.now texts.entry.route.now layout.now) }
    ensures err { OnErr result (ArePrintOf circuit.now arch.now strip texts.entry.net.now
        texts.entry.place.now texts.entry.route.now layout.now → ⊥) }
{
    compare_net(circuit, arch, texts.net, layout)?;
    compare_place(circuit, strip, texts.place, layout)?;
    compare_route(circuit, strip, texts.route, layout)?;
    if has_printed_form(layout) {
        Ok(())
    } else {
        Err(TextError::Fault(FileFault {
            file: File::Route,
            line: 1,
            fault: Fault::OtherText,
        }))
    }
}
