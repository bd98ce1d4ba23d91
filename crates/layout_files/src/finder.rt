//! Finds the layout that the lines of the files describe.
ghost use Rattle.layout_files.specs.ReadingFiles.{IsFound};

use crate::names::add_names;
use crate::net_lines::{NetContext, read_packing};
use crate::place_lines::read_places;
use crate::route_lines::read_routing;
use arch_file::Arch;
use blif::Circuit;
use grid::Strip;
use layouts::Layout;
use line_text::{NameSet, TextError};
use std::alloc::Global;
use strip_files::{FileFault, StripTexts};

/// Finds the layout that the lines of the files describe: of the `.place`, the `.net` and the
/// `.route` file, in this order.
pub(crate) fn find_layout(
    alloc: Global,
    circuit: &Circuit,
    arch: &Arch,
    strip: Strip,
    texts: StripTexts<'_>,
) -> Result<Layout, TextError<FileFault>>
    ensures { IsFound circuit.now arch.now strip texts.entry.net.now texts.entry.place.now
        texts.entry.route.now result }
{
    let mut names = NameSet::new(alloc);
    add_names(&mut names, &circuit.nets)?;
    let context = NetContext {
        alloc,
        names: &names,
        lut_size: arch.lut_size,
    };
    let places = read_places(alloc, strip, texts.place)?;
    let (globals, blocks) = read_packing(context, texts.net, &places)?;
    let nets = read_routing(context, strip, texts.route)?;
    Ok(Layout::new(globals, blocks, nets))
}
