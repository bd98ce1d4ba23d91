//! The texts of a tenancy that is drawn without routes.
ghost use Rattle.std.specs.Prelude.{◌≡◌, ◌++◌, IfOk, OnOk};
ghost use Rattle.desk_layouts.specs.Drawn.{unpinned_line, unpinned_text, unrouted_text};

use desk_common::Outcome;
use line_text::{MemorySink, split_line, write_slices};
use std::alloc::{AllocError, Global};

/// The text of a `.net` file with an empty line in place of each list of pins: no block has a net.
/// Fails if memory runs out.
pub(crate) fn without_nets(alloc: Global, net: &[u8]) -> Result<Vec<u8>, AllocError>
    ensures { IfOk result (λ text. text.items ≡ unpinned_text net.now) }
{
    let mut text = Vec::new(alloc);
    let mut rest = net;
    while !rest.is_empty() {
        let (line, later) = split_line(rest);
        push_unpinned(&mut text, line)?;
        rest = later;
    }
    Ok(text)
}

/// Adds a line of a `.net` file, or an empty line in place of a list of pins. Fails if memory runs
/// out.
fn push_unpinned(text: &mut Vec<u8>, line: &[u8]) -> Result<(), AllocError>
    ensures { OnOk result (text.new.items ≡ text.old.items ++ unpinned_line line.now) }
{
    if !line.starts_with(b"pinlist:") {
        text.extend_from_slice(line)?;
    }
    text.push(b'\n')?;
    Ok(())
}

/// The text of a `.route` file without nets, for a strip of the size in that `.place` file.
pub(crate) fn no_routes(alloc: Global, place: &[u8]) -> Result<Vec<u8>, Outcome>
    ensures { IfOk result (λ text. text.items ≡ unrouted_text place.now) }
{
    let (_, rest) = split_line(place);
    let (size, _) = split_line(rest);
    let mut text = MemorySink::new(alloc);
    match write_slices(&mut text, &[size, b".\n\nRouting:\n\n"]) {
        Ok(()) => Ok(text.into_bytes()),
        Err(_) => Err(Outcome::NoMemory),
    }
}
