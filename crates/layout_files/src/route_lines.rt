//! The lines of a `.route` file: the nets between blocks.
ghost use Rattle.std.specs.Prelude.{◌≡◌, ◌≤◌, ◌-◌, IfOk};
ghost use Rattle.layout_files.specs.Cursors.{size};
ghost use Rattle.layout_files.specs.ReadingRoutes.{AreListedRead, AreNetsRead, ArePathsRead, IsHeadingRead, IsListedRead, IsNetBefore, IsNetRead, IsPathRead, name_end};
ghost use Rattle.layout_files.specs.Fitting.{FitsFiles, HasFileNames};
ghost use Rattle.layout_files.specs.LayoutFiles.{HasPrintedForm};
ghost use Rattle.layout_files.specs.Prelude.{Arch, Circuit, Layout, route_text};
ghost use Rattle.layout_files.specs.ReadingFiles.{Given};

use crate::cursor::Cursor;
use crate::form::is_sink;
use crate::names::net_named;
use crate::net_lines::NetContext;
use crate::node_lines::read_node;
use crate::place_lines::read_size;
use grid::Strip;
use layouts::{LaidNet, LaidPath};
use line_text::{NameSet, TextError};
use rr_graph::Node;
use std::alloc::{AllocError, Global};
use strip_files::{Fault, File, FileFault};
use text_parts::Part;

/// Reads a `.route` file: the nets between blocks, by number.
pub(crate) fn read_routing(
    context: NetContext<'_, '_>,
    strip: Strip,
    text: &[u8],
) -> Result<Vec<LaidNet>, TextError<FileFault>>
    ensures { (circuit : Circuit) (arch : Arch) (layout : Layout) →
        context.entry.names.now ≡ circuit.nets → HasFileNames circuit →
        FitsFiles circuit arch layout → HasPrintedForm layout →
        text.now ≡ route_text circuit strip layout →
        Given result (λ nets. nets.items ≡ layout.nets) }
{
    let mut cursor = Cursor::new(text);
    read_size(&mut cursor, strip);
    cursor.text(" logic blocks.\n");
    cursor.expect(Fault::UnknownLine);
    cursor.text("\n");
    cursor.text("Routing:\n");
    cursor.text("\n");
    let nets = read_nets(&mut cursor, context)?;
    cursor.finish(File::Route, text, nets)
}

/// Reads the lines of the nets.
fn read_nets(
    cursor: &mut Cursor<'_>,
    context: NetContext<'_, '_>,
) -> Result<Vec<LaidNet>, AllocError>
    ensures { IfOk result (λ nets. AreNetsRead context.entry.names.now cursor.old nets.items
        cursor.new) }
{
    let mut nets = Vec::new(context.alloc);
    while cursor.has_more() {
        let net = read_net(cursor, context, nets.len())?;
        nets.push(net)?;
    }
    Ok(nets)
}

/// Reads the lines of the net of that number.
fn read_net(
    cursor: &mut Cursor<'_>,
    context: NetContext<'_, '_>,
    number: usize,
) -> Result<LaidNet, AllocError>
    ensures read { IfOk result (λ net. IsNetRead context.entry.names.now number cursor.old net
        cursor.new) }
    ensures shorter { IfOk result (λ _. size cursor.new ≤ size cursor.old - 1) }
{
    let heading = read_heading(cursor, context.names, number);
    if heading.is_global {
        let listed = read_listed(context.alloc, cursor)?;
        return Ok(LaidNet::new(heading.net, listed, Vec::new(context.alloc)));
    }
    let paths = read_paths(context.alloc, cursor)?;
    Ok(LaidNet::new(heading.net, Vec::new(context.alloc), paths))
}

/// What the first line of a net says: the net, and whether blocks are listed with it.
#[derive(Clone, Copy)]
struct Heading {
    net: u32,
    is_global: bool,
}

/// Reads the first line of the net of that number, and the empty line after it.
fn read_heading(cursor: &mut Cursor<'_>, names: &NameSet<'_>, number: usize) -> Heading
    ensures read { IsHeadingRead names.now number cursor.old result.net result.is_global cursor.new }
    ensures shorter { size cursor.new ≤ size cursor.old - 1 }
{
    cursor.expect(Fault::UnknownLine);
    cursor.text("Net ");
    cursor.expect(Fault::OutOfOrder);
    cursor.print(&[Part::Long(number as u64), Part::Text(" (")]);
    cursor.expect(Fault::BadNet);
    let word = cursor.word();
    let is_global = cursor.takes(" global net connecting:");
    let net = net_before(cursor, names, word, name_end(is_global));
    cursor.text("\n");
    cursor.expect(Fault::OtherText);
    cursor.text("\n");
    Heading { net, is_global }
}

/// What follows the name of a net.
fn name_end(is_global: bool) -> &'static str
    ensures { result.now ≡ name_end is_global }
{
    if is_global { "):" } else { ")" }
}

/// The net whose name is before that end of the word.
fn net_before(cursor: &mut Cursor<'_>, names: &NameSet<'_>, word: &[u8], end: &str) -> u32
    ensures read { IsNetBefore names.now word.now end.now cursor.old result cursor.new }
    ensures shorter { size cursor.new ≤ size cursor.old }
{
    match word.strip_suffix(end.as_bytes()) {
        Some(name) => net_named(cursor, names, name),
        None => {
            cursor.fail(Fault::BadNet);
            0
        }
    }
}

/// Reads the numbers of listed blocks, up to an empty line.
fn read_listed(alloc: Global, cursor: &mut Cursor<'_>) -> Result<Vec<u32>, AllocError>
    ensures read { IfOk result (λ listed. AreListedRead cursor.old listed.items cursor.new) }
    ensures shorter { size cursor.new ≤ size cursor.old }
{
    let mut listed = Vec::new(alloc);
    cursor.expect(Fault::BadListed);
    while cursor.takes("Block ") {
        let block = read_block(cursor);
        listed.push(block)?;
    }
    cursor.text("\n");
    Ok(listed)
}

/// Reads the rest of the line of a listed block, and returns its number.
fn read_block(cursor: &mut Cursor<'_>) -> u32
    ensures read { IsListedRead cursor.old result cursor.new }
    ensures shorter { size cursor.new ≤ size cursor.old }
{
    cursor.word();
    cursor.text(" (#");
    let number = cursor.number();
    cursor.text(") at (");
    cursor.number();
    cursor.text(",");
    cursor.number();
    cursor.text(").\n");
    number
}

/// Reads paths, up to an empty line.
fn read_paths(alloc: Global, cursor: &mut Cursor<'_>) -> Result<Vec<LaidPath>, AllocError>
    ensures read { IfOk result (λ paths. ArePathsRead cursor.old paths.items cursor.new) }
    ensures shorter { size cursor.new ≤ size cursor.old }
{
    let mut paths = Vec::new(alloc);
    while cursor.has_line() {
        let nodes = read_nodes(alloc, cursor)?;
        paths.push(LaidPath::new(nodes))?;
    }
    cursor.text("\n");
    Ok(paths)
}

/// Reads the nodes of a path, up to a sink.
fn read_nodes(alloc: Global, cursor: &mut Cursor<'_>) -> Result<Vec<Node>, AllocError>
    ensures read { IfOk result (λ nodes. IsPathRead cursor.old nodes.items cursor.new) }
    ensures shorter { size cursor.new ≤ size cursor.old - 1 }
{
    let mut nodes = Vec::new(alloc);
    while cursor.has_line() {
        let node = read_node(cursor);
        nodes.push(node)?;
        if is_sink(node.kind) {
            return Ok(nodes);
        }
    }
    cursor.takes("\n");
    cursor.fail(Fault::OpenPath);
    Ok(nodes)
}
