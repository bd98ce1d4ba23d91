//! The lines of a `.net` file: the global nets, and the blocks.
ghost use Rattle.std.specs.Prelude.{◌≡◌, ◌≤◌, ◌<◌, ◌+◌, ◌-◌, ◌^◌, if◌then◌else◌, map, slice_get, IfOk};
ghost use Rattle.layout_files.specs.Cursors.{size};
ghost use Rattle.layout_files.specs.Fitting.{FitsFiles, HasFileNames, is_cluster};
ghost use Rattle.layout_files.specs.LayoutFiles.{HasPrintedForm};
ghost use Rattle.layout_files.specs.Prelude.{Arch, Circuit, Layout, net_text};
ghost use Rattle.layout_files.specs.ReadingFiles.{Given};
ghost use Rattle.layout_files.specs.ReadingNets.{AreBlocksRead, AreGlobalsRead, IsBlockRead, IsGlobalRead, IsPadRead};

use crate::block_lines::{read_bles, read_pins};
use crate::cursor::Cursor;
use crate::names::net_named;
use cluster::Block;
use grid::Place;
use layouts::LaidBlock;
use line_text::{NameSet, TextError};
use std::alloc::{AllocError, Global};
use strip_files::{Fault, File, FileFault};

/// What the lines of a `.net` file refer to.
#[derive(Clone, Copy)]
pub(crate) struct NetContext<'a, 'c> {
    pub(crate) alloc: Global,
    pub(crate) names: &'a NameSet<'c>,
    /// The largest number of inputs of a table.
    pub(crate) lut_size: u32,
}

/// Reads a `.net` file, whose blocks are at these places: its global nets and its blocks.
pub(crate) fn read_packing(
    context: NetContext<'_, '_>,
    text: &[u8],
    places: &[Place],
) -> Result<(Vec<u32>, Vec<LaidBlock>), TextError<FileFault>>
    ensures { (circuit : Circuit) (arch : Arch) (layout : Layout) →
        context.entry.names.now ≡ circuit.nets → context.entry.lut_size ≡ arch.lut_size →
        HasFileNames circuit → FitsFiles circuit arch layout → HasPrintedForm layout →
        places.now ≡ map (λ laid. laid.place) layout.blocks → text.now ≡ net_text circuit arch layout →
        Given result (λ found. (found.0.items ≡ layout.globals) × (found.1.items ≡ layout.blocks)) }
{
    let mut cursor = Cursor::new(text);
    let globals = read_globals(&mut cursor, context)?;
    let blocks = read_blocks(&mut cursor, context, places)?;
    cursor.finish(File::Net, text, (globals, blocks))
}

/// Reads the lines of the global nets.
fn read_globals(
    cursor: &mut Cursor<'_>,
    context: NetContext<'_, '_>,
) -> Result<Vec<u32>, AllocError>
    ensures { IfOk result (λ globals. AreGlobalsRead context.entry.names.now cursor.old
        globals.items cursor.new) }
{
    let mut globals = Vec::new(context.alloc);
    while cursor.takes(".global ") {
        let net = read_global(cursor, context.names);
        globals.push(net)?;
    }
    if globals.is_empty() {
        return Ok(globals);
    }
    cursor.text("\n");
    Ok(globals)
}

/// Reads the name of a global net, and the end of its line.
fn read_global(cursor: &mut Cursor<'_>, names: &NameSet<'_>) -> u32
    ensures read { IsGlobalRead names.now cursor.old result cursor.new }
    ensures shorter { size cursor.new ≤ size cursor.old }
{
    cursor.expect(Fault::UnknownLine);
    let word = cursor.word();
    let net = net_named(cursor, names, word);
    cursor.text("\n");
    net
}

/// Reads the lines of the blocks.
fn read_blocks(
    cursor: &mut Cursor<'_>,
    context: NetContext<'_, '_>,
    places: &[Place],
) -> Result<Vec<LaidBlock>, AllocError>
    ensures { IfOk result (λ blocks. AreBlocksRead context.entry.names.now context.entry.lut_size
        places.now cursor.old blocks.items cursor.new) }
{
    let mut blocks = Vec::new(context.alloc);
    let mut clusters = 0u32;
    while cursor.has_more() {
        let place = match place_at(places, blocks.len()) {
            Some(place) => place,
            None => {
                cursor.fail(Fault::OtherPlaced);
                return Ok(blocks);
            }
        };
        let laid = read_block(cursor, context, place, clusters)?;
        clusters = clusters_after(clusters, laid.block());
        blocks.push(laid)?;
    }
    Ok(blocks)
}

/// The place at this index, if there is one.
fn place_at(places: &[Place], index: usize) -> Option<Place>
    ensures { result ≡ slice_get places.now index }
{
    places.get(index).copied()
}

/// The number of clusters after one more block, if there are so many before it.
fn clusters_after(clusters: u32, block: Block) -> u32
    ensures { clusters + 1 < 2 ^ 32
        → result ≡ (if is_cluster block then clusters + 1 else clusters) }
{
    match block {
        Block::Cluster(_) => clusters.saturating_add(1),
        Block::InputPad(_) | Block::OutputPad(_) => clusters,
    }
}

/// Reads the lines of a block at a place, which has this number if it is a cluster.
fn read_block(
    cursor: &mut Cursor<'_>,
    context: NetContext<'_, '_>,
    place: Place,
    number: u32,
) -> Result<LaidBlock, AllocError>
    ensures read { IfOk result (λ laid. IsBlockRead context.entry.names.now context.entry.lut_size place
        number cursor.old laid cursor.new) }
    ensures shorter { IfOk result (λ _. size cursor.new ≤ size cursor.old - 1) }
{
    cursor.expect(Fault::UnknownLine);
    let alloc = context.alloc;
    if cursor.takes(".input ") {
        let block = Block::InputPad(read_pad(cursor, context.names));
        return Ok(LaidBlock::new(block, Vec::new(alloc), Vec::new(alloc), place));
    }
    if cursor.takes(".output out:") {
        let block = Block::OutputPad(read_pad(cursor, context.names));
        return Ok(LaidBlock::new(block, Vec::new(alloc), Vec::new(alloc), place));
    }
    cursor.text(".clb ");
    cursor.word();
    cursor.text("\npinlist:");
    let pins = read_pins(cursor, context)?;
    cursor.text("\n");
    let bles = read_bles(cursor, context)?;
    cursor.text("\n");
    Ok(LaidBlock::new(Block::Cluster(number), pins, bles, place))
}

/// Reads the name of a pad's net, and the line of its pin.
fn read_pad(cursor: &mut Cursor<'_>, names: &NameSet<'_>) -> u32
    ensures read { IsPadRead names.now cursor.old result cursor.new }
    ensures shorter { size cursor.new ≤ size cursor.old }
{
    let word = cursor.word();
    let net = net_named(cursor, names, word);
    cursor.text("\npinlist: ");
    cursor.word();
    cursor.text("\n\n");
    net
}
