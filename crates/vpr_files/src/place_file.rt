//! The `.place` file: the places of a placed circuit's blocks.
ghost use Rattle.std.specs.Prelude.{◌<◌, length};
ghost use Rattle.vpr_files.specs.Prelude.{blocks_of, places_by_block, place_of, Writes};
ghost use Rattle.vpr_files.specs.PlaceFile.{place_text_of, placed_line};
ghost use Rattle.vpr_files.specs.TextLines.{line_of, text_of};
ghost use Rattle.vpr_files.specs.FileParts.{place_headings, placed_lines};

use crate::block_names::block_name;
use cluster::Packed;
use grid::Strip;
use itoa::Buffer;
use line_text::{Failed, Sink, write_slices};
use strip_place::Placing;

/// Writes the `.place` file of a placed circuit. If the sink fails, it has taken a beginning of the
/// file.
///
/// - `Netlist file: MODEL.net Architecture file: device.arch` and `Array size: WIDTH x ROWS logic
///   blocks`, an empty line, and two lines with the headings of the columns below.
/// - For each block, in order: its name, its column and row, the number of the pad among those at
///   its end of the column (0 for a logic block), and `#` with its own number.
pub fn place_text<W: Sink>(placing: &Placing, sink: &mut W) -> Result<(), Failed>
    ensures { Writes W.contents W.has_failed sink.old sink.new
        (place_text_of placing.now.strip placing.now.packed (places_by_block placing.now)) result }
{
    write_headings(placing.strip(), placing.packed(), sink)?;
    write_places(placing, sink)
}

fn write_headings<W: Sink>(strip: Strip, packed: &Packed, sink: &mut W) -> Result<(), Failed>
    ensures { Writes W.contents W.has_failed sink.old sink.new
        (text_of (place_headings strip packed.now)) result }
{
    let mut width = Buffer::new();
    let mut rows = Buffer::new();
    write_slices(
        sink,
        &[
            b"Netlist file: ",
            packed.circuit().model.as_bytes(),
            b".net Architecture file: device.arch\nArray size: ",
            width.format(strip.width).as_bytes(),
            b" x ",
            rows.format(strip.rows).as_bytes(),
            b" logic blocks\n\n#block name x y subblk block number\n#---------- - - ------ ------------\n",
        ],
    )
}

/// Writes the lines of the blocks.
fn write_places<W: Sink>(placing: &Placing, sink: &mut W) -> Result<(), Failed>
    ensures { Writes W.contents W.has_failed sink.old sink.new
        (text_of (placed_lines placing.now.packed (places_by_block placing.now))) result }
{
    for block in 0..placing.packed().block_count() {
        write_place(placing, block, sink)?;
    }
    Ok(())
}

/// Writes the line of a block at a place.
fn write_place<W: Sink>(placing: &Placing, block: usize, sink: &mut W) -> Result<(), Failed>
    requires { block < length (blocks_of placing.now.packed) }
    ensures { Writes W.contents W.has_failed sink.old sink.new
        (line_of (placed_line placing.now.packed block
        (place_of (places_by_block placing.now) block))) result }
{
    let packed = placing.packed();
    let place = placing.place_of(block);
    let name = block_name(packed, packed.block(block));
    let mut x = Buffer::new();
    let mut y = Buffer::new();
    let mut subblock = Buffer::new();
    let mut number = Buffer::new();
    write_slices(
        sink,
        &[
            name.before,
            name.net,
            b" ",
            x.format(place.x).as_bytes(),
            b" ",
            y.format(place.y).as_bytes(),
            b" ",
            subblock.format(place.subblock).as_bytes(),
            b" #",
            number.format(block).as_bytes(),
            b"\n",
        ],
    )
}
