//! The lines of a `.place` file: the places of the blocks.
ghost use Rattle.std.specs.Prelude.{◌≡◌, ◌≤◌, ◌-◌, IfOk, map};
ghost use Rattle.layout_files.specs.Cursors.{size};
ghost use Rattle.layout_files.specs.Reading.{AreBlocksRead, IsPlaceRead, IsSizeRead};
ghost use Rattle.layout_files.specs.Fitting.{FitsFiles, HasFileNames};
ghost use Rattle.layout_files.specs.Prelude.{Arch, Circuit, Layout, place_text};
ghost use Rattle.layout_files.specs.ReadingFiles.{Given};

use crate::cursor::Cursor;
use grid::{Place, Strip};
use line_text::TextError;
use std::alloc::{AllocError, Global};
use strip_files::{Fault, File, FileFault};
use text_parts::Part;

/// Reads a `.place` file: the places of the blocks, by number.
pub(crate) fn read_places(
    alloc: Global,
    strip: Strip,
    text: &[u8],
) -> Result<Vec<Place>, TextError<FileFault>>
    ensures { (circuit : Circuit) (arch : Arch) (layout : Layout) → HasFileNames circuit →
        FitsFiles circuit arch layout → text.now ≡ place_text circuit strip layout →
        Given result (λ places. places.items ≡ map (λ laid. laid.place) layout.blocks) }
{
    let mut cursor = Cursor::new(text);
    cursor.expect(Fault::UnknownLine);
    cursor.text("Netlist file: ");
    cursor.expect(Fault::OtherText);
    cursor.word();
    cursor.text(" Architecture file: device.arch\n");
    read_size(&mut cursor, strip);
    cursor.text(" logic blocks\n");
    cursor.expect(Fault::OtherText);
    cursor.text("\n");
    cursor.text("#block name x y subblk block number\n");
    cursor.text("#---------- - - ------ ------------\n");
    let places = read_blocks(alloc, &mut cursor)?;
    cursor.finish(File::Place, text, places)
}

/// Reads the size of the strip.
pub(crate) fn read_size(cursor: &mut Cursor<'_>, strip: Strip)
    ensures { IsSizeRead strip cursor.old cursor.new }
{
    cursor.expect(Fault::BadSize);
    cursor.text("Array size: ");
    let columns = cursor.number();
    cursor.text(" x ");
    let rows = cursor.number();
    if columns != strip.width || rows != strip.rows {
        cursor.fail(Fault::OtherStrip);
    }
}

/// Reads the lines of the blocks.
fn read_blocks(alloc: Global, cursor: &mut Cursor<'_>) -> Result<Vec<Place>, AllocError>
    ensures { IfOk result (λ places. AreBlocksRead cursor.old places.items cursor.new) }
{
    let mut places = Vec::new(alloc);
    while cursor.has_more() {
        let place = read_place(cursor, places.len());
        places.push(place)?;
    }
    Ok(places)
}

/// Reads the line of the block of that number, and returns its place.
fn read_place(cursor: &mut Cursor<'_>, number: usize) -> Place
    ensures read { IsPlaceRead number cursor.old result cursor.new }
    ensures shorter { size cursor.new ≤ size cursor.old - 1 }
{
    cursor.expect(Fault::BadBlock);
    cursor.word();
    cursor.text(" ");
    let x = cursor.number();
    cursor.text(" ");
    let y = cursor.number();
    cursor.text(" ");
    let subblock = cursor.number();
    cursor.text(" #");
    cursor.expect(Fault::OutOfOrder);
    cursor.print(&[Part::Long(number as u64), Part::Text("\n")]);
    Place { x, y, subblock }
}
