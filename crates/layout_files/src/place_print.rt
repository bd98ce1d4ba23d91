//! Compares the print of a layout's places with the `.place` file.
ghost use Rattle.std.specs.Prelude.{◌≡◌, map};
ghost use Rattle.std.specs.List.{enumerate_from};
ghost use Rattle.layout_files.specs.Cursors.{IsSame, left_after};
ghost use Rattle.layout_files.specs.Printing.{place_headings};
ghost use Rattle.layout_files.specs.Prelude.{place_line, place_text, line_of, text_of};

use crate::cursor::Cursor;
use crate::laid_names::laid_name;
use blif::Circuit;
use grid::Strip;
use layouts::{LaidBlock, Layout};
use line_text::TextError;
use strip_files::{File, FileFault};
use text_parts::Part;

/// Compares the print of the places with the `.place` file.
pub(crate) fn compare_place(
    circuit: &Circuit,
    strip: Strip,
    text: &[u8],
    layout: &Layout,
) -> Result<(), TextError<FileFault>>
    ensures { IsSame result text.now (place_text circuit.now strip layout.now) }
{
    let mut print = Cursor::new(text);
    print.print(&[
        Part::Text("Netlist file: "),
        Part::Bytes(circuit.model.as_bytes()),
        Part::Text(".net Architecture file: device.arch\nArray size: "),
        Part::Number(strip.width),
        Part::Text(" x "),
        Part::Number(strip.rows),
        Part::Text(
            " logic blocks\n\n#block name x y subblk block number\n#---------- - - ------ ------------\n",
        ),
    ]);
    print_places(&mut print, circuit, layout.blocks());
    print.outcome(File::Place, text)
}

/// Prints the lines of the blocks, with their numbers.
fn print_places(print: &mut Cursor<'_>, circuit: &Circuit, blocks: &[LaidBlock])
    ensures { print.new ≡ left_after print.old (text_of (map (λ block. place_line circuit.now block.0 block.1) (enumerate_from 0 blocks.now))) }
{
    for (number, laid) in blocks.iter().enumerate() {
        print_place(print, circuit, number, laid);
    }
}

/// Prints the line of the block of that number.
fn print_place(print: &mut Cursor<'_>, circuit: &Circuit, number: usize, laid: &LaidBlock)
    ensures { print.new ≡ left_after print.old (line_of (place_line circuit.now number laid.now)) }
{
    let name = laid_name(circuit, laid);
    let place = laid.place();
    print.print(&[
        Part::Bytes(name.before),
        Part::Bytes(name.net),
        Part::Text(" "),
        Part::Number(place.x),
        Part::Text(" "),
        Part::Number(place.y),
        Part::Text(" "),
        Part::Number(place.subblock),
        Part::Text(" #"),
        Part::Long(number as u64),
        Part::Text("\n"),
    ])
}
