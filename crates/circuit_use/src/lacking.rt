//! What sets the size of a device.
ghost use Rattle.std.specs.Prelude.{◌≡◌, ◌≤◌};
ghost use Rattle.arch_file.specs.declared.arch.TheConstants.{MAX_IO_RAT};
ghost use Rattle.grid.specs.declared.TheConstants.{MAX_COLUMNS, MAX_ROWS};
ghost use Rattle.line_text.specs.Writing.{Writes};
ghost use Rattle.circuit_use.specs.Lacking.{lacking_line, lacking_on};

use line_text::{Failed, Sink};
use text_parts::{Part, write_parts};

/// The places of which a device has too few.
#[derive(Clone, Copy)]
pub enum Lacking {
    Nothing,
    Blocks,
    Pads,
    BlocksAndPads,
}

/// Returns of which places a device has too few for that number of logic blocks and pads, with
/// `io_rat` pads at each end of a column.
pub fn lacking_on(blocks: usize, pads: usize, io_rat: u32, columns: u32, rows: u32) -> Lacking
    requires pads { io_rat ≤ MAX_IO_RAT }
    requires columns { columns ≤ MAX_COLUMNS }
    requires rows { rows ≤ MAX_ROWS }
    ensures { result ≡ lacking_on blocks pads io_rat columns rows }
{
    let block_places = columns * rows;
    let pad_places = 2 * columns * io_rat;
    match (blocks > block_places as usize, pads > pad_places as usize) {
        (false, false) => Lacking::Nothing,
        (true, false) => Lacking::Blocks,
        (false, true) => Lacking::Pads,
        (true, true) => Lacking::BlocksAndPads,
    }
}

/// Writes the line of what sets the size, which a smaller device has too few of. If the sink fails,
/// it has taken a beginning of it.
pub fn write_lacking<W: Sink>(sink: &mut W, lacking: Lacking) -> Result<(), Failed>
    ensures { Writes W.contents W.has_failed sink.old sink.new (lacking_line lacking) result }
{
    match lacking {
        Lacking::Nothing => write_parts(sink, &[Part::Text("size set by nothing\n")]),
        Lacking::Blocks => write_parts(sink, &[Part::Text("size set by logic blocks\n")]),
        Lacking::Pads => write_parts(sink, &[Part::Text("size set by pads\n")]),
        Lacking::BlocksAndPads => write_parts(
            sink,
            &[Part::Text("size set by logic blocks and pads\n")],
        ),
    }
}
