//! Nodes of the routing graph as text.
ghost use Rattle.std.specs.Prelude.{◌≡◌, ◌++◌, ◌==◌, ◌||◌, codes, nat_lt};
ghost use Rattle.vpr_files.specs.NodeText.{kind_word, node_text_of, number_word};
ghost use Rattle.vpr_files.specs.Prelude.{Writes};

use itoa::Buffer;
use line_text::{Failed, Sink, write_slices};
use rr_graph::{Node, NodeKind};

/// Writes a node of a strip or device with this number of rows: its kind, its column and row, and
/// its number after a word for what is numbered, as in `OPIN (1,1) Pin: 2`. The number is that of a
/// track in a channel, of a pad in row 0 and above the last row, otherwise of a class for a source
/// or sink, and of a pin for the others. If the sink fails, it has taken a beginning of this text.
pub fn write_node<W: Sink>(node: Node, rows: u32, sink: &mut W) -> Result<(), Failed>
    ensures { Writes W.contents W.has_failed sink.old sink.new (node_text_of rows node) result }
{
    let mut x = Buffer::new();
    let mut y = Buffer::new();
    let mut number = Buffer::new();
    write_slices(
        sink,
        &[
            kind_start(node.kind),
            x.format(node.x).as_bytes(),
            b",",
            y.format(node.y).as_bytes(),
            number_start(node.kind, is_pad_row(rows, node.y)),
            number.format(node.n).as_bytes(),
        ],
    )
}

fn is_pad_row(rows: u32, y: u32) -> bool
    ensures { result ≡ (y == 0 || nat_lt rows y) }
{
    y == 0 || rows < y
}

/// The word for a kind, and the text up to the column.
fn kind_start(kind: NodeKind) -> &'static [u8]
    ensures { result.now ≡ kind_word kind ++ codes " (" }
{
    match kind {
        NodeKind::Source => b"SOURCE (",
        NodeKind::Sink => b"SINK (",
        NodeKind::Opin => b"OPIN (",
        NodeKind::Ipin => b"IPIN (",
        NodeKind::ChanX => b"CHANX (",
        NodeKind::ChanY => b"CHANY (",
    }
}

/// The text between the row and the number.
fn number_start(kind: NodeKind, pad: bool) -> &'static [u8]
    ensures { result.now ≡ codes ") " ++ number_word kind pad ++ codes " " }
{
    match kind {
        NodeKind::ChanX | NodeKind::ChanY => b") Track: ",
        _ if pad => b") Pad: ",
        NodeKind::Source | NodeKind::Sink => b") Class: ",
        NodeKind::Opin | NodeKind::Ipin => b") Pin: ",
    }
}
