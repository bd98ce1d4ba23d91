//! The words in the line of a node.
ghost use Rattle.std.specs.Prelude.{◌≡◌, ◌++◌, ◌==◌, ◌||◌, codes, nat_lt};
ghost use Rattle.layout_files.specs.Prelude.{kind_word, number_word};

use rr_graph::NodeKind;

/// Whether the row of a strip with this number of rows is one of pads.
pub(crate) fn is_pad_row(rows: u32, y: u32) -> bool
    ensures { result ≡ (y == 0 || nat_lt rows y) }
{
    y == 0 || rows < y
}

/// The word for a kind, and the text up to the column.
pub(crate) fn kind_start(kind: NodeKind) -> &'static [u8]
    ensures { result.now ≡ kind_word kind ++ codes " (" }
{
    match kind {
        NodeKind::Source => b"SOURCE (",
        NodeKind::Sink => b"SINK (",
        NodeKind::Opin => b"OPIN (",
        NodeKind::Ipin => b"IPIN (",
        NodeKind::ChanX => b"CHANX (",
        NodeKind::ChanY => b"CHANY (",
    }
}

/// The text between the row and the number.
pub(crate) fn number_start(kind: NodeKind, pad: bool) -> &'static [u8]
    ensures { result.now ≡ codes ") " ++ number_word kind pad ++ codes " " }
{
    match kind {
        NodeKind::ChanX | NodeKind::ChanY => b") Track: ",
        _ if pad => b") Pad: ",
        NodeKind::Source | NodeKind::Sink => b") Class: ",
        NodeKind::Opin | NodeKind::Ipin => b") Pin: ",
    }
}
