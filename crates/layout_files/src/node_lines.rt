//! The lines of nodes in a `.route` file.
ghost use Rattle.std.specs.Prelude.{◌≡◌, ◌≤◌, ◌-◌};
ghost use Rattle.layout_files.specs.Cursors.{size};
ghost use Rattle.layout_files.specs.ReadingRoutes.{IsCountedRead, IsKindRead, IsNodeRead};

use crate::cursor::Cursor;
use rr_graph::{Node, NodeKind};
use strip_files::Fault;

/// Reads the line of a node: `KIND (COLUMN,ROW) WORD NUMBER`.
pub(crate) fn read_node(cursor: &mut Cursor<'_>) -> Node
    ensures read { IsNodeRead cursor.old result cursor.new }
    ensures shorter { size cursor.new ≤ size cursor.old - 1 }
{
    let kind = read_kind(cursor);
    cursor.expect(Fault::BadNode);
    let x = cursor.number();
    cursor.text(",");
    let y = cursor.number();
    read_counted(cursor);
    let n = cursor.number();
    cursor.text("\n");
    Node { x, kind, y, n }
}

/// Reads the word for a kind, up to the column.
fn read_kind(cursor: &mut Cursor<'_>) -> NodeKind
    ensures read { IsKindRead cursor.old result cursor.new }
    ensures shorter { size cursor.new ≤ size cursor.old - 1 }
{
    if cursor.takes("SOURCE (") {
        return NodeKind::Source;
    }
    if cursor.takes("SINK (") {
        return NodeKind::Sink;
    }
    if cursor.takes("OPIN (") {
        return NodeKind::Opin;
    }
    if cursor.takes("IPIN (") {
        return NodeKind::Ipin;
    }
    if cursor.takes("CHANX (") {
        return NodeKind::ChanX;
    }
    cursor.expect(Fault::UnknownLine);
    cursor.text("CHANY (");
    NodeKind::ChanY
}

/// Reads the word between the row and the number.
fn read_counted(cursor: &mut Cursor<'_>)
    ensures read { IsCountedRead cursor.old cursor.new }
    ensures shorter { size cursor.new ≤ size cursor.old }
{
    if cursor.takes(") Track: ") || cursor.takes(") Pin: ") || cursor.takes(") Pad: ") {
        return;
    }
    cursor.text(") Class: ");
}
