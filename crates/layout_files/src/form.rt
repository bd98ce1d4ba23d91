//! What the texts don't print of a layout.
ghost use Rattle.std.specs.Prelude.{◌≡◌, ◌≢◌, All, ◌↔◌, IsTrue, codes, position};
ghost use Rattle.layout_files.specs.LayoutFiles.{EndsAtSink, HasPrintedForm, HasWholePaths, IsBare, is_sink_kind};

use blif::NetNames;
use cluster::Block;
use layouts::{LaidBlock, LaidNet, Layout};
use line_text::is_word;
use rr_graph::{Node, NodeKind};

/// Whether the layout's paths end at their sinks, global nets have no paths, and pads have neither
/// pins nor BLEs.
pub(crate) fn has_printed_form(layout: &Layout) -> bool
    ensures { IsTrue result ↔ HasPrintedForm layout.now }
{
    layout.blocks().iter().all(|laid| is_bare(laid))
        && layout.nets().iter().all(|net| has_whole_paths(net))
}

fn is_bare(laid: &LaidBlock) -> bool
    ensures { IsTrue result ↔ IsBare laid.now }
{
    match laid.block() {
        Block::Cluster(_) => true,
        _ => laid.pins().is_empty() && laid.bles().is_empty(),
    }
}

fn has_whole_paths(net: &LaidNet) -> bool
    ensures { IsTrue result ↔ HasWholePaths net.now }
{
    (net.listed_blocks().is_empty() || net.paths().is_empty())
        && net.paths().iter().all(|path| ends_at_sink(path.nodes()))
}

/// Whether the first sink is the last node.
fn ends_at_sink(path: &[Node]) -> bool
    ensures { IsTrue result ↔ EndsAtSink path.now }
{
    match first_sink(path) {
        Some(place) => place + 1 == path.len(),
        None => false,
    }
}

/// The index of the first sink.
fn first_sink(path: &[Node]) -> Option<usize>
    ensures { result ≡ position (λ node. is_sink_kind node.kind) path.now }
{
    path.iter().position(|node| is_sink(node.kind))
}

/// Whether it is a sink.
pub(crate) fn is_sink(kind: NodeKind) -> bool
    ensures { result ≡ is_sink_kind kind }
{
    match kind {
        NodeKind::Sink => true,
        NodeKind::Source | NodeKind::Opin | NodeKind::Ipin | NodeKind::ChanX | NodeKind::ChanY =>
            false,
    }
}

/// Whether no net is called `open`.
pub(crate) fn none_is_open(names: &NetNames) -> bool
    ensures { IsTrue result ↔ All (λ name. name ≢ codes "open") names.now }
{
    for net in 0..names.len() {
        if is_word(names.name(net), "open") {
            return false;
        }
    }
    true
}
