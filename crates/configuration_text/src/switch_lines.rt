//! The lines of switches.
ghost use Rattle.std.specs.Prelude.{◌≡◌, ◌++◌, [], IfOk, map};
ghost use Rattle.std.specs.List.{filter};
ghost use Rattle.configuration_text.specs.Prelude.{each_once, is_switch, switch_lines, lines_text, Switch, pairs_of, steps_of};

use crate::line_bytes::push_switch;
use crate::nodes::is_new_switch;
use layouts::LaidNet;
use rr_graph::Node;
use std::alloc::{AllocError, Global};

/// Appends the lines of the switches of a net's tree, each once, in the order of its paths. If
/// memory runs out, the text has a beginning of them.
pub fn push_switches(alloc: Global, text: &mut Vec<u8>, between: &LaidNet) -> Result<(), AllocError>
    ensures { IfOk result (λ _.
        text.new.items ≡ text.old.items ++ lines_text (switch_lines between.now)) }
{
    let mut seen = Vec::new(alloc);
    let paths = between.paths();
    for path in paths {
        push_path(text, path.nodes(), &mut seen)?;
    }
    Ok(())
}

/// Appends the lines of the switches of the path that are not seen yet.
fn push_path(
    text: &mut Vec<u8>,
    path: &[Node],
    seen: &mut Vec<(Node, Node)>,
) -> Result<(), AllocError>
    ensures text { IfOk result (λ _. text.new.items
        ≡ text.old.items ++ lines_text (map (λ edge. Switch edge.0 edge.1)
        (each_once seen.old.items (filter is_switch (steps_of path.now))))) }
    ensures seen { IfOk result (λ _. seen.new.items
        ≡ seen.old.items ++ each_once seen.old.items (filter is_switch (steps_of path.now))) }
{
    for place in 0..path.len().saturating_sub(1) {
        let from = path[place];
        let to = path[place + 1];
        if is_new_switch(from, to, seen.as_slice()) {
            push_switch(text, from, to)?;
            seen.push((from, to))?;
        }
    }
    Ok(())
}
