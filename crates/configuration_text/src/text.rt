//! The whole text.
ghost use Rattle.std.specs.Prelude.{◌≡◌, ◌++◌, IfOk};
ghost use Rattle.std.specs.List.{flat_map};
ghost use Rattle.configuration_text.specs.Prelude.{block_lines, switch_lines, configuration_text, lines_text};

use crate::block_lines::push_block;
use crate::design::Design;
use crate::global_lines::push_globals;
use crate::line_bytes::push_device;
use crate::switch_lines::push_switches;
use layouts::LaidNet;
use std::alloc::{AllocError, Global};

/// The text of the configuration of the design's layout, byte by byte, or that memory ran out.
pub fn configuration_text(alloc: Global, design: Design<'_>) -> Result<Vec<u8>, AllocError>
    ensures { IfOk result (λ text. text.items
        ≡ configuration_text design.entry.netlist.now design.entry.circuit.now
        design.entry.arch.now design.entry.strip design.entry.layout.now) }
{
    let mut text = Vec::new(alloc);
    let arch = design.arch;
    push_device(
        &mut text,
        design.strip.width,
        design.strip.rows,
        arch.tracks,
        arch.lut_size,
    )?;
    push_blocks(alloc, &mut text, design)?;
    push_globals(alloc, &mut text, design)?;
    push_nets(alloc, &mut text, design.layout.nets())?;
    Ok(text)
}

/// Appends the lines of all blocks.
fn push_blocks(alloc: Global, text: &mut Vec<u8>, design: Design<'_>) -> Result<(), AllocError>
    ensures { IfOk result (λ _. text.new.items ≡ text.old.items
        ++ lines_text (flat_map (block_lines design.entry.netlist.now design.entry.circuit.now
        design.entry.arch.now design.entry.layout.now) design.entry.layout.now.blocks)) }
{
    for laid in design.layout.blocks() {
        push_block(alloc, text, design, laid)?;
    }
    Ok(())
}

/// Appends the lines of the switches of all nets' trees.
fn push_nets(alloc: Global, text: &mut Vec<u8>, nets: &[LaidNet]) -> Result<(), AllocError>
    ensures { IfOk result (λ _. text.new.items
        ≡ text.old.items ++ lines_text (flat_map switch_lines nets.now)) }
{
    for between in nets {
        push_switches(alloc, text, between)?;
    }
    Ok(())
}
