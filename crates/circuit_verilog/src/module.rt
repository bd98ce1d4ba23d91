//! The whole text.
ghost use Rattle.std.specs.Prelude.{◌≡◌, ◌++◌, ◌≤◌, IfOk, OnOk};
ghost use Rattle.std.specs.List.{flat_map};
ghost use Rattle.arch_file.specs.declared.arch.TheConstants.{MAX_LUT_SIZE};
ghost use Rattle.circuit_verilog.specs.Verilog.{block_text, verilog_of};

use crate::ble::push_block;
use crate::parts::push_parts;
use crate::ports::{NetText, push_declarations, push_inputs, push_module_head, push_outputs};
use crate::table::push_table_module;
use arch_file::MAX_LUT_SIZE;
use configuration_text::Design;
use std::alloc::{AllocError, Global};
use text_parts::Part;

/// The Verilog of a device that is configured by the design's layout, byte by byte, or that memory
/// ran out.
pub fn verilog_text(alloc: Global, design: Design<'_>) -> Result<Vec<u8>, AllocError>
    ensures { IfOk result (λ text. text.items ≡ verilog_of design.entry.netlist.now
        design.entry.circuit.now design.entry.arch.now design.entry.layout.now) }
{
    if design.arch.lut_size > MAX_LUT_SIZE {
        return Err(AllocError);
    }
    let mut text = Vec::new(alloc);
    push_all(alloc, &mut text, design)?;
    Ok(text)
}

/// Appends all of it.
fn push_all(alloc: Global, text: &mut Vec<u8>, design: Design<'_>) -> Result<(), AllocError>
    requires { design.arch.now.lut_size ≤ MAX_LUT_SIZE }
    ensures { OnOk result (text.new.items ≡ text.old.items ++ verilog_of design.entry.netlist.now
        design.entry.circuit.now design.entry.arch.now design.entry.layout.now) }
{
    push_table_module(text, design.arch.lut_size)?;
    push_module_head(alloc, text, design.netlist, design.circuit)?;
    push_declarations(text, design.netlist, design.circuit)?;
    push_inputs(text, design.circuit, NetText::Drives)?;
    push_blocks(alloc, text, design)?;
    push_outputs(text, design.circuit, NetText::Shows)?;
    push_parts(text, &[Part::Text("endmodule\n")])
}

/// Appends the BLEs of all blocks.
fn push_blocks(alloc: Global, text: &mut Vec<u8>, design: Design<'_>) -> Result<(), AllocError>
    requires { design.arch.now.lut_size ≤ MAX_LUT_SIZE }
    ensures { OnOk result (text.new.items ≡ text.old.items
        ++ flat_map (block_text design.entry.netlist.now design.entry.circuit.now
        design.entry.arch.now) design.entry.layout.now.blocks) }
{
    for laid in design.layout.blocks() {
        push_block(alloc, text, design, laid)?;
    }
    Ok(())
}
