//! The table and the latch of a BLE.
ghost use Rattle.std.specs.Prelude.{◌≡◌, ◌++◌, ◌^◌, ◌≤◌, OnOk, slice_get};
ghost use Rattle.std.specs.List.{flat_map};
ghost use Rattle.arch_file.specs.declared.arch.TheConstants.{MAX_LUT_SIZE};
ghost use Rattle.configuration.specs.Configuration.{latch_driving};
ghost use Rattle.circuit_verilog.specs.Parts.{input_text, inputs_text};
ghost use Rattle.circuit_verilog.specs.Verilog.{ble_text, block_text, state_text, table_front, table_middle, table_text};

use crate::latch::push_state;
use crate::parts::push_parts;
use crate::table::bit_count;
use configuration_text::{Design, latch_driving, nets_in, push_table_bits};
use layouts::{LaidBle, LaidBlock};
use std::alloc::{AllocError, Global};
use text_parts::Part;

/// Appends the BLEs of a block: the table of each, and then its latch.
pub(crate) fn push_block(
    alloc: Global,
    text: &mut Vec<u8>,
    design: Design<'_>,
    laid: &LaidBlock,
) -> Result<(), AllocError>
    requires { design.arch.now.lut_size ≤ MAX_LUT_SIZE }
    ensures { OnOk result (text.new.items ≡ text.old.items
        ++ block_text design.entry.netlist.now design.entry.circuit.now design.entry.arch.now
        laid.now) }
{
    for ble in laid.bles() {
        push_table(alloc, text, design, laid, ble)?;
        push_latch(text, design, laid, ble)?;
    }
    Ok(())
}

/// Appends the latch of a BLE, or that it has none.
fn push_latch(
    text: &mut Vec<u8>,
    design: Design<'_>,
    laid: &LaidBlock,
    ble: &LaidBle,
) -> Result<(), AllocError>
    ensures { OnOk result (text.new.items ≡ text.old.items
        ++ state_text design.entry.netlist.now design.entry.arch.now laid.now ble.now
        (latch_driving design.entry.circuit.now ble.now.name)) }
{
    let latch = latch_driving(design.circuit, ble.name());
    push_state(text, design.netlist, design.arch, laid, ble, latch)
}

/// Appends the table of a BLE.
fn push_table(
    alloc: Global,
    text: &mut Vec<u8>,
    design: Design<'_>,
    laid: &LaidBlock,
    ble: &LaidBle,
) -> Result<(), AllocError>
    requires { design.arch.now.lut_size ≤ MAX_LUT_SIZE }
    ensures { OnOk result (text.new.items ≡ text.old.items
        ++ table_text design.entry.netlist.now design.entry.circuit.now design.entry.arch.now
        laid.now ble.now) }
{
    let inputs = nets_in(alloc, design.arch, laid, ble)?;
    let nets = inputs.as_slice();
    push_front(text, ble, design.arch.lut_size)?;
    push_table_bits(text, design, laid, ble, nets)?;
    push_middle(text, ble)?;
    push_inputs(text, nets, design.arch.lut_size)?;
    push_parts(text, &[Part::Text("1'b0}));\n")])
}

/// Appends what comes before the bits of the table of a BLE.
fn push_front(text: &mut Vec<u8>, ble: &LaidBle, width: u32) -> Result<(), AllocError>
    requires { width ≤ MAX_LUT_SIZE }
    ensures { OnOk result (text.new.items ≡ text.old.items ++ table_front ble.now.name width) }
{
    push_parts(
        text,
        &[
            Part::Text("  wire \\#t"),
            Part::Number(ble.name()),
            Part::Text(" ;\n  \\#table #(.bits("),
            Part::Long(bit_count(width)),
            Part::Text("'b"),
        ],
    )
}

/// Appends what is between the bits of the table of a BLE and its inputs.
fn push_middle(text: &mut Vec<u8>, ble: &LaidBle) -> Result<(), AllocError>
    ensures { OnOk result (text.new.items ≡ text.old.items ++ table_middle ble.now.name) }
{
    let net = ble.name();
    push_parts(
        text,
        &[
            Part::Text(")) \\#u"),
            Part::Number(net),
            Part::Text(" (.o(\\#t"),
            Part::Number(net),
            Part::Text(" ), .i({"),
        ],
    )
}

/// Appends the first inputs of a table to which these nets come, `width` of them.
fn push_inputs(text: &mut Vec<u8>, nets: &[u32], width: u32) -> Result<(), AllocError>
    ensures { OnOk result (text.new.items ≡ text.old.items ++ inputs_text width nets.now) }
{
    for place in 0..width {
        push_input_at(text, nets, place as usize)?;
    }
    Ok(())
}

/// Appends the input at an index of a table to which these nets come.
fn push_input_at(text: &mut Vec<u8>, nets: &[u32], place: usize) -> Result<(), AllocError>
    ensures { OnOk result (text.new.items ≡ text.old.items
        ++ input_text (slice_get nets.now place)) }
{
    push_input(text, net_at(nets, place))
}

/// The net at an index, if there is one.
fn net_at(nets: &[u32], place: usize) -> Option<u32>
    ensures { result ≡ slice_get nets.now place }
{
    match nets.get(place) {
        Some(net) => Some(*net),
        None => None,
    }
}

/// Appends an input of a table.
fn push_input(text: &mut Vec<u8>, net: Option<u32>) -> Result<(), AllocError>
    ensures { OnOk result (text.new.items ≡ text.old.items ++ input_text net) }
{
    match net {
        Some(net) => push_parts(
            text,
            &[Part::Text("\\#"), Part::Number(net), Part::Text(" , ")],
        ),
        None => push_parts(text, &[Part::Text("1'b0, ")]),
    }
}
