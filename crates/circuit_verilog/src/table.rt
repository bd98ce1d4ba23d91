//! The module of tables.
ghost use Rattle.std.specs.Prelude.{◌≡◌, ◌++◌, ◌+◌, ◌<◌, ◌≤◌, ◌^◌, ◌-◌, OnOk};
ghost use Rattle.std.specs.List.{flat_map, range_with_len};
ghost use Rattle.arch_file.specs.declared.arch.TheConstants.{MAX_LUT_SIZE};
ghost use Rattle.circuit_verilog.specs.Parts.{level_line, table_head, table_module};

use crate::parts::push_parts;
use std::alloc::AllocError;
use text_parts::Part;

/// Appends the module of tables with this number of inputs.
pub(crate) fn push_table_module(text: &mut Vec<u8>, width: u32) -> Result<(), AllocError>
    requires { width ≤ MAX_LUT_SIZE }
    ensures { OnOk result (text.new.items ≡ text.old.items ++ table_module width) }
{
    push_head(text, width)?;
    push_levels(text, width)?;
    push_parts(text, &[Part::Text("  assign o = v0[0];\nendmodule\n\n")])
}

/// `2^width`.
pub(crate) fn bit_count(width: u32) -> u64
    requires { width ≤ MAX_LUT_SIZE }
    ensures { result ≡ 2 ^ width }
{
    1u64 << width
}

/// Appends the head of the module.
fn push_head(text: &mut Vec<u8>, width: u32) -> Result<(), AllocError>
    requires { width ≤ MAX_LUT_SIZE }
    ensures { OnOk result (text.new.items ≡ text.old.items ++ table_head width) }
{
    let last = bit_count(width) - 1;
    push_parts(
        text,
        &[
            Part::Text("module \\#table (o, i);\n  parameter [0:"),
            Part::Long(last),
            Part::Text("] bits = 0;\n  output o;\n  input [0:"),
            Part::Number(width),
            Part::Text("] i;\n  wire [0:"),
            Part::Long(last),
            Part::Text("] v"),
            Part::Number(width),
            Part::Text(" = bits;\n"),
        ],
    )
}

/// Appends the lines that choose, from the last input to the first.
fn push_levels(text: &mut Vec<u8>, width: u32) -> Result<(), AllocError>
    requires { width ≤ MAX_LUT_SIZE }
    ensures { OnOk result (text.new.items ≡ text.old.items
        ++ flat_map (level_line width) (range_with_len 0 width)) }
{
    for place in 0..width {
        push_level(text, width, place)?;
    }
    Ok(())
}

/// Appends the line that chooses by the input at this place from the end.
fn push_level(text: &mut Vec<u8>, width: u32, place: u32) -> Result<(), AllocError>
    requires width { width ≤ MAX_LUT_SIZE }
    requires place { place < width }
    ensures { OnOk result (text.new.items ≡ text.old.items ++ level_line width place) }
{
    let input = width - (place + 1);
    let half = bit_count(input);
    let all = bit_count(input + 1);
    push_parts(
        text,
        &[
            Part::Text("  wire [0:"),
            Part::Long(half - 1),
            Part::Text("] v"),
            Part::Number(input),
            Part::Text(" = i["),
            Part::Number(input),
            Part::Text("] ? v"),
            Part::Number(input + 1),
            Part::Text("["),
            Part::Long(half),
            Part::Text(":"),
            Part::Long(all - 1),
            Part::Text("] : v"),
            Part::Number(input + 1),
            Part::Text("[0:"),
            Part::Long(half - 1),
            Part::Text("];\n"),
        ],
    )
}
