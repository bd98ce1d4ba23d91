//! The bits of tables.
ghost use Rattle.std.specs.Prelude.{◌≡◌, ◌++◌, ◌∷◌, [], ◌^◌, IfOk, drop, map, option_map};
ghost use Rattle.configuration_text.specs.Prelude.{bit_digit, lines_from, rows_at};
ghost use Rattle.configuration_text.specs.Parts.{bits_within, row_words, table_read, values_below, wire_below};

use crate::row_values::{line_index, value_of};
use blif::Table;
use line_text::Lines;
use std::alloc::AllocError;

/// Appends the `2^width` bits of a table that receives these nets, or those of a wire if there is
/// no table.
pub(crate) fn push_bits(
    text: &mut Vec<u8>,
    netlist: &Lines<'_>,
    table: Option<Table<'_>>,
    nets: &[u32],
    width: u32,
) -> Result<(), AllocError>
    ensures { IfOk result (λ _. text.new.items ≡ text.old.items
        ++ map bit_digit (bits_within netlist.now (option_map table_read table.entry) nets.now
        width)) }
{
    let count = bit_count(width)?;
    match table {
        Some(table) => push_values(text, netlist, table, nets, count),
        None => push_wire(text, count),
    }
}

/// `2^width`; memory has no room for a text of this length if it is `2^64` or more.
fn bit_count(width: u32) -> Result<u64, AllocError>
    ensures { IfOk result (λ count. count ≡ 2 ^ width) }
{
    if width < 64 {
        Ok(1u64 << width)
    } else {
        Err(AllocError)
    }
}

/// Appends the first bits of the table.
fn push_values(
    text: &mut Vec<u8>,
    netlist: &Lines<'_>,
    table: Table<'_>,
    nets: &[u32],
    count: u64,
) -> Result<(), AllocError>
    ensures { IfOk result (λ _. text.new.items ≡ text.old.items
        ++ map bit_digit (values_below count (rows_at netlist.now table.entry.line)
        table.entry.inputs.now nets.now)) }
{
    let first = first_row(netlist, table.line);
    push_rows(text, netlist, first, table.inputs, nets, count)
}

/// The index of the line after the one with this number; the number of lines if there is none.
fn first_row(netlist: &Lines<'_>, number: u32) -> usize
    ensures { drop result netlist.now ≡ drop 1 (lines_from netlist.now number) }
{
    let place = line_index(netlist, number);
    if place < netlist.len() {
        place + 1
    } else {
        place
    }
}

/// Appends the first bits of the table whose rows begin at this line.
fn push_rows(
    text: &mut Vec<u8>,
    netlist: &Lines<'_>,
    first: usize,
    inputs: &[u32],
    nets: &[u32],
    count: u64,
) -> Result<(), AllocError>
    ensures { IfOk result (λ _. text.new.items ≡ text.old.items
        ++ map bit_digit (values_below count (row_words (drop first netlist.now)) inputs.now
        nets.now)) }
{
    for number in 0..count {
        push_bit(text, value_of(netlist, first, inputs, nets, number))?;
    }
    Ok(())
}

/// Appends the first bits of a wire: 0 and 1 by turns.
fn push_wire(text: &mut Vec<u8>, count: u64) -> Result<(), AllocError>
    ensures { IfOk result (λ _. text.new.items ≡ text.old.items
        ++ map bit_digit (wire_below count)) }
{
    for number in 0..count {
        push_bit(text, number % 2 == 1)?;
    }
    Ok(())
}

/// Appends a bit.
fn push_bit(text: &mut Vec<u8>, value: bool) -> Result<(), AllocError>
    ensures { IfOk result (λ _. text.new.items ≡ text.old.items ++ bit_digit value ∷ []) }
{
    text.push(if value { b'1' } else { b'0' })?;
    Ok(())
}
