//! The lines of blocks.
ghost use Rattle.std.specs.Prelude.{◌≡◌, ◌++◌, IfOk};
ghost use Rattle.configuration_text.specs.Prelude.{block_lines, lines_text};

use crate::ble_lines::{Seat, push_ble};
use crate::ble_places::ble_numbers;
use crate::design::Design;
use crate::feeds::place_at;
use crate::line_bytes::{push_pad_in, push_pad_out};
use crate::pins::global_number;
use cluster::Block;
use layouts::LaidBlock;
use std::alloc::{AllocError, Global};

/// Appends the lines of a block.
pub(crate) fn push_block(
    alloc: Global,
    text: &mut Vec<u8>,
    design: Design<'_>,
    laid: &LaidBlock,
) -> Result<(), AllocError>
    ensures { IfOk result (λ _. text.new.items ≡ text.old.items
        ++ lines_text (block_lines design.entry.netlist.now design.entry.circuit.now
        design.entry.arch.now design.entry.layout.now laid.now)) }
{
    match laid.block() {
        Block::InputPad(_) => push_pad_in(text, laid.place()),
        Block::OutputPad(net) => {
            push_pad_out(text, laid.place(), global_number(design.layout, net))
        }
        Block::Cluster(_) => {
            let places = ble_numbers(alloc, design.arch, design.layout, laid)?;
            let numbers = places.as_slice();
            for (index, ble) in laid.bles().iter().enumerate() {
                let place = place_at(laid, numbers, index);
                push_ble(alloc, text, design, Seat { laid, ble, place }, numbers)?;
            }
            Ok(())
        }
    }
}
