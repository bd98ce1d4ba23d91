//! Whether the pads are the circuit's inputs and outputs.
ghost use Rattle.std.specs.Prelude.{◌≡◌, IfOk, MatchBool};
ghost use Rattle.std.specs.List.{flat_map};
ghost use Rattle.layout_check.specs.Pads.{pad_nets};

use crate::entry::same_numbers;
use cluster::Block;
use layouts::LaidBlock;
use std::alloc::{AllocError, Global};

/// What a pad is for.
#[derive(Clone, Copy)]
pub(crate) enum PadUse {
    /// It brings in a net.
    Input,
    /// It takes out a net.
    Output,
}

/// Whether the nets of the pads for that use are these, in the order of the blocks.
pub(crate) fn has_pads(
    alloc: Global,
    blocks: &[LaidBlock],
    pads: PadUse,
    nets: &[u32],
) -> Result<bool, AllocError>
    ensures { IfOk result (λ is. MatchBool is
        (flat_map (λ laid. pad_nets pads laid.block) blocks.now ≡ nets.now)
        (flat_map (λ laid. pad_nets pads laid.block) blocks.now ≡ nets.now → ⊥)) }
{
    let mut found = Vec::new(alloc);
    for block in blocks {
        match (block.block(), pads) {
            (Block::InputPad(net), PadUse::Input) => found.push(net as usize)?,
            (Block::OutputPad(net), PadUse::Output) => found.push(net as usize)?,
            _ => {}
        }
    }
    Ok(same_numbers(nets, found.as_slice()))
}
