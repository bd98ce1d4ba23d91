//! Whether each net that is wanted at a block has an entry.
ghost use Rattle.std.specs.Prelude.{◌≡◌, ◌<◌, ℕ, All, IfOk, MatchBool, MatchOption, Some, false, length, map, slice_get, true};
ghost use Rattle.std.specs.Option.{option_map_or};
ghost use Rattle.layout_check.specs.Prelude.{has, has_on, wants, LaidBlock as BlockValue, LaidNet as NetValue};
ghost use Rattle.layout_check.specs.Marks.{IsClear, IsSetOf, is_in};

use crate::inside::on_pin;
use crate::marks::Marks;
use arch_file::{Arch, PinClass};
use cluster::Block;
use layouts::{LaidBlock, LaidNet, Layout};
use std::alloc::{AllocError, Global};

/// A number above those of all entries' nets.
pub(crate) fn net_limit(nets: &[LaidNet]) -> usize
    ensures { (k : ℕ) (laid : NetValue) → slice_get nets.now k ≡ Some laid → laid.net < result }
{
    let mut limit = 0;
    for laid in nets {
        let net = laid.net() as usize;
        if net >= limit {
            limit = net + 1;
        }
    }
    limit
}

/// Adds the nets of the entries to the empty set.
fn mark_entries(nets: &[LaidNet], marks: &mut Marks)
    requires within { (k : ℕ) (laid : NetValue) → slice_get nets.now k ≡ Some laid → laid.net < length marks.old }
    requires clear { IsClear marks.old }
    ensures long { length marks.new ≡ length marks.old }
    ensures exact { IsSetOf (map (λ laid. laid.net) nets.now) marks.new }
{
    for laid in nets {
        marks.insert(laid.net() as usize);
    }
}

/// Whether the net has an entry. The limit is the number of the set's numbers.
fn is_entry(marks: &Marks, limit: usize, net: u32) -> bool
    requires { limit ≡ length marks.now }
    ensures { result ≡ is_in marks.now net }
{
    let net = net as usize;
    net < limit && marks.contains(net)
}

/// Whether the net on a pin has an entry, if there is one.
fn is_served(marks: &Marks, limit: usize, carried: Option<u32>) -> bool
    requires { limit ≡ length marks.now }
    ensures { result ≡ option_map_or (is_in marks.now) carried true }
{
    match carried {
        Some(net) => is_entry(marks, limit, net),
        None => true,
    }
}

/// Whether the nets on all pins of this class have entries.
fn are_served(arch: &Arch, block: &LaidBlock, class: PinClass, marks: &Marks, limit: usize) -> bool
    requires { limit ≡ length marks.now }
    ensures { MatchBool result
        ((net : ℕ) → has_on arch.now block.now class net ≡ true → is_in marks.now net ≡ true)
        ((net : ℕ) × (has_on arch.now block.now class net ≡ true) × (is_in marks.now net ≡ false)) }
{
    let count = arch.pins.as_slice().len();
    for pin in 0..count {
        let served = is_served(marks, limit, on_pin(arch, block, class, pin));
        if !served {
            return false;
        }
    }
    true
}

/// Whether the nets that are wanted at the block have entries.
fn is_block_served(arch: &Arch, block: &LaidBlock, marks: &Marks, limit: usize) -> bool
    requires { limit ≡ length marks.now }
    ensures { MatchBool result
        ((net : ℕ) → wants arch.now net block.now ≡ true → is_in marks.now net ≡ true)
        ((net : ℕ) × (wants arch.now net block.now ≡ true) × (is_in marks.now net ≡ false)) }
{
    match block.block() {
        Block::InputPad(_) => true,
        Block::OutputPad(output) => is_entry(marks, limit, output),
        Block::Cluster(_) => {
            are_served(arch, block, PinClass::Input, marks, limit)
                && are_served(arch, block, PinClass::Clock, marks, limit)
        }
    }
}

/// The first block at which a net without entry is wanted.
fn first_unserved(arch: &Arch, blocks: &[LaidBlock], marks: &Marks, limit: usize) -> Option<usize>
    requires { limit ≡ length marks.now }
    ensures { MatchOption result
        (All (λ laid. (net : ℕ) → wants arch.now net laid ≡ true → is_in marks.now net ≡ true) blocks.now)
        (λ number. (laid : BlockValue) × (slice_get blocks.now number ≡ Some laid)
        × (net : ℕ) × (wants arch.now net laid ≡ true) × (is_in marks.now net ≡ false)) }
{
    for (number, block) in blocks.iter().enumerate() {
        if !is_block_served(arch, block, marks, limit) {
            return Some(number);
        }
    }
    None
}

/// The first block at which a net without entry is wanted. Takes memory for the entries' nets.
pub(crate) fn check_wanted(
    alloc: Global,
    arch: &Arch,
    layout: &Layout,
) -> Result<Option<usize>, AllocError>
    ensures { IfOk result (λ found. MatchOption found
        (All (λ laid. (net : ℕ) → wants arch.now net laid ≡ true
        → has (map (λ between. between.net) layout.now.nets) net ≡ true) layout.now.blocks)
        (λ number. (laid : BlockValue) × (slice_get layout.now.blocks number ≡ Some laid)
        × (net : ℕ) × (wants arch.now net laid ≡ true) × (has (map (λ between. between.net) layout.now.nets) net ≡ false))) }
{
    let limit = net_limit(layout.nets());
    let mut marks = Marks::new(alloc, limit)?;
    mark_entries(layout.nets(), &mut marks);
    Ok(first_unserved(arch, layout.blocks(), &marks, limit))
}
