//! Where nets are used, and the blocks that a global net has to list.
use crate::subject::Subject;
use arch_file::PinClass;
use cluster::Block;
use layouts::LaidBlock;

/// The net that is wanted on the pin of a block with this number: it is an input or the clock.
fn wanted_on(subject: Subject<'_>, laid: &LaidBlock, pin: usize) -> Option<u32> {
    let class = subject.arch.pins.as_slice().get(pin)?.class;
    match class {
        PinClass::Input | PinClass::Clock => *laid.pins().get(pin)?,
        PinClass::Output => None,
    }
}

/// Whether the net is used at the block: at its output pad, on an input pin or on the clock pin.
pub(crate) fn uses(subject: Subject<'_>, laid: &LaidBlock, net: u32) -> bool {
    match laid.block() {
        Block::InputPad(_) => false,
        Block::OutputPad(output) => output == net,
        Block::Cluster(_) => is_on_pin(subject, laid, net),
    }
}

fn is_on_pin(subject: Subject<'_>, laid: &LaidBlock, net: u32) -> bool {
    for pin in 0..laid.pins().len() {
        if wanted_on(subject, laid, pin) == Some(net) {
            return true;
        }
    }
    false
}

/// The first net that is used at the block and has no entry.
pub(crate) fn net_without_entry(subject: Subject<'_>, laid: &LaidBlock) -> Option<u32> {
    match laid.block() {
        Block::InputPad(_) => None,
        Block::OutputPad(output) => Some(output),
        Block::Cluster(_) => net_on_pin_without_entry(subject, laid),
    }
}

fn net_on_pin_without_entry(subject: Subject<'_>, laid: &LaidBlock) -> Option<u32> {
    for pin in 0..laid.pins().len() {
        if let Some(net) = wanted_on(subject, laid, pin) {
            if !has_entry(subject, net) {
                return Some(net);
            }
        }
    }
    None
}

fn has_entry(subject: Subject<'_>, net: u32) -> bool {
    for between in subject.layout.nets() {
        if between.net() == net {
            return true;
        }
    }
    false
}

/// Whether the net controls a latch.
pub(crate) fn is_global(subject: Subject<'_>, net: u32) -> bool {
    for latch in subject.circuit.latches.as_slice() {
        if latch.control == Some(net) {
            return true;
        }
    }
    false
}

/// Where a list of blocks differs from the list that a global net has to have.
#[derive(Clone, Copy)]
pub(crate) struct Difference {
    /// The place in the list.
    pub(crate) index: usize,
    /// The block that has to be there. None if the list has to end before.
    pub(crate) expected: Option<usize>,
}

/// The first difference of a list from the one of the global net's blocks: the one that drives it,
/// and then the others that use it, in the order of their numbers.
pub(crate) fn first_difference(
    subject: Subject<'_>,
    net: u32,
    driver: usize,
    listed: &[u32],
) -> Option<Difference> {
    if !is_at(listed, 0, driver) {
        return Some(differs(0, Some(driver)));
    }
    let mut index = 1_usize;
    for (block, laid) in subject.layout.blocks().iter().enumerate() {
        if block != driver && uses(subject, laid, net) {
            if !is_at(listed, index, block) {
                return Some(differs(index, Some(block)));
            }
            index = index.saturating_add(1);
        }
    }
    if index < listed.len() {
        return Some(differs(index, None));
    }
    None
}

/// Whether the block with this number is at that index of the list.
fn is_at(listed: &[u32], index: usize, block: usize) -> bool {
    match listed.get(index) {
        Some(number) => *number as usize == block,
        None => false,
    }
}

fn differs(index: usize, expected: Option<usize>) -> Difference {
    Difference { index, expected }
}
