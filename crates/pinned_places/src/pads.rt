//! The pads of pins.
ghost use Rattle.std.specs.Prelude.{◌≡◌, ◌==◌, [], find};
ghost use Rattle.pinned_places.specs.Prelude.{keys_of, key_of, IsStripSize, is_same_place, pin_read, pins_read};
ghost use Rattle.pinned_places.specs.Pads.{is_out_named, is_pad_named, is_pad_place, pad_number, pad_of, pads_after};
ghost use Rattle.pinned_places.specs.Results.{GivesPads};

use crate::fault::{PinFault, PinFaultKind, PinsError};
use cluster::{BlockKey, BlockKind, Packed};
use grid::{Place, Strip};
use line_text::is_word;
use pin_file::PinLine;
use std::alloc::Global;

/// A pad, and the place that it is to have.
#[derive(Clone, Copy)]
pub struct FixedPad {
    /// The number of the line that wants it.
    pub line: u32,
    /// The pad's block.
    pub block: usize,
    pub place: Place,
}

/// The pads of pins, in their order. Fails at the first pin that can't be met.
pub(crate) fn pads_of(
    alloc: Global,
    packed: &Packed,
    strip: Strip,
    pins: &[PinLine<'_>],
) -> Result<Vec<FixedPad>, PinsError>
    requires { IsStripSize strip }
    ensures { GivesPads (pads_after packed.now strip [] (pins_read pins.now)) result }
{
    let mut pads = Vec::new(alloc);
    for pin in pins {
        match pad_of(packed, strip, pads.as_slice(), *pin) {
            Ok(pad) => pads.push(pad)?,
            Err(fault) => return Err(PinsError::Fault(fault)),
        }
    }
    Ok(pads)
}

/// The pad of a pin that follows these pads.
fn pad_of(
    packed: &Packed,
    strip: Strip,
    before: &[FixedPad],
    pin: PinLine<'_>,
) -> Result<FixedPad, PinFault>
    requires { IsStripSize strip }
    ensures { result ≡ pad_of packed.now strip before.now (pin_read pin.entry) }
{
    let Some(block) = pad_number(packed, pin.name) else {
        return Err(refusal(pin.line, PinFaultKind::NoPad));
    };
    if !is_pad_place(strip, pin.place) {
        return Err(refusal(pin.line, PinFaultKind::NoPlace));
    }
    if let Some(earlier) = same_block(before, block) {
        return Err(refusal(pin.line, PinFaultKind::NamedBefore(earlier.line)));
    }
    if let Some(earlier) = same_place(before, pin.place) {
        return Err(refusal(pin.line, PinFaultKind::TakenBefore(earlier.line)));
    }
    Ok(FixedPad {
        line: pin.line,
        block,
        place: pin.place,
    })
}

/// The refusal of the pin on that line.
fn refusal(line: u32, kind: PinFaultKind) -> PinFault
    ensures { result ≡ record { line = line; kind = kind } }
{
    PinFault { line, kind }
}

/// The first of the pads that is that block.
fn same_block(pads: &[FixedPad], block: usize) -> Option<FixedPad>
    ensures { result ≡ find (λ pad. pad.block == block) pads.now }
{
    pads.iter().find(|pad| pad.block == block).copied()
}

/// The first of the pads that has that place.
fn same_place(pads: &[FixedPad], place: Place) -> Option<FixedPad>
    ensures { result ≡ find (λ pad. is_same_place pad.place place) pads.now }
{
    pads.iter()
        .find(|pad| is_same_place(pad.place, place))
        .copied()
}

/// Whether both places are the same.
pub(crate) fn is_same_place(place: Place, other: Place) -> bool
    ensures { result ≡ is_same_place place other }
{
    place.x == other.x && (place.y == other.y && place.subblock == other.subblock)
}

/// Whether the strip has that place for a pad.
fn is_pad_place(strip: Strip, place: Place) -> bool
    requires { IsStripSize strip }
    ensures { result ≡ is_pad_place strip place }
{
    1 <= place.x
        && (place.x <= strip.width
            && ((place.y == 0 || place.y == strip.rows + 1) && place.subblock < strip.io_rat))
}

/// The first pad that has the name.
fn pad_number(packed: &Packed, name: &[u8]) -> Option<usize>
    ensures { result ≡ pad_number packed.now name.now }
{
    for block in 0..packed.block_count() {
        if is_pad_named(packed.key(block), name) {
            return Some(block);
        }
    }
    None
}

/// Whether the block with that key is a pad with the name.
fn is_pad_named(key: BlockKey<'_>, name: &[u8]) -> bool
    ensures { result ≡ is_pad_named name.now (key_of key.entry) }
{
    match key.kind {
        BlockKind::InputPad => key.name == name,
        BlockKind::OutputPad => key.name == name || is_out_named(key.name, name),
        BlockKind::Cluster => false,
    }
}

/// Whether the name is `out:` and then that net's name.
fn is_out_named(net: &[u8], name: &[u8]) -> bool
    ensures { result ≡ is_out_named net.now name.now }
{
    name.len() >= 4 && (is_word(&name[..4], "out:") && net == &name[4..])
}
