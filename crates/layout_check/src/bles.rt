//! Whether nets come to the inputs of BLEs.
ghost use Rattle.std.specs.Prelude.{◌≡◌, ◌<◌, ℕ, All, MatchBool, MatchOption, None, Some, is_some, slice_get, true};
ghost use Rattle.std.specs.Option.{ForSome};
ghost use Rattle.layout_check.specs.Prelude.{Clock, Output, Feed as FeedValue, IsNarrowBle, IsFed, LaidBle as BleValue, input_net, on_pin};
ghost use Rattle.layout_check.specs.BlockFaults.{IsBleFault};

use crate::fault::BleFault;
use crate::inside::{input_net, is_net, on_pin};
use arch_file::{Arch, PinClass};
use implements::Feed;
use layouts::{LaidBle, LaidBlock};

/// The first input to which no net comes.
fn first_unfed(arch: &Arch, block: &LaidBlock, inputs: &[Feed]) -> Option<usize>
    ensures { MatchOption result
        (All (λ feed. is_some (input_net arch.now block.now feed) ≡ true) inputs.now)
        (λ k. (feed : FeedValue) × (slice_get inputs.now k ≡ Some feed)
        × (input_net arch.now block.now feed ≡ None)) }
{
    for (k, feed) in inputs.iter().enumerate() {
        if input_net(arch, block, *feed).is_none() {
            return Some(k);
        }
    }
    None
}

/// Whether a net comes to the clock pin, if there is one.
fn has_clock(arch: &Arch, block: &LaidBlock, clock: Option<usize>) -> bool
    ensures { MatchBool result
        (ForSome clock (λ pin. is_some (on_pin arch.now block.now Clock pin) ≡ true))
        ((pin : ℕ) × (clock ≡ Some pin) × (on_pin arch.now block.now Clock pin ≡ None)) }
{
    match clock {
        Some(pin) => on_pin(arch, block, PinClass::Clock, pin).is_some(),
        None => true,
    }
}

/// Whether the output pin carries the net, if there is one.
fn has_output(arch: &Arch, block: &LaidBlock, name: u32, output: Option<usize>) -> bool
    ensures { MatchBool result
        (ForSome output (λ pin. on_pin arch.now block.now Output pin ≡ Some name))
        ((pin : ℕ) × (output ≡ Some pin) × (on_pin arch.now block.now Output pin ≡ Some name → ⊥)) }
{
    match output {
        Some(pin) => is_net(name, on_pin(arch, block, PinClass::Output, pin)),
        None => true,
    }
}

/// Finds what is wrong with the inputs and pins of a BLE.
fn check_ble(arch: &Arch, block: &LaidBlock, ble: &LaidBle) -> Option<BleFault>
    ensures { MatchOption result (IsFed arch.now block.now ble.now × IsNarrowBle arch.now ble.now)
        (IsBleFault arch.now block.now ble.now) }
{
    let inputs = ble.inputs();
    if inputs.len() > arch.lut_size as usize {
        return Some(BleFault::TooManyInputs);
    }
    if let Some(k) = first_unfed(arch, block, inputs) {
        return Some(BleFault::NoInput(k));
    }
    if !has_clock(arch, block, ble.clock()) {
        return Some(BleFault::NoClock);
    }
    if !has_output(arch, block, ble.name(), ble.output()) {
        return Some(BleFault::WrongOutput);
    }
    None
}

/// The first of the BLEs that has a fault.
pub(crate) fn check_bles(
    arch: &Arch,
    block: &LaidBlock,
    bles: &[LaidBle],
) -> Option<(usize, BleFault)>
    ensures { MatchOption result
        (All (IsFed arch.now block.now) bles.now × All (IsNarrowBle arch.now) bles.now)
        (λ found. (ble : BleValue) × (slice_get bles.now found.0 ≡ Some ble) × IsBleFault arch.now block.now ble found.1) }
{
    for (number, ble) in bles.iter().enumerate() {
        if let Some(fault) = check_ble(arch, block, ble) {
            return Some((number, fault));
        }
    }
    None
}
