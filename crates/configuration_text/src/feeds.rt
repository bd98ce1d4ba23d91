//! Where the inputs and clocks of BLEs come from.
ghost use Rattle.std.specs.Prelude.{◌≡◌, ◌++◌, IfOk, slice_index};
ghost use Rattle.std.specs.List.{flat_map};
ghost use Rattle.std.specs.Option.{option_to_list};
ghost use Rattle.configuration_text.specs.Prelude.{control_in, signal_for, ble_numbers, input_net, traced_ble};

use crate::pins::{global_number, on_pin, signal_of};
use arch_file::{Arch, PinClass};
use configuration::{BlePlace, Signal};
use implements::Feed;
use layouts::{LaidBle, LaidBlock, Layout};
use std::alloc::{AllocError, Global};

/// What an input of a BLE takes. `numbers` are the places of the block's BLEs.
pub(crate) fn signal_for(
    arch: &Arch,
    layout: &Layout,
    laid: &LaidBlock,
    numbers: &[usize],
    feed: Feed,
) -> Option<Signal>
    requires { numbers.now ≡ ble_numbers arch.now layout.now laid.now }
    ensures { result ≡ signal_for arch.now layout.now laid.now feed }
{
    match feed {
        Feed::Ble(index) => Some(Signal::FromBle(number_at(numbers, index))),
        Feed::Pin(pin) => match on_pin(arch, laid, PinClass::Input, pin) {
            Some(net) => signal_of(layout, laid, net),
            None => None,
        },
    }
}

/// The number at the index; 0 after the last one.
fn number_at(numbers: &[usize], index: usize) -> usize
    ensures { result ≡ slice_index numbers.now index }
{
    match numbers.get(index) {
        Some(number) => *number,
        None => 0,
    }
}

/// The place of the block's BLE at the index. `numbers` are the places of the block's BLEs.
pub(crate) fn place_at(laid: &LaidBlock, numbers: &[usize], index: usize) -> BlePlace
    ensures { result ≡ record {
      x = laid.now.place.x;
      y = laid.now.place.y;
      n = slice_index numbers.now index;
    } }
{
    let place = laid.place();
    BlePlace {
        x: place.x,
        y: place.y,
        n: number_at(numbers, index),
    }
}

/// The net that comes to an input of a BLE.
fn input_net(arch: &Arch, laid: &LaidBlock, feed: Feed) -> Option<u32>
    ensures { result ≡ input_net arch.now laid.now feed }
{
    match feed {
        Feed::Pin(pin) => on_pin(arch, laid, PinClass::Input, pin),
        Feed::Ble(index) => match laid.bles().get(index) {
            Some(ble) => Some(ble.name()),
            None => None,
        },
    }
}

/// The nets that come to the inputs of the BLE.
pub fn nets_in(
    alloc: Global,
    arch: &Arch,
    laid: &LaidBlock,
    ble: &LaidBle,
) -> Result<Vec<u32>, AllocError>
    ensures { IfOk result (λ nets. nets.items ≡ (traced_ble arch.now laid.now ble.now).inputs) }
{
    let mut nets = Vec::new(alloc);
    let feeds = ble.inputs();
    for feed in feeds {
        if let Some(net) = input_net(arch, laid, *feed) {
            nets.push(net)?;
        }
    }
    Ok(nets)
}

/// The number of the global net that controls the BLE's latch.
pub(crate) fn control_in(
    arch: &Arch,
    layout: &Layout,
    laid: &LaidBlock,
    ble: &LaidBle,
) -> Option<usize>
    ensures { result ≡ control_in arch.now layout.now laid.now ble.now }
{
    match clock_of(arch, laid, ble) {
        Some(net) => global_number(layout, net),
        None => None,
    }
}

/// The net that clocks the BLE.
pub fn clock_of(arch: &Arch, laid: &LaidBlock, ble: &LaidBle) -> Option<u32>
    ensures { result ≡ (traced_ble arch.now laid.now ble.now).clock }
{
    match ble.clock() {
        Some(pin) => on_pin(arch, laid, PinClass::Clock, pin),
        None => None,
    }
}
