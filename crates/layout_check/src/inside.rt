//! The nets on the pins of a block and at the inputs of its BLEs.
ghost use Rattle.std.specs.Prelude.{◌≡◌, option_and_then, slice_get, false};
ghost use Rattle.std.specs.Option.{option_map_or};
ghost use Rattle.layout_check.specs.Prelude.{is_same_class, input_net, on_pin, is_net};

use arch_file::{Arch, PinClass};
use implements::Feed;
use layouts::LaidBlock;

/// Whether the two classes are equal.
fn is_class(class: PinClass, other: PinClass) -> bool
    ensures { result ≡ is_same_class class other }
{
    match (class, other) {
        (PinClass::Input, PinClass::Input) => true,
        (PinClass::Output, PinClass::Output) => true,
        (PinClass::Clock, PinClass::Clock) => true,
        _ => false,
    }
}

/// Whether the pin is of this class.
fn has_class(arch: &Arch, class: PinClass, pin: usize) -> bool
    ensures { result ≡ option_map_or (λ found. is_same_class class found.class)
        (slice_get arch.now.pins pin) false }
{
    match arch.pins.as_slice().get(pin) {
        Some(found) => is_class(class, found.class),
        None => false,
    }
}

/// The net on a pin of the block.
fn net_on(block: &LaidBlock, pin: usize) -> Option<u32>
    ensures { result ≡ option_and_then (λ net. net) (slice_get block.now.pins pin) }
{
    match block.pins().get(pin) {
        Some(net) => *net,
        None => None,
    }
}

/// The net on a pin of the block, if the pin is of this class.
pub(crate) fn on_pin(arch: &Arch, block: &LaidBlock, class: PinClass, pin: usize) -> Option<u32>
    ensures { result ≡ on_pin arch.now block.now class pin }
{
    if has_class(arch, class, pin) {
        net_on(block, pin)
    } else {
        None
    }
}

/// The net that comes to an input of a BLE.
pub(crate) fn input_net(arch: &Arch, block: &LaidBlock, feed: Feed) -> Option<u32>
    ensures { result ≡ input_net arch.now block.now feed }
{
    match feed {
        Feed::Pin(pin) => on_pin(arch, block, PinClass::Input, pin),
        Feed::Ble(place) => match block.bles().get(place) {
            Some(ble) => Some(ble.name()),
            None => None,
        },
    }
}

/// Whether it is that net.
pub(crate) fn is_net(net: u32, carried: Option<u32>) -> bool
    ensures { result ≡ is_net net carried }
{
    match carried {
        Some(other) => other == net,
        None => false,
    }
}
