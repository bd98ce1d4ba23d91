//! The pins of a cluster.
ghost use Rattle.std.specs.Prelude.{◌≡◌};
ghost use Rattle.ble_cluster.specs.Prelude.{input_count};

use arch_file::{Arch, PinClass};

/// The number of a cluster's input pins.
pub(crate) fn input_count(arch: &Arch) -> usize
    ensures { result ≡ input_count arch.now.pins }
{
    let pins = arch.pins.as_slice();
    pins.iter()
        .filter(|pin| pin.class == PinClass::Input)
        .count()
}
