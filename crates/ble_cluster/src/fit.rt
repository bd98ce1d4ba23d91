//! Finds BLEs that don't fit into a cluster alone.
ghost use Rattle.std.specs.Prelude.{◌≡◌};
ghost use Rattle.ble_cluster.specs.Prelude.{IsArch};
ghost use Rattle.ble_cluster.specs.Clusters.{unfit_among};
ghost use Rattle.ble_cluster.specs.FreeBles.{AreBles};

use crate::bles::Bles;
use crate::keys::outside_inputs;
use crate::pins::input_count;
use arch_file::Arch;

/// The least BLE that doesn't fit into a cluster alone. The numbers of the BLEs' nets are below
/// `count`.
pub fn first_unfit(bles: &Bles, count: usize, arch: &Arch) -> Option<u32>
    requires bles { AreBles count bles.now }
    requires arch { IsArch arch.now }
    ensures { result ≡ unfit_among arch.now bles.now }
{
    let pins = input_count(arch);
    for number in 0..bles.len() {
        if outside_inputs(bles.ble(number)) > pins {
            return Some(number as u32);
        }
    }
    None
}
