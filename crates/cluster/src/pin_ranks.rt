//! The ranks of pins in their classes.
ghost use Rattle.std.specs.Prelude.{◌≡◌, [], IfOk};
ghost use Rattle.cluster.specs.ClusterPins.{pin_ranks};

use arch_file::{Pin, PinClass};
use std::alloc::{AllocError, Global};

/// For each pin, the number of pins of its class before it.
pub(crate) fn ranks_of(alloc: Global, pins: &[Pin]) -> Result<Vec<usize>, AllocError>
    ensures { IfOk result (λ ranks. ranks.items ≡ pin_ranks pins.now) }
{
    let mut ranks = Vec::with_capacity(alloc, pins.len())?;
    match add_ranks(&mut ranks, pins) {
        Ok(()) => Ok(ranks),
        Err(error) => {
            drop(ranks);
            Err(error)
        }
    }
}

/// Adds the rank of each pin to an empty list.
fn add_ranks(ranks: &mut Vec<usize>, pins: &[Pin]) -> Result<(), AllocError>
    requires { ranks.old.items ≡ [] }
    ensures { IfOk result (λ _. ranks.new.items ≡ pin_ranks pins.now) }
{
    let mut inputs = 0;
    let mut outputs = 0;
    let mut clocks = 0;
    for pin in pins {
        match pin.class {
            PinClass::Input => {
                ranks.push(inputs)?;
                inputs += 1;
            }
            PinClass::Output => {
                ranks.push(outputs)?;
                outputs += 1;
            }
            PinClass::Clock => {
                ranks.push(clocks)?;
                clocks += 1;
            }
        }
    }
    Ok(())
}
