//! Whether a BLE receives just the nets that it should.
ghost use Rattle.std.specs.Prelude.{◌≡◌, ◌<◌, ◌==◌, Contains, MatchOption, count_by, false, true};
ghost use Rattle.std.specs.List.{list_all};
ghost use Rattle.layout_check.specs.Prelude.{IsOnce, has, receives};
ghost use Rattle.layout_check.specs.HoldFaults.{IsReadFault};

use crate::elements::Element;
use crate::fault::ReadFault;
use crate::globals::lists;

/// The first of the nets that isn't one of the others.
fn first_absent(nets: &[u32], others: &[u32]) -> Option<u32>
    ensures { MatchOption result
        (list_all (has others.now) nets.now ≡ true)
        (λ net. Contains nets.now net × (has others.now net ≡ false)) }
{
    for net in nets {
        if !lists(others, *net) {
            return Some(*net);
        }
    }
    None
}

/// The first net that is one of the nets before it.
fn first_repeated(nets: &[u32]) -> Option<u32>
    ensures { MatchOption result (IsOnce nets.now) (λ net. 1 < count_by (λ other. other == net) nets.now) }
{
    for place in 0..nets.len() {
        let net = nets[place];
        if lists(&nets[..place], net) {
            return Some(net);
        }
    }
    None
}

/// What is wrong with the nets that the BLE receives, against these.
pub(crate) fn check_reads(element: &Element, nets: &[u32]) -> Option<ReadFault>
    ensures { MatchOption result (receives element.now nets.now ≡ true) (IsReadFault element.now nets.now) }
{
    let inputs = element.inputs();
    if let Some(net) = first_absent(nets, inputs) {
        return Some(ReadFault::Lacks(net));
    }
    if let Some(net) = first_absent(inputs, nets) {
        return Some(ReadFault::Extra(net));
    }
    match first_repeated(inputs) {
        Some(net) => Some(ReadFault::Twice(net)),
        None => None,
    }
}
