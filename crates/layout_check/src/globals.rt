//! Whether the nets on the global network are those that control latches.
ghost use Rattle.std.specs.Prelude.{◌≡◌, ◌==◌, ℕ, Contains, MatchOption, Some, false, slice_get, true};
ghost use Rattle.std.specs.List.{list_any};
ghost use Rattle.std.specs.Option.{option_map_or};
ghost use Rattle.layout_check.specs.Prelude.{Latch as LatchValue, has, is_global};

use crate::entry::is_global;
use blif::Circuit;

/// The first of the nets that controls no latch.
pub(crate) fn first_local(circuit: &Circuit, globals: &[u32]) -> Option<u32>
    ensures { MatchOption result
        ((net : ℕ) → Contains globals.now net → is_global circuit.now net ≡ true)
        (λ net. Contains globals.now net × (is_global circuit.now net ≡ false)) }
{
    for net in globals {
        if !is_global(circuit, *net) {
            return Some(*net);
        }
    }
    None
}

/// Whether the net is one of the nets.
pub(crate) fn lists(nets: &[u32], net: u32) -> bool
    ensures { result ≡ has nets.now net }
{
    nets.iter().any(|other| *other == net)
}

/// Whether the control is one of the nets, if there is one.
fn is_listed(nets: &[u32], control: Option<u32>) -> bool
    ensures { result ≡ option_map_or (has nets.now) control true }
{
    match control {
        Some(net) => lists(nets, net),
        None => true,
    }
}

/// The number of the first latch whose control isn't one of the nets.
pub(crate) fn first_left_out(circuit: &Circuit, globals: &[u32]) -> Option<usize>
    ensures { MatchOption result
        ((k : ℕ) (latch : LatchValue) → slice_get circuit.now.latches k ≡ Some latch → option_map_or (has globals.now) latch.control true ≡ true)
        (λ k. (latch : LatchValue) × (slice_get circuit.now.latches k ≡ Some latch) × (option_map_or (has globals.now) latch.control true ≡ false)) }
{
    let latches = circuit.latches.as_slice();
    for (k, latch) in latches.iter().enumerate() {
        let listed = is_listed(globals, latch.control);
        if !listed {
            return Some(k);
        }
    }
    None
}
