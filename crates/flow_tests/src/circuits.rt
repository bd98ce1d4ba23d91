//! How a test packs a netlist and places it.
ghost use Rattle.std.specs.Prelude.{◌≡◌, ◌≤◌, IfSome};
ghost use Rattle.strip_place.specs.declared.placing.TheConstants.{MAX_EFFORT};
ghost use Rattle.grid.specs.Sizes.{IsStripSize};
ghost use Rattle.strip_place.specs.Keeping.{AreKeptOn};

use arch_file::{SharedArch, read_arch};
use blif::{SharedCircuit, read_blif};
use block_places::{Fit, fit_of};
use cluster::{PackEnd, Packed, Packing, SharedPacked, check};
use fixtures::ARCHITECTURE;
use grid::Strip;
use std::alloc::Global;
use strip_place::{Kept, Placing, laws_of_kept};

/// The smallest architecture with two tracks.
fn architecture(alloc: Global) -> Option<SharedArch> {
    match read_arch(alloc, ARCHITECTURE.as_bytes(), 2) {
        Ok(arch) => SharedArch::new(alloc, arch).ok(),
        Err(_) => None,
    }
}

/// The circuit of a netlist whose tables have at most two inputs.
fn circuit(alloc: Global, netlist: &str) -> Option<SharedCircuit> {
    match read_blif(alloc, netlist.as_bytes(), 2) {
        Ok(circuit) => SharedCircuit::new(alloc, circuit).ok(),
        Err(_) => None,
    }
}

/// The packing of a circuit, with no step made.
fn new_packing(alloc: Global, circuit: &SharedCircuit, arch: &SharedArch) -> Option<Packing> {
    if check(alloc, circuit.circuit(), arch.arch()).is_err() {
        return None;
    }
    Packing::start(alloc, circuit, arch).ok()
}

/// The packing of a circuit on the smallest architecture, with no step made.
fn begun_on_smallest(alloc: Global, circuit: &SharedCircuit) -> Option<Packing> {
    match architecture(alloc) {
        Some(arch) => {
            let packing = new_packing(alloc, circuit, &arch);
            drop(arch);
            packing
        }
        None => None,
    }
}

/// The packing of a netlist on the smallest architecture, with no step made.
pub(crate) fn start_packing(alloc: Global, netlist: &str) -> Option<Packing> {
    match circuit(alloc, netlist) {
        Some(circuit) => {
            let packing = begun_on_smallest(alloc, &circuit);
            drop(circuit);
            packing
        }
        None => None,
    }
}

/// The result of a packing, if it takes less than 100 steps.
fn finish_packing(packing: Packing) -> Option<Packed> {
    let mut packing = packing;
    for _ in 0..100 {
        match packing.next() {
            Ok(PackEnd::More(more)) => packing = more,
            Ok(PackEnd::Last(packed)) => return Some(packed),
            Err(back) => {
                drop(back);
                return None;
            }
        }
    }
    drop(packing);
    None
}

/// The packed circuit of a netlist on the smallest architecture.
pub(crate) fn packed_netlist(alloc: Global, netlist: &str) -> Option<SharedPacked> {
    match start_packing(alloc, netlist) {
        Some(packing) => match finish_packing(packing) {
            Some(packed) => SharedPacked::new(alloc, packed).ok(),
            None => None,
        },
        None => None,
    }
}

/// The placing of a packed circuit before its first pass, if it fits.
pub(crate) fn start_placing(
    alloc: Global,
    packed: &SharedPacked,
    strip: Strip,
    kept: &Kept,
    seed: u64,
    effort: u32,
) -> Option<Placing>
    requires size { IsStripSize strip }
    requires kept { AreKeptOn strip kept.now }
    requires effort { effort ≤ MAX_EFFORT }
    ensures packed { IfSome result (λ placing. placing.packed ≡ packed.now) }
    ensures strip { IfSome result (λ placing. placing.strip ≡ strip) }
{
    if fit_of(strip, packed.packed()) != Fit::Fits {
        return None;
    }
    Placing::start(alloc, packed, strip, kept, seed, effort).ok()
}

/// The placing of a packed circuit before its first pass, without kept places.
pub(crate) fn placed_anew(
    alloc: Global,
    packed: &SharedPacked,
    strip: Strip,
    seed: u64,
    effort: u32,
) -> Option<Placing>
    requires size { IsStripSize strip }
    requires effort { effort ≤ MAX_EFFORT }
    ensures packed { IfSome result (λ placing. placing.packed ≡ packed.now) }
    ensures strip { IfSome result (λ placing. placing.strip ≡ strip) }
{
    laws_of_kept();
    let none = Kept::none();
    let placing = start_placing(alloc, packed, strip, &none, seed, effort);
    drop(none);
    placing
}
