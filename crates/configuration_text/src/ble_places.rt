//! The places of BLEs.
ghost use Rattle.std.specs.Prelude.{◌≡◌, ◌++◌, ◌∷◌, ◌<◌, ◌≤◌, ◌+◌, ◌==◌, ℕ, List, Option, IfOk, not, [], length};
ghost use Rattle.std.specs.List.{list_any};
ghost use Rattle.configuration_text.specs.Prelude.{ble_numbers, filled_places, free_places, is_place, routed_place, routed_places};
ghost use Rattle.configuration_text.specs.Parts.{free_from};

use crate::pins::{output_rank, pin_out};
use arch_file::Arch;
use layouts::{LaidBle, LaidBlock, Layout};
use std::alloc::{AllocError, Global};

/// The places of the block's BLEs, in order: each is at the place at which the routes ask for it,
/// and the others take the places that are left, in order.
pub(crate) fn ble_numbers(
    alloc: Global,
    arch: &Arch,
    layout: &Layout,
    laid: &LaidBlock,
) -> Result<Vec<usize>, AllocError>
    ensures { IfOk result (λ numbers.
        numbers.items ≡ ble_numbers arch.now layout.now laid.now) }
{
    let mut routed = Vec::new(alloc);
    for (index, ble) in laid.bles().iter().enumerate() {
        routed.push(asked_place(arch, layout, laid, index, ble))?;
    }
    fill_places(alloc, arch.cluster_size as usize, routed.as_slice())
}

/// The place at which the routes ask for the block's BLE at this index to be.
fn asked_place(
    arch: &Arch,
    layout: &Layout,
    laid: &LaidBlock,
    index: usize,
    ble: &LaidBle,
) -> Option<usize>
    requires { index < length laid.now.bles }
    ensures { result ≡ routed_place arch.now layout.now laid.now index ble.now }
{
    if is_named_in(&laid.bles()[..index], ble.name()) {
        return None;
    }
    match pin_out(layout, laid, ble.name()) {
        Some(pin) => Some(output_rank(arch, pin.n)),
        None => None,
    }
}

/// Whether one of the BLEs drives the net.
fn is_named_in(bles: &[LaidBle], net: u32) -> bool
    ensures { result ≡ list_any (λ other. other.name == net) bles.now }
{
    bles.iter().any(|other| other.name() == net)
}

/// The places, of which there are `count`, with the free ones given to the BLEs for which no place
/// is asked.
fn fill_places(
    alloc: Global,
    count: usize,
    routed: &[Option<usize>],
) -> Result<Vec<usize>, AllocError>
    ensures { IfOk result (λ filled.
        filled.items ≡ filled_places routed.now (free_places count routed.now)) }
{
    let mut filled = Vec::new(alloc);
    let mut from = 0;
    for asked in routed {
        filled.push(place_for(*asked, count, routed, &mut from))?;
    }
    Ok(filled)
}

/// The place for a BLE: the one that is asked, otherwise the first free one from `from` on, which
/// is then used. 0 if none is left.
fn place_for(
    asked: Option<usize>,
    count: usize,
    routed: &[Option<usize>],
    from: &mut usize,
) -> usize
    ensures { (rest : List (Option ℕ)) →
        filled_places (asked ∷ rest) (free_from count routed.now from.old)
        ≡ result ∷ filled_places rest (free_from count routed.now from.new) }
{
    match asked {
        Some(place) => place,
        None => take_free(count, routed, from),
    }
}

/// The first free place from `from` on, which is then used; 0 if none is left.
fn take_free(count: usize, routed: &[Option<usize>], from: &mut usize) -> usize
    ensures { (rest : List (Option ℕ)) →
        filled_places (None ∷ rest) (free_from count routed.now from.old)
        ≡ result ∷ filled_places rest (free_from count routed.now from.new) }
{
    let place = first_free(count, routed, *from);
    if place < count {
        *from = place + 1;
        place
    } else {
        *from = count;
        0
    }
}

/// The first free place from `from` on; `count` if none is left.
fn first_free(count: usize, routed: &[Option<usize>], from: usize) -> usize
    ensures found { result < count →
        free_from count routed.now from ≡ result ∷ free_from count routed.now (result + 1) }
    ensures none { count ≤ result → free_from count routed.now from ≡ [] }
{
    for place in from..count {
        if is_free(routed, place) {
            return place;
        }
    }
    count
}

/// Whether no BLE is asked to be at this place.
fn is_free(routed: &[Option<usize>], place: usize) -> bool
    ensures { result ≡ not (list_any (is_place place) routed.now) }
{
    !routed.iter().any(|asked| is_place(place, *asked))
}

/// Whether it is this place.
fn is_place(place: usize, asked: Option<usize>) -> bool
    ensures { result ≡ is_place place asked }
{
    match asked {
        Some(other) => other == place,
        None => false,
    }
}
