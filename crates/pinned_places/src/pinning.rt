//! Puts the pads of pins on their places.
ghost use Rattle.std.specs.Prelude.{◌≡◌, ◌<◌, All, IfOk, Ok, length};
ghost use Rattle.pinned_places.specs.Prelude.{fit_of, Fits, blocks_of, places_by_block, pins_read};
ghost use Rattle.pinned_places.specs.Exchanges.{with_pads};
ghost use Rattle.pinned_places.specs.Pads.{pads_of};
ghost use Rattle.pinned_places.specs.Results.{GivesPinned, IsPinned};

use crate::exchange::put_pads;
use crate::fault::PinsError;
use crate::pads::{FixedPad, pads_of};
use crate::placed::placed_on;
use cluster::laws_of_packing;
use grid::{Place, laws_of_places};
use pin_file::PinLine;
use std::alloc::{AllocError, Global};
use strip_place::Placing;

/// A placing of the same circuit on the same strip with the pads of these pins on their places. Pin
/// by pin, a pad and the block on its place exchange places; all other blocks stay. Fails at the
/// first pin that can't be met, or if memory runs out.
pub fn pin_pads(
    alloc: Global,
    placing: &Placing,
    pins: &[PinLine<'_>],
) -> Result<Placing, PinsError>
    requires { fit_of placing.now.strip placing.now.packed ≡ Fits }
    ensures { GivesPinned placing.now (pins_read pins.now) result }
{
    let pads = pads_of(alloc, placing.packed(), placing.strip(), pins)?;
    let pinned = with_pads(alloc, placing, pins, pads.as_slice());
    drop(pads);
    Ok(pinned?)
}

/// The placing with these pads on their places. They are the pads of the pins.
fn with_pads(
    alloc: Global,
    placing: &Placing,
    pins: &[PinLine<'_>],
    pads: &[FixedPad],
) -> Result<Placing, AllocError>
    requires fits { fit_of placing.now.strip placing.now.packed ≡ Fits }
    requires pads { pads_of placing.now.packed placing.now.strip (pins_read pins.now) ≡ Ok pads.now }
    ensures { IfOk result (IsPinned placing.now (pins_read pins.now)) }
{
    placing.laws();
    placing.packed().laws();
    laws_of_places();
    laws_of_packing();
    let _ = placing.strip();
    let places = places_with_pads(alloc, placing, pads)?;
    let placed = placed_on(alloc, placing, places.as_slice());
    drop(places);
    placed
}

/// The places of the blocks after each pad went to its place.
fn places_with_pads(
    alloc: Global,
    placing: &Placing,
    pads: &[FixedPad],
) -> Result<Vec<Place>, AllocError>
    requires { All (λ pad. pad.block < length (blocks_of placing.now.packed)) pads.now }
    ensures { IfOk result (λ places.
        places.items ≡ with_pads pads.now (places_by_block placing.now)) }
{
    placing.laws();
    let mut places = placing.places(alloc)?;
    put_pads(places.as_mut_slice(), pads);
    Ok(places)
}
