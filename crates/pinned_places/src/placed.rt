//! A placing whose blocks are on given places.
ghost use Rattle.std.specs.Prelude.{◌≡◌, length, IfOk};
ghost use Rattle.std.specs.List.{zip};
ghost use Rattle.pinned_places.specs.Prelude.{blocks_of, keys_of, in_order, fit_of, ArePlaced, Fits};

use cluster::{Packed, laws_of_packing};
use grid::Place;
use std::alloc::{AllocError, Global};
use strip_place::{Kept, KeptPlace, Placing};

/// A placing of the same circuit on the same strip that keeps these places, without a pass.
pub(crate) fn placed_on(
    alloc: Global,
    placing: &Placing,
    places: &[Place],
) -> Result<Placing, AllocError>
    requires fits { fit_of placing.now.strip placing.now.packed ≡ Fits }
    requires placed { ArePlaced placing.now.strip placing.now.packed places.now }
    ensures { IfOk result (λ new. new ≡ record {
      packed = placing.now.packed;
      strip = placing.now.strip;
      kept = in_order (zip (keys_of placing.now.packed) places.now);
      seed = 0;
      effort = 0;
      passes = 0;
    }) }
{
    let kept = kept_of(alloc, placing.packed(), places)?;
    Placing::start(alloc, placing.shared_packed(), placing.strip(), &kept, 0, 0)
}

/// The places of all blocks, as a map from the blocks' keys.
fn kept_of(alloc: Global, packed: &Packed, places: &[Place]) -> Result<Kept, AllocError>
    requires { length places.now ≡ length (blocks_of packed.now) }
    ensures { IfOk result (λ kept. kept ≡ in_order (zip (keys_of packed.now) places.now)) }
{
    laws_of_packing();
    let _ = packed.circuit();
    let mut entries = Vec::new(alloc);
    for block in 0..packed.block_count() {
        entries.push(KeptPlace {
            key: packed.key(block),
            place: places[block],
        })?;
    }
    Kept::of(alloc, entries)
}
