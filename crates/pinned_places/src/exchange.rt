//! Exchanges the places of blocks.
ghost use Rattle.std.specs.Prelude.{◌≡◌, ◌<◌, All, length, map};
ghost use Rattle.pinned_places.specs.Prelude.{place_after};
ghost use Rattle.pinned_places.specs.Exchanges.{with_pads};

use crate::pads::{FixedPad, is_same_place};
use grid::Place;

/// Each pad goes to its place, one after another, and a block that was there to the pad's.
pub(crate) fn put_pads(places: &mut [Place], pads: &[FixedPad])
    requires { All (λ pad. pad.block < length places.old) pads.now }
    ensures { places.new ≡ with_pads pads.now places.old }
{
    for pad in pads {
        let home = places[pad.block];
        exchange(places, home, pad.place);
    }
}

/// The blocks on two places exchange them.
fn exchange(places: &mut [Place], home: Place, target: Place)
    ensures { places.new ≡ map (place_after home target) places.old }
{
    for place in places.iter_mut() {
        *place = place_after(home, target, *place);
    }
}

/// The new place of a block, after the blocks on two places exchanged them.
fn place_after(home: Place, target: Place, place: Place) -> Place
    ensures { result ≡ place_after home target place }
{
    if is_same_place(place, home) {
        target
    } else if is_same_place(place, target) {
        home
    } else {
        place
    }
}
