//! Whether a packed circuit fits a strip.
ghost use Rattle.std.specs.Prelude.{◌≡◌};
ghost use Rattle.grid.specs.Sizes.{IsStripSize};
ghost use Rattle.block_places.specs.Fits.{fit_of_counts, fit_of};

use cluster::Packed;
use grid::{Kind, Strip};

/// Whether there are enough places for the blocks of a circuit. Clusters are compared first.
#[derive(Clone, Copy, PartialEq, Eq)]
pub enum Fit {
    Fits,
    /// The strip has fewer places for logic blocks than are needed.
    TooManyBlocks { have: usize, need: usize },
    /// The strip has fewer places for pads than are needed.
    TooManyPads { have: usize, need: usize },
}

/// Whether the packed circuit fits the strip.
pub fn fit_of(strip: Strip, packed: &Packed) -> Fit
    requires { IsStripSize strip }
    ensures { result ≡ fit_of strip packed.now }
{
    fit_of_counts(
        strip.places(Kind::Logic).len(),
        packed.cluster_count(),
        strip.places(Kind::Pad).len(),
        packed.pad_count(),
    )
}

/// Compares the places for logic blocks with the clusters, and then the places for pads with the
/// pads.
fn fit_of_counts(logic_places: usize, blocks: usize, pad_places: usize, pads: usize) -> Fit
    ensures { result ≡ fit_of_counts logic_places blocks pad_places pads }
{
    if logic_places < blocks {
        Fit::TooManyBlocks {
            have: logic_places,
            need: blocks,
        }
    } else if pad_places < pads {
        Fit::TooManyPads {
            have: pad_places,
            need: pads,
        }
    } else {
        Fit::Fits
    }
}
