//! Tables of prices that tell nothing yet.
ghost use Rattle.std.specs.Prelude.{◌≡◌, ℕ, IfOk};
ghost use Rattle.fabric_planes.specs.Prelude.{Basis, IsBasis};
ghost use Rattle.fabric_planes.specs.Pins.{ArePrices};
ghost use Rattle.fabric_planes.specs.Tables.{IsShapeOf};

use crate::shape::Shape;
use std::alloc::{AllocError, Global};

/// Prices of which none is told: each cost is asked of its node.
pub(crate) fn untold_prices(alloc: Global, shape: Shape) -> Result<Vec<u8>, AllocError>
    ensures { (basis : Basis) (cost : ℕ → ℕ) → IsBasis basis → IsShapeOf basis shape →
        IfOk result (λ prices. ArePrices basis cost prices.items) }
{
    let prices = Vec::from_elem(alloc, 255, shape.tracks as usize * shape.places())?;
    Ok(prices)
}
