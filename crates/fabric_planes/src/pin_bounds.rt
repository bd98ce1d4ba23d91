//! Lower bounds of the costs of a sink's pins, side by side.
ghost use Rattle.std.specs.Prelude.{◌≡◌, ◌≤◌, true};

use crate::side_bounds::DEAR;
use arch_file::Sides;

/// Lower bounds of the costs of a sink's pins on each side of its block or pad.
#[derive(Clone, Copy)]
pub(crate) struct PinBounds {
    pub(crate) top: u16,
    pub(crate) bottom: u16,
    pub(crate) right: u16,
    pub(crate) left: u16,
}

/// The bound of a side with one more pin, which lowers it only if it is on that side.
fn lower(bound: u16, is_on: bool, other: u16) -> u16
    ensures falls { result ≤ bound }
    ensures on { is_on ≡ true → result ≤ other }
{
    if is_on { bound.min(other) } else { bound }
}

impl PinBounds {
    ghost use Rattle.fabric_planes.specs.SideBounds.{AreFew, AreLow, AreNoDearer};

    /// The bounds without a pin: the most that they count.
    pub(crate) fn most() -> PinBounds
        ensures { AreFew result }
    {
        let dear = DEAR as u16;
        PinBounds {
            top: dear,
            bottom: dear,
            right: dear,
            left: dear,
        }
    }

    /// The bounds with one more pin.
    pub(crate) fn with(self, sides: Sides, cost: u16) -> PinBounds
        requires { AreFew self }
        ensures few { AreFew result }
        ensures falls { AreNoDearer result self }
        ensures low { AreLow sides result cost }
    {
        PinBounds {
            top: lower(self.top, sides.top, cost),
            bottom: lower(self.bottom, sides.bottom, cost),
            right: lower(self.right, sides.right, cost),
            left: lower(self.left, sides.left, cost),
        }
    }
}
