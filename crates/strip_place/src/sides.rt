//! The distances of points from the sides of a field that is larger than any strip.
ghost use Rattle.std.specs.Prelude.{◌≡◌, ◌≤◌};
ghost use Rattle.strip_place.specs.Sides.{sides_of};

use crate::point::Point;

/// The distances from each side.
#[derive(Clone, Copy)]
pub(crate) struct Sides {
    pub(crate) left: u16,
    pub(crate) right: u16,
    pub(crate) bottom: u16,
    pub(crate) top: u16,
}

impl Sides {
    /// The distances of a point from each side.
    pub(crate) fn of(point: Point) -> Self
        ensures value { result ≡ sides_of point }
        ensures x { point.x ≤ 65535 }
        ensures y { point.y ≤ 65535 }
    {
        Sides {
            left: point.left(),
            right: point.right(),
            bottom: point.bottom(),
            top: point.top(),
        }
    }
}
