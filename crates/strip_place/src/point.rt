//! The point at which a block is.
ghost use Rattle.std.specs.Prelude.{◌≡◌, ◌-◌, ◌≤◌};

use std::marker::Model;

/// The distance between opposite sides of a field that is larger than any strip.
pub(crate) const FAR: u16 = 65535;

/// A column and a row, kept as the distances from each side of the field. Its value is the column
/// and the row.
#[derive(Clone, Copy)]
pub(crate) struct Point {
    left: u16,
    right: u16,
    bottom: u16,
    top: u16,
}

impl Model for Point {
    ghost use Rattle.std.specs.Prelude.{◌-◌};
    ghost use Rattle.strip_place.specs.Points.{AreOpposite, Point};

    ghost Value = { Point };

    ghost view = { λ p. record { x = p.left; y = p.bottom } };

    ghost invariant = { λ p. AreOpposite p.left p.right p.bottom p.top };

    ghost inverse = { λ p. record { left = p.x; right = 65535 - p.x; bottom = p.y; top = 65535 - p.y } };
}

impl Point {
    /// The point in this column and row.
    pub(crate) fn new(x: u16, y: u16) -> Self
        ensures { result ≡ record { x = x; y = y } }
    {
        Point {
            left: x,
            right: FAR - x,
            bottom: y,
            top: FAR - y,
        }
    }

    /// The distance from the left side, which is the column.
    #[inline(always)]
    pub(crate) fn left(&self) -> u16
        ensures value { result ≡ self.now.x }
        ensures inside { self.now.x ≤ 65535 }
    {
        self.left
    }

    /// The distance from the right side.
    #[inline(always)]
    pub(crate) fn right(&self) -> u16
        ensures { result ≡ 65535 - self.now.x }
    {
        self.right
    }

    /// The distance from the bottom side, which is the row.
    #[inline(always)]
    pub(crate) fn bottom(&self) -> u16
        ensures value { result ≡ self.now.y }
        ensures inside { self.now.y ≤ 65535 }
    {
        self.bottom
    }

    /// The distance from the top side.
    #[inline(always)]
    pub(crate) fn top(&self) -> u16
        ensures { result ≡ 65535 - self.now.y }
    {
        self.top
    }
}
