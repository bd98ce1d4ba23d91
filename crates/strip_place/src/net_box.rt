//! The bounding box of a net.
ghost use Rattle.std.specs.Prelude.{◌≡◌, ◌<◌, ◌≤◌, ⊤, MatchBool, length};
ghost use Rattle.strip_place.specs.Nets.{IsNetOf};
ghost use Rattle.strip_place.specs.Sides.{sum_of};
ghost use Rattle.strip_place.specs.Boxes.{IsBox, IsDeep, half_of, near_of, rest, with_block};

use crate::point::{FAR, Point};
use crate::sides::Sides;

/// The distances of a net's blocks from each side: the nearest, and that of another block near it,
/// or [`FAR`]. Eight numbers of 16 bits, so that a processor can compute them at once.
#[derive(Clone, Copy)]
pub(crate) struct NetBox {
    pub(crate) left: u16,
    pub(crate) right: u16,
    pub(crate) bottom: u16,
    pub(crate) top: u16,
    pub(crate) next_left: u16,
    pub(crate) next_right: u16,
    pub(crate) next_bottom: u16,
    pub(crate) next_top: u16,
}

impl NetBox {
    /// The box of a net whose blocks are at these points. Each number is a variable of its own, so
    /// that the compiler keeps all of them in one vector register.
    pub(crate) fn of(net: &[u32], points: &[Point]) -> Self
        requires { IsNetOf (length points.now) net.now }
        ensures { IsBox points.now net.now result }
    {
        let mut left = FAR;
        let mut right = FAR;
        let mut bottom = FAR;
        let mut top = FAR;
        let mut next_left = FAR;
        let mut next_right = FAR;
        let mut next_bottom = FAR;
        let mut next_top = FAR;
        for block in net {
            let point = &points[*block as usize];
            let x = point.left();
            let y = point.bottom();
            let from_right = point.right();
            let from_top = point.top();
            next_left = next_left.min(left.max(x));
            next_right = next_right.min(right.max(from_right));
            next_bottom = next_bottom.min(bottom.max(y));
            next_top = next_top.min(top.max(from_top));
            left = x.min(left);
            right = from_right.min(right);
            bottom = y.min(bottom);
            top = from_top.min(top);
        }
        NetBox {
            left,
            right,
            bottom,
            top,
            next_left,
            next_right,
            next_bottom,
            next_top,
        }
    }

    /// The width plus the height.
    pub(crate) fn half_perimeter(self) -> u32
        requires { sum_of (near_of self) ≤ 131070 }
        ensures value { result ≡ half_of self }
        ensures small { result < 131072 }
    {
        2 * u32::from(FAR)
            - (u32::from(self.left)
                + u32::from(self.right)
                + u32::from(self.bottom)
                + u32::from(self.top))
    }

    /// Whether a block at these distances is farther from each side than the two nearest that are
    /// kept there.
    pub(crate) fn is_deep(self, block: Sides) -> bool
        ensures { MatchBool result (IsDeep self block) ⊤ }
    {
        self.next_left < block.left
            && self.next_right < block.right
            && self.next_bottom < block.bottom
            && self.next_top < block.top
    }

    /// The box with one more block.
    pub(crate) fn with_block(self, block: Sides) -> Self
        ensures { result ≡ with_block self block }
    {
        NetBox {
            left: block.left.min(self.left),
            right: block.right.min(self.right),
            bottom: block.bottom.min(self.bottom),
            top: block.top.min(self.top),
            next_left: self.next_left.min(self.left.max(block.left)),
            next_right: self.next_right.min(self.right.max(block.right)),
            next_bottom: self.next_bottom.min(self.bottom.max(block.bottom)),
            next_top: self.next_top.min(self.top.max(block.top)),
        }
    }
}

/// The nearest distance after a block at distance `gone` is removed.
pub(crate) fn rest(near: u16, next: u16, gone: u16) -> u16
    ensures { result ≡ rest near next gone }
{
    if near == gone { next } else { near }
}
