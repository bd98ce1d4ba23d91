//! The bounding boxes of all nets, and the lengths of nets by their boxes.
ghost use Rattle.std.specs.Prelude.{◌≡◌, ◌*◌, ◌<◌, ◌≤◌, length, sum_by, MatchBool};
ghost use Rattle.strip_place.specs.Boxes.{AreBothRenewed, AreRenewed, AreTouchedBy, CanRenew, CanSum, CanWeigh, IsAmong, IsBox, IsFollowed, IsRenewed, box_at, boxed_length, half_of, length_after};
ghost use Rattle.strip_place.specs.Nets.{IsNetOf};
ghost use Rattle.strip_place.specs.Sides.{sum_of};

use crate::lists::Lists;
use crate::net_box::{NetBox, rest};
use crate::point::{FAR, Point};
use crate::sides::Sides;

/// The box of a net with more blocks than this is updated from the box before, if possible.
const FEW_BLOCKS: usize = 12;

/// The total length of some nets, and a lower bound of it after a move.
#[derive(Clone, Copy)]
pub(crate) struct Lengths {
    pub(crate) before: u64,
    pub(crate) after: u64,
}

/// The total length of the nets with these numbers, and a lower bound of it after a block on each
/// of them moves. Each side has sums of its own, so that the compiler keeps the sums of all four in
/// one vector register.
pub(crate) fn weigh(boxes: &[NetBox], touched: &[u32], from: Sides, to: Sides) -> Lengths
    requires touched { CanWeigh boxes.now touched.now }
    requires to { sum_of to ≤ 131070 }
    ensures before { result.before ≡ boxed_length boxes.now touched.now }
    ensures after { result.after ≡ length_after boxes.now from to touched.now }
    ensures before_small { result.before ≤ 131072 * length touched.now }
    ensures after_small { result.after ≤ 131072 * length touched.now }
{
    let mut left = 0;
    let mut right = 0;
    let mut bottom = 0;
    let mut top = 0;
    let mut new_left = 0;
    let mut new_right = 0;
    let mut new_bottom = 0;
    let mut new_top = 0;
    for number in touched {
        let found = &boxes[*number as usize];
        left += u32::from(found.left);
        right += u32::from(found.right);
        bottom += u32::from(found.bottom);
        top += u32::from(found.top);
        new_left += u32::from(rest(found.left, found.next_left, from.left).min(to.left));
        new_right += u32::from(rest(found.right, found.next_right, from.right).min(to.right));
        new_bottom += u32::from(rest(found.bottom, found.next_bottom, from.bottom).min(to.bottom));
        new_top += u32::from(rest(found.top, found.next_top, from.top).min(to.top));
    }
    let field = 2 * u64::from(FAR) * touched.len() as u64;
    Lengths {
        before: field - u64::from(left + right + bottom + top),
        after: field - u64::from(new_left + new_right + new_bottom + new_top),
    }
}

/// The total length of all nets.
pub(crate) fn whole_length(boxes: &[NetBox]) -> u64
    requires { CanSum boxes.now }
    ensures { result ≡ sum_by half_of boxes.now }
{
    let mut total = 0;
    for found in boxes {
        total += u64::from(found.half_perimeter());
    }
    total
}

/// A block's move, as distances from the sides: those before it and those after it.
#[derive(Clone, Copy)]
pub(crate) struct Move {
    pub(crate) from: Sides,
    pub(crate) to: Sides,
}

/// Updates the boxes of the nets on two lists, after a block of those on the first made the move
/// and a block of those on the second made the opposite move. Returns their total length.
pub(crate) fn renew_both(
    boxes: &mut [NetBox],
    nets: &Lists,
    points: &[Point],
    first: &[u32],
    second: &[u32],
    made: Move,
) -> u64
    requires { AreTouchedBy points.now nets.now first.now second.now boxes.old made }
    ensures { AreBothRenewed points.now nets.now first.now second.now boxes.old boxes.new result }
{
    let back = Move {
        from: made.to,
        to: made.from,
    };
    renew(boxes, nets, points, first, second, made)
        + renew(boxes, nets, points, second, first, back)
}

/// Updates the boxes of the nets with these numbers, after a block on each made the move and a
/// block on each of the others made the opposite move. Returns their total length. Each side has a
/// sum of its own, as in [`weigh`].
fn renew(
    boxes: &mut [NetBox],
    nets: &Lists,
    points: &[Point],
    touched: &[u32],
    others: &[u32],
    made: Move,
) -> u64
    requires { CanRenew points.now nets.now touched.now others.now boxes.old made.from made.to }
    ensures { AreRenewed points.now nets.now touched.now (length touched.now) boxes.old boxes.new
        result }
{
    let mut left = 0;
    let mut right = 0;
    let mut bottom = 0;
    let mut top = 0;
    for number in touched {
        let net = nets.row(*number as usize);
        let found = renew_one(boxes, net, points, made, others, *number);
        left += u32::from(found.left);
        right += u32::from(found.right);
        bottom += u32::from(found.bottom);
        top += u32::from(found.top);
    }
    2 * u64::from(FAR) * touched.len() as u64 - u64::from(left + right + bottom + top)
}

/// Updates the box of a net, from all its blocks if it has few, and returns it.
#[inline(always)]
fn renew_one(
    boxes: &mut [NetBox],
    net: &[u32],
    points: &[Point],
    made: Move,
    others: &[u32],
    number: u32,
) -> NetBox
    requires net { IsNetOf (length points.now) net.now }
    requires number { number < length boxes.old }
    requires follows { IsFollowed points.now net.now others.now number (box_at boxes.old number)
        made.from made.to }
    ensures { IsRenewed points.now net.now number boxes.old boxes.new result }
{
    let found = if net.len() > FEW_BLOCKS {
        large_net_box(boxes[number as usize], net, points, made, others, number)
    } else {
        NetBox::of(net, points)
    };
    boxes[number as usize] = found;
    found
}

/// The new bounding box of a large net, given its box before. It is unchanged if both exchanged
/// blocks are on the net, extended to the block's new point if the block was deep inside the old
/// box, and otherwise recomputed from all blocks.
#[inline(never)]
fn large_net_box(
    stood: NetBox,
    net: &[u32],
    points: &[Point],
    made: Move,
    others: &[u32],
    number: u32,
) -> NetBox
    requires net { IsNetOf (length points.now) net.now }
    requires follows { IsFollowed points.now net.now others.now number stood made.from made.to }
    ensures { IsBox points.now net.now result }
{
    if is_among(others, number) {
        return stood;
    }
    if stood.is_deep(made.from) {
        return stood.with_block(made.to);
    }
    NetBox::of(net, points)
}

/// Whether the number is in the list.
fn is_among(numbers: &[u32], number: u32) -> bool
    ensures { MatchBool result (IsAmong numbers.now number) (IsAmong numbers.now number → ⊥) }
{
    numbers.contains(&number)
}
