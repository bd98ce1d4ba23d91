//! The tests of a tree by the numbers of its nodes.
ghost use Rattle.std.specs.Prelude.{◌≡◌, ◌<◌, All, length, true, false, ℕ, not, count_by, Contains, MatchOption, MatchBool, map, slice_set, ◌&&◌, if◌then◌else◌};
ghost use Rattle.layout_check.specs.Marks.{is_in, IsClear, IsSetOf};
ghost use Rattle.layout_check.specs.NumberTrees.{AreOneWay, AreReached, HasKept, IsClosed, IsHopFault};

use crate::marks::Marks;

/// What is wrong with the hops of a tree.
pub(crate) enum HopFault {
    /// A hop leads from this node into the root.
    IntoRoot(usize),
    /// Hops lead from two nodes to a third.
    TwoHops(usize, usize, usize),
}

/// Finds a hop into the root, or two hops from different nodes to one. Uses and changes the set and
/// the list of predecessors.
pub(crate) fn enter(
    hops: &[(usize, usize)],
    root: usize,
    entered: &mut Marks,
    parents: &mut Vec<usize>,
) -> Option<HopFault>
    requires within { All (λ hop. hop.1 < length entered.old) hops.now }
    requires room { length parents.old.items ≡ length entered.old }
    requires clear { IsClear entered.old }
    ensures fault { MatchOption result (AreOneWay hops.now root) (IsHopFault hops.now root) }
    ensures long { length entered.new ≡ length entered.old }
    ensures room { length parents.new.items ≡ length parents.old.items }
{
    for hop in hops {
        let (from, to) = *hop;
        if to == root {
            return Some(HopFault::IntoRoot(from));
        }
        if entered.contains(to) {
            if parents[to] != from {
                return Some(HopFault::TwoHops(from, parents[to], to));
            }
        } else {
            entered.insert(to);
            parents[to] = from;
        }
    }
    None
}

/// Adds the second node to the set if only the first is in it, and returns whether it did.
fn follow(from: usize, to: usize, reached: &mut Marks) -> bool
    requires from { from < length reached.old }
    requires to { to < length reached.old }
    ensures value { result ≡ (is_in reached.old from && not (is_in reached.old to)) }
    ensures new { reached.new ≡ (if result then slice_set reached.old to true else reached.old) }
{
    let adds = reached.contains(from) && !reached.contains(to);
    if adds {
        reached.insert(to);
    }
    adds
}

/// Adds the end of each hop from a node of the set to the set, in order, and returns whether the
/// set has grown.
pub(crate) fn spread(hops: &[(usize, usize)], reached: &mut Marks) -> bool
    requires from { All (λ hop. hop.0 < length reached.old) hops.now }
    requires to { All (λ hop. hop.1 < length reached.old) hops.now }
    ensures long { length reached.new ≡ length reached.old }
    ensures kept { HasKept reached.old reached.new }
    ensures sound { (root : ℕ) → AreReached hops.now root reached.old → AreReached hops.now root reached.new }
    ensures cases { MatchBool result (count_by not reached.new < count_by not reached.old) (IsClosed hops.now reached.new) }
{
    let mut has_grown = false;
    for hop in hops {
        let (from, to) = *hop;
        if follow(from, to, reached) {
            has_grown = true;
        }
    }
    has_grown
}

/// Adds to the set all nodes to which hops lead from the root.
pub(crate) fn reach(hops: &[(usize, usize)], root: usize, reached: &mut Marks)
    requires from { All (λ hop. hop.0 < length reached.old) hops.now }
    requires to { All (λ hop. hop.1 < length reached.old) hops.now }
    requires root { root < length reached.old }
    requires clear { IsClear reached.old }
    ensures long { length reached.new ≡ length reached.old }
    ensures root { is_in reached.new root ≡ true }
    ensures sound { AreReached hops.now root reached.new }
    ensures closed { IsClosed hops.now reached.new }
{
    reached.insert(root);
    let mut has_grown = true;
    while has_grown {
        has_grown = spread(hops, reached);
    }
}

/// Adds numbers to the empty set.
pub(crate) fn mark_all(numbers: &[usize], marks: &mut Marks)
    requires within { All (λ number. number < length marks.old) numbers.now }
    requires clear { IsClear marks.old }
    ensures long { length marks.new ≡ length marks.old }
    ensures exact { IsSetOf numbers.now marks.new }
{
    for number in numbers {
        marks.insert(*number);
    }
}

/// Adds the first node of each hop to the empty set.
pub(crate) fn mark_starts(hops: &[(usize, usize)], marks: &mut Marks)
    requires within { All (λ hop. hop.0 < length marks.old) hops.now }
    requires clear { IsClear marks.old }
    ensures long { length marks.new ≡ length marks.old }
    ensures exact { IsSetOf (map (λ hop. hop.0) hops.now) marks.new }
{
    for hop in hops {
        marks.insert(hop.0);
    }
}

/// The first of the numbers that isn't in the set.
pub(crate) fn first_missing(numbers: &[usize], marks: &Marks) -> Option<usize>
    requires { All (λ number. number < length marks.now) numbers.now }
    ensures { MatchOption result
        ((number : ℕ) → Contains numbers.now number → is_in marks.now number ≡ true)
        (λ number. Contains numbers.now number × (is_in marks.now number ≡ false)) }
{
    for number in numbers {
        if !marks.contains(*number) {
            return Some(*number);
        }
    }
    None
}

/// The first of the numbers that is in the set.
pub(crate) fn first_present(numbers: &[usize], marks: &Marks) -> Option<usize>
    requires { All (λ number. number < length marks.now) numbers.now }
    ensures { MatchOption result
        ((number : ℕ) → Contains numbers.now number → is_in marks.now number ≡ false)
        (λ number. Contains numbers.now number × (is_in marks.now number ≡ true)) }
{
    for number in numbers {
        if marks.contains(*number) {
            return Some(*number);
        }
    }
    None
}

/// The first of the numbers that is in neither set.
pub(crate) fn first_loose(numbers: &[usize], marks: &Marks, others: &Marks) -> Option<usize>
    requires marks { All (λ number. number < length marks.now) numbers.now }
    requires others { All (λ number. number < length others.now) numbers.now }
    ensures { MatchOption result
        ((number : ℕ) → Contains numbers.now number → is_in marks.now number ≡ false → is_in others.now number ≡ true)
        (λ number. Contains numbers.now number × (is_in marks.now number ≡ false) × (is_in others.now number ≡ false)) }
{
    for number in numbers {
        if !marks.contains(*number) && !others.contains(*number) {
            return Some(*number);
        }
    }
    None
}
