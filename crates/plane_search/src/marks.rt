//! The costs at which the places of a plane were entered.
ghost use Rattle.std.specs.Prelude.{◌≡◌, ◌^◌, ◌<◌, ◌≤◌, ◌+◌, ◌-◌, ℕ, [], All, OnOk, length, slice_index};
ghost use Rattle.std.specs.Bool.{MatchBool};
ghost use Rattle.std.proofs.Common.{set, lit≤};

use std::alloc::{AllocError, Global};
use std::marker::Model;

/// A number that holds a mark.
pub(crate) trait Cell: Copy {
    ghost SPAN: { ℕ };

    ghost LAST: { ℕ };

    // the number that it holds
    ghost number: { Self → ℕ };

    /// Costs from this on are not marked.
    const SPAN: u64;

    /// The greatest number.
    const LAST: u64;

    /// The cell that holds a number.
    fn of(value: u64) -> Self
        requires { value ≤ LAST }
        ensures { number result ≡ value };

    /// The number that the cell holds.
    fn number(self) -> u64
        ensures { result ≡ number self };

    ghost some: { 0 < SPAN };

    ghost fits: { SPAN + SPAN ≤ LAST };

    ghost last_fits: { LAST < 2 ^ 64 };
}

impl Cell for u32 {
    const SPAN: u64 = 1 << 16;

    const LAST: u64 = (1 << 32) - 1;

    ghost SPAN = { 2 ^ 16 };

    ghost LAST = { 2 ^ 32 - 1 };

    ghost number = { λ cell. cell };

    ghost some = { lit≤ tt };

    ghost fits = { lit≤ tt };

    ghost last_fits = { lit≤ tt };

    #[inline(always)]
    fn of(value: u64) -> u32 {
        value as u32
    }

    #[inline(always)]
    fn number(self) -> u64 {
        self as u64
    }
}

impl Cell for u64 {
    const SPAN: u64 = 1 << 59;

    const LAST: u64 = u64::MAX;

    ghost SPAN = { 2 ^ 59 };

    ghost LAST = { 2 ^ 64 - 1 };

    ghost number = { λ cell. cell };

    ghost some = { lit≤ tt };

    ghost fits = { lit≤ tt };

    ghost last_fits = { lit≤ tt };

    #[inline(always)]
    fn of(value: u64) -> u64 {
        value
    }

    #[inline(always)]
    fn number(self) -> u64 {
        self
    }
}

/// The cost at which a walk entered each place; `SPAN` or more if it didn't. A cell holds how far
/// the cost is below the greatest cell of the walk, and the next walk has greater cells: so a cell
/// of an earlier walk is less than each of a later one, a cheaper entry is greater, and a walk
/// begins without clearing.
#[derive(Drop)]
pub(crate) struct Marks<C: Cell> {
    cells: Vec<C>,
    /// The greatest cell of the walk.
    top: u64,
}

impl<C: Cell> Model for Marks<C> {
    ghost use Rattle.std.specs.Prelude.{List, ℕ};
    ghost use Rattle.plane_search.specs.Walk.{costs_of, AreCells};

    ghost Value = { List ℕ };

    ghost view = { λ m. costs_of C.number m.top m.cells.items };

    ghost invariant = { λ m. AreCells C.SPAN C.LAST C.number m.top m.cells.items };
}

impl<C: Cell> Marks<C> {
    /// No marks, without memory yet.
    pub(crate) fn new(alloc: Global) -> Self
        ensures { result ≡ [] }
    {
        Marks {
            cells: Vec::new(alloc),
            top: C::SPAN,
        }
    }

    /// Forgets all marks, and provides cells for `count` places.
    pub(crate) fn renew(&mut self, count: usize) -> Result<(), AllocError>
        ensures room { OnOk result (count ≤ length self.new) }
        ensures unmarked { OnOk result (All (λ cost. C.SPAN ≤ cost) self.new) }
    {
        if C::LAST - C::SPAN < self.top {
            self.cells.clear();
            self.top = C::SPAN;
        }
        if self.cells.len() < count {
            self.cells.resize(count, C::of(0))?;
        }
        self.top += C::SPAN;
        Ok(())
    }

    /// Whether the place was entered at this cost or less.
    #[inline(always)]
    pub(crate) fn is_entered(&self, place: usize, cost: u64) -> bool
        requires place { place < length self.now }
        requires cost { cost < C.SPAN }
        ensures { MatchBool result (slice_index self.now place ≤ cost)
            (cost < slice_index self.now place) }
    {
        self.top - cost <= self.cells[place].number()
    }

    /// Whether the place was entered at a lower cost.
    #[inline(always)]
    pub(crate) fn is_below(&self, place: usize, cost: u64) -> bool
        requires place { place < length self.now }
        requires cost { cost < C.SPAN }
        ensures { MatchBool result (slice_index self.now place < cost)
            (cost ≤ slice_index self.now place) }
    {
        self.top - cost < self.cells[place].number()
    }

    /// The cost at which the place was entered.
    #[inline(always)]
    pub(crate) fn cost(&self, place: usize) -> u64
        requires { place < length self.now }
        ensures { result ≡ slice_index self.now place }
    {
        self.top - self.cells[place].number()
    }

    /// Marks the place as entered at this cost.
    #[inline(always)]
    pub(crate) fn enter(&mut self, place: usize, cost: u64)
        requires place { place < length self.old }
        requires cost { cost < C.SPAN }
        ensures { self.new ≡ set self.old place cost }
    {
        self.cells[place] = C::of(self.top - cost);
    }
}
