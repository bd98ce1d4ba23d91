//! Places whose edges are to be followed.
ghost use Rattle.std.specs.Prelude.{◌≡◌, ◌<◌, ◌∷◌, ℕ, [], List, All, IfOk, OnOk, IfSome, IfNone};
ghost use Rattle.std.specs.List.Sorted.{IsPermutation};
ghost use Rattle.plane_search.specs.Queues.{CanHold};
ghost use Rattle.plane_search.specs.declared.queue.Open.{Open};

use std::alloc::AllocError;

/// A place that was entered, and whose edges are to be followed.
#[derive(Clone, Copy)]
pub(crate) struct Open<N> {
    pub(crate) place: u32,
    /// The cost at which it was entered.
    pub(crate) cost: N,
    /// A lower bound of the cost of any path over it.
    pub(crate) key: N,
}

/// Entries that wait, in any order.
pub(crate) trait Queue: Drop {
    // Costs and keys from this on are not held.
    ghost span: { ℕ };

    ghost entries: { Self → List (Open ℕ) };

    /// Removes all entries.
    fn clear(&mut self)
        ensures { entries self.new ≡ [] };

    /// Adds an entry, which comes next if its key is at most `level`.
    fn put(&mut self, item: Open<u64>, level: u64) -> Result<(), AllocError>
        requires { CanHold span item.cost item.key }
        ensures { OnOk result (IsPermutation (item ∷ entries self.old) (entries self.new)) };

    /// Takes an entry; `None` if no entry has a key of at most `limit`.
    fn take(&mut self, limit: u64) -> Result<Option<Open<u64>>, AllocError>
        requires { limit < span }
        ensures some { IfOk result (λ answer. IfSome answer (λ item.
            IsPermutation (entries self.old) (item ∷ entries self.new))) }
        ensures none { IfOk result (λ answer. IfNone answer (
            All (λ item. limit < item.key) (entries self.old))) };
}
