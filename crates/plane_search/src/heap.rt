//! A queue for keys of which few are equal.
ghost use Rattle.std.specs.Prelude.{◌≡◌, ◌^◌, []};

use crate::queue::{Open, Queue};
use std::alloc::{AllocError, Global};
use std::cmp::Reverse;
use std::collections::BinaryHeap;
use std::marker::Model;

/// An entry that waits. The greatest one has the least key and, of those, the greatest cost, since
/// less of its way is left.
#[derive(Clone, Copy, PartialEq, Eq, PartialOrd, Ord)]
struct Waiting {
    key: Reverse<u64>,
    cost: u64,
    place: u32,
}

/// A queue of entries with any costs, in which one with the least key comes first. Its value is a
/// list of all entries.
#[derive(Drop)]
pub(crate) struct Heap {
    waiting: BinaryHeap<Waiting>,
}

impl Model for Heap {
    ghost use Rattle.std.specs.Prelude.{List, ℕ};
    ghost use Rattle.std.specs.BinaryHeap.{heap_items, IsHeap};
    ghost use Rattle.plane_search.specs.declared.queue.Open.{Open};
    ghost use Rattle.plane_search.specs.Heap.{opens_of, waiting_cmp};

    ghost Value = { List (Open ℕ) };

    ghost view = { λ h. opens_of (heap_items h.waiting) };

    ghost invariant = { λ h. IsHeap waiting_cmp (heap_items h.waiting) };
}

impl Heap {
    /// A queue without memory yet.
    pub(crate) fn new(alloc: Global) -> Self
        ensures { result ≡ [] }
    {
        Heap {
            waiting: BinaryHeap::new(alloc),
        }
    }
}

impl Queue for Heap {
    ghost span = { 2 ^ 59 };

    ghost entries = { λ h. h };

    fn clear(&mut self) {
        self.waiting.clear();
    }

    fn put(&mut self, item: Open<u64>, _level: u64) -> Result<(), AllocError> {
        self.waiting.push(Waiting {
            key: Reverse(item.key),
            cost: item.cost,
            place: item.place,
        })?;
        Ok(())
    }

    fn take(&mut self, limit: u64) -> Result<Option<Open<u64>>, AllocError> {
        let Some(first) = self.waiting.pop() else {
            return Ok(None);
        };
        if limit < first.key.0 {
            return Ok(None);
        }
        Ok(Some(Open {
            place: first.place,
            cost: first.cost,
            key: first.key.0,
        }))
    }
}
