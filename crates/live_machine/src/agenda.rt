//! What workers do next.
ghost use Rattle.std.specs.Prelude.{◌≡◌, ◌+◌, length, IfSome};

use std::alloc::{AllocError, Global};
use std::collections::VecDeque;

/// A tenancy for whose step memory ran out that many times in a row.
#[derive(Clone, Copy)]
struct Lack {
    id: u32,
    tries: u32,
}

/// The tenancies that may have a step to take, each at most once, and those for whose steps memory
/// ran out.
#[derive(Drop)]
pub(crate) struct Agenda {
    ready: VecDeque<u32>,
    lacks: Vec<Lack>,
    /// The place, among the names that are held, after the one that had the last turn.
    after_turn: usize,
}

impl Agenda {
    /// Nothing is to be done. Takes no memory.
    pub(crate) fn new(alloc: Global) -> Self {
        Agenda {
            ready: VecDeque::new(alloc),
            lacks: Vec::new(alloc),
            after_turn: 0,
        }
    }

    /// The place of the name that has the next turn, if it can be served on: names have their turns
    /// round and round.
    pub(crate) fn after_turn(&self) -> usize {
        self.after_turn
    }

    /// Notes that the name at that place has its turn.
    pub(crate) fn note_turn(&mut self, place: usize) {
        self.after_turn = place.saturating_add(1);
    }

    /// How many tenancies may have a step to take.
    pub(crate) fn len(&self) -> usize {
        self.ready.len()
    }

    /// Notes that a tenancy may have a step to take.
    pub(crate) fn mark(&mut self, id: u32) -> Result<(), AllocError> {
        if self.ready.iter().any(|marked| *marked == id) {
            return Ok(());
        }
        match self.ready.push_back(id) {
            Ok(()) => Ok(()),
            Err(_) => Err(AllocError),
        }
    }

    /// Takes the next tenancy that may have a step to take.
    pub(crate) fn next(&mut self) -> Option<u32>
        ensures { IfSome result (λ _.
            length self.new.ready.items + 1 ≡ length self.old.ready.items) }
    {
        self.ready.pop_front()
    }

    /// Forgets how often memory ran out for that tenancy's steps.
    pub(crate) fn forget(&mut self, id: u32) {
        self.lacks.retain(|lack| lack.id != id);
    }

    /// Counts one more time that memory ran out for a step of that tenancy, in a row.
    pub(crate) fn count(&mut self, id: u32) -> Result<u32, AllocError> {
        for lack in self.lacks.iter_mut() {
            if lack.id == id {
                lack.tries = lack.tries.saturating_add(1);
                return Ok(lack.tries);
            }
        }
        match self.lacks.push(Lack { id, tries: 1 }) {
            Ok(()) => Ok(1),
            Err(_) => Err(AllocError),
        }
    }
}
