//! A pass over a plane that finds what the least path costs: best first, by the cost of a way and
//! the bound of the rest.
ghost use Rattle.std.specs.Prelude.{◌≡◌, ℕ, List, ◌+◌, ◌<◌, ◌≤◌, ◌^◌, ◌∷◌, IfOk, OnOk, length};
ghost use Rattle.std.specs.List.{All, Contains};
ghost use Rattle.std.specs.List.Sorted.{IsPermutation};
ghost use Rattle.plane_search.specs.Starts.{places_of};
ghost use Rattle.plane_search.specs.Walk.{AreNoCheaper};
ghost use Rattle.plane_search.specs.Queues.{CanHold};
ghost use Rattle.plane_search.specs.Reach.{CanMark, AreSound, IsMet, IsUnderWay, IsFollowing, IsEnd, IsStart, IsBeginning, measure_of};

use crate::marks::{Cell, Marks};
use crate::planes::{Planes, Start};
use crate::queue::{Open, Queue};
use crate::starts::Starts;
use std::alloc::{AllocError, Global};

/// A plane.
#[derive(Drop)]
pub(crate) struct View<'a, P: Planes> {
    pub(crate) planes: &'a P,
    pub(crate) track: usize,
    pub(crate) exit: usize,
    ghost on: { track < (P.family planes.now).tracks },
    ghost to: { exit ≡ (P.family planes.now).exit },
}

/// The costs at which the places of a plane are entered from some starts.
#[derive(Drop)]
pub(crate) struct Reach<C: Cell, Q: Queue> {
    pub(crate) marks: Marks<C>,
    queue: Q,
    ghost same: { Q.span ≡ C.SPAN },
}

impl<C: Cell, Q: Queue> Reach<C, Q> {
    /// A pass without memory yet.
    pub(crate) fn new(alloc: Global, queue: Q) -> Self
        requires { Q.span ≡ C.SPAN }
    {
        Reach {
            marks: Marks::new(alloc),
            queue,
        }
    }

    /// Forgets all marks, and provides room for `count` places.
    pub(crate) fn forget(&mut self, count: usize) -> Result<(), AllocError>
        ensures room { OnOk result (count ≤ length self.new.marks) }
        ensures unmarked { OnOk result (All (λ cost. C.SPAN ≤ cost) self.new.marks) }
    {
        self.marks.renew(count)
    }

    /// What the least path from the starts costs; `most + 1` if each costs more than `most`. Marks
    /// places with the least costs of ways to them.
    pub(crate) fn least_cost<P: Planes>(
        &mut self,
        starts: &Starts<'_, P>,
        most: u64,
    ) -> Result<u64, AllocError>
        requires { most + 1 < C.SPAN }
        ensures least { IfOk result (λ least.
            AreNoCheaper ((P.family starts.now.view.now.planes.now).plane starts.now.view.now.track)
            (P.family starts.now.view.now.planes.now).exit least (places_of starts.now.list.now)) }
        ensures met { IfOk result (λ least. least ≤ most →
            IsMet ((P.family starts.now.view.now.planes.now).plane starts.now.view.now.track)
            (places_of starts.now.list.now) (P.family starts.now.view.now.planes.now).exit least) }
        ensures some { IfOk result (λ least. 1 ≤ least) }
        ensures few { IfOk result (λ least. least ≤ most + 1) }
        ensures room { OnOk result
            ((P.family starts.now.view.now.planes.now).places ≤ length self.new.marks) }
        ensures sound { OnOk result ((best : ℕ) →
            AreSound ((P.family starts.now.view.now.planes.now).plane starts.now.view.now.track)
            C.SPAN (places_of starts.now.list.now) (P.family starts.now.view.now.planes.now).exit
            best self.new.marks) }
    {
        let view = starts.view;
        let _tracks = view.planes.tracks();
        self.begin(starts, most)?;
        let mut limit = most;
        while let Some(item) = self.queue.take(limit)? {
            limit = self.follow(view, item, limit)?;
        }
        Ok(limit + 1)
    }

    /// Enters the starts.
    fn begin<P: Planes>(&mut self, starts: &Starts<'_, P>, most: u64) -> Result<(), AllocError>
        requires { most < C.SPAN }
        ensures { OnOk result (
            IsUnderWay ((P.family starts.now.view.now.planes.now).plane starts.now.view.now.track)
            C.SPAN (places_of starts.now.list.now) (P.family starts.now.view.now.planes.now).exit
            most most self.new.marks (Q.entries self.new.queue)) }
    {
        let _tracks = starts.view.planes.tracks();
        self.marks.renew(starts.view.planes.places())?;
        self.queue.clear();
        for start in starts.list {
            self.offer_start(starts, *start, most)?;
        }
        Ok(())
    }

    /// Enters a start, if a path from it may cost at most `most`.
    fn offer_start<P: Planes>(
        &mut self,
        starts: &Starts<'_, P>,
        start: Start,
        most: u64,
    ) -> Result<(), AllocError>
        requires among { Contains starts.now.list.now start }
        requires can { CanMark (P.family starts.now.view.now.planes.now).places C.SPAN most
            self.old.marks }
        ensures on { OnOk result ((k : ℕ) → IsStart (places_of starts.now.list.now) k start.place →
            IsBeginning ((P.family starts.now.view.now.planes.now).plane starts.now.view.now.track)
            C.SPAN (places_of starts.now.list.now) (P.family starts.now.view.now.planes.now).exit
            most k self.old.marks (Q.entries self.old.queue) →
            IsBeginning ((P.family starts.now.view.now.planes.now).plane starts.now.view.now.track)
            C.SPAN (places_of starts.now.list.now) (P.family starts.now.view.now.planes.now).exit
            most (k + 1) self.new.marks (Q.entries self.new.queue)) }
        ensures room { OnOk result (length self.new.marks ≡ length self.old.marks) }
    {
        let _tracks = starts.view.planes.tracks();
        if most < start.ahead {
            return Ok(());
        }
        self.marks.enter(start.place, 0);
        self.wait(start.place, 0, start.ahead, 0)?;
        Ok(())
    }

    /// Adds an entry, which comes next if its key is at most `level`.
    #[inline(always)]
    fn wait(&mut self, place: usize, cost: u64, key: u64, level: u64) -> Result<(), AllocError>
        requires place { place < 2 ^ 32 }
        requires held { CanHold C.SPAN cost key }
        ensures marks { OnOk result (self.new.marks ≡ self.old.marks) }
        ensures added { OnOk result (IsPermutation
            ((record { place = place; cost = cost; key = key }) ∷ Q.entries self.old.queue)
            (Q.entries self.new.queue)) }
    {
        let item = Open {
            place: place as u32,
            cost,
            key,
        };
        self.queue.put(item, level)
    }

    /// Follows the edges of the place of an entry that was taken, unless the place was entered at a
    /// lower cost since. Returns the new limit.
    #[inline(always)]
    fn follow<P: Planes>(
        &mut self,
        view: &View<'_, P>,
        item: Open<u64>,
        limit: u64,
    ) -> Result<u64, AllocError>
        requires place { item.place < (P.family view.now.planes.now).places }
        requires can { CanMark (P.family view.now.planes.now).places C.SPAN limit self.old.marks }
        ensures under_way { IfOk result (λ new_limit. (starts : List ℕ) (most : ℕ) →
            IsUnderWay ((P.family view.now.planes.now).plane view.now.track) C.SPAN starts
            (P.family view.now.planes.now).exit most limit self.old.marks
            (item ∷ Q.entries self.old.queue) →
            IsUnderWay ((P.family view.now.planes.now).plane view.now.track) C.SPAN starts
            (P.family view.now.planes.now).exit most new_limit self.new.marks
            (Q.entries self.new.queue)) }
        ensures limit { IfOk result (λ new_limit. new_limit ≤ limit) }
        ensures nearer { OnOk result (measure_of self.new.marks (Q.entries self.new.queue)
            ≤ measure_of self.old.marks (Q.entries self.old.queue)) }
    {
        let _tracks = view.planes.tracks();
        let cost = self.marks.cost(item.place as usize);
        if item.cost != cost {
            return Ok(limit);
        }
        let mut limit = limit;
        let ends = view.planes.ends(view.track, item.place as usize);
        for end in ends.list {
            let place = *end as usize + ends.base;
            limit = self.offer(view, item, place, limit)?;
        }
        Ok(limit)
    }

    /// Enters the end of an edge, if a path over it may cost at most the limit, and returns the new
    /// limit.
    #[inline(always)]
    fn offer<P: Planes>(
        &mut self,
        view: &View<'_, P>,
        item: Open<u64>,
        place: usize,
        limit: u64,
    ) -> Result<u64, AllocError>
        requires place { place < (P.family view.now.planes.now).places }
        requires can { CanMark (P.family view.now.planes.now).places C.SPAN limit self.old.marks }
        ensures on { IfOk result (λ new_limit. (starts : List ℕ) (most k : ℕ) →
            IsEnd ((P.family view.now.planes.now).plane view.now.track) item.place k place →
            IsFollowing ((P.family view.now.planes.now).plane view.now.track) C.SPAN starts
            (P.family view.now.planes.now).exit most limit item k self.old.marks
            (Q.entries self.old.queue) →
            IsFollowing ((P.family view.now.planes.now).plane view.now.track) C.SPAN starts
            (P.family view.now.planes.now).exit most new_limit item (k + 1) self.new.marks
            (Q.entries self.new.queue)) }
        ensures room { OnOk result (length self.new.marks ≡ length self.old.marks) }
        ensures limit { IfOk result (λ new_limit. new_limit ≤ limit) }
        ensures nearer { OnOk result (measure_of self.new.marks (Q.entries self.new.queue)
            ≤ measure_of self.old.marks (Q.entries self.old.queue)) }
    {
        let _tracks = view.planes.tracks();
        let Some(ahead) = view.planes.at_least(view.track, place) else {
            return Ok(limit);
        };
        let room = limit.saturating_sub(item.cost);
        if room <= ahead {
            return Ok(limit);
        }
        let cost = item.cost + view.planes.cost(view.track, place);
        if limit < cost {
            return Ok(limit);
        }
        if self.marks.is_entered(place, cost) {
            return Ok(limit);
        }
        if place == view.exit {
            let below = cost - 1;
            return Ok(below);
        }
        let left = limit - cost;
        if left < ahead {
            return Ok(limit);
        }
        self.marks.enter(place, cost);
        self.wait(place, cost, cost + ahead, item.key)?;
        Ok(limit)
    }
}
