//! A walk through a plane along ways over which a path of a given cost may lead, where no path
//! costs less. At each place it takes the first edge over which such a path may lead, and at a
//! place from which none does, it goes back: so the first path that it completes is the least. Each
//! place is entered once at each cost.
ghost use Rattle.std.specs.Prelude.{◌≡◌, ℕ, Contains, ◌+◌, ◌<◌, ◌^◌, ◌∷◌, ◌++◌, [], true, false, Ok, IfSome, IfNone, OnOk, length};
ghost use Rattle.std.specs.Option.{option_to_list};
ghost use Rattle.std.proofs.Common.{set};
ghost use Rattle.plane_search.specs.Prelude.{cost_of, IsLeastPath};
ghost use Rattle.plane_search.specs.Starts.{places_of};
ghost use Rattle.plane_search.specs.Walk.{AreOrderedStarts, CanBeLeast, CanGoOver, IsFit, IsUnfit, IsNext, AreUnfit, IsBetween, IsLeastFrom, CostsMore, places_in, stop_at, after_step};

use crate::marks::{Cell, Marks};
use crate::planes::{Planes, Start};
use least_path::Path;
use std::alloc::{AllocError, Global};

/// A place of the way that is being tried.
#[derive(Clone, Copy)]
struct Stop {
    place: usize,
    /// The cost of the way up to it.
    cost: u64,
    /// The number of the edge that is tried next.
    next_edge: usize,
}

/// An edge from a stop.
#[derive(Clone, Copy)]
struct Step {
    edge: usize,
    /// Where it ends.
    place: usize,
    /// The cost of the way up to there.
    cost: u64,
}

/// A plane, where paths may begin in it, and the cost of those that are looked for.
#[derive(Drop)]
pub(crate) struct Aim<'a, P: Planes, C: Cell> {
    pub(crate) planes: &'a P,
    pub(crate) track: usize,
    pub(crate) exit: usize,
    /// In rising order.
    pub(crate) starts: &'a [Start],
    pub(crate) best: u64,
    /// The least costs of ways to places, as far as they are known.
    pub(crate) reached: &'a Marks<C>,
    ghost on: { track < (P.family planes.now).tracks },
    ghost to: { exit ≡ (P.family planes.now).exit },
    ghost ordered: { AreOrderedStarts ((P.family planes.now).plane track)
        (P.family planes.now).exit starts.now },
    ghost can: { CanBeLeast (P.family planes.now) track (places_of starts.now) C.SPAN best
        reached.now },
}

/// A walk that reuses its memory from one plane to the next.
#[derive(Drop)]
pub(crate) struct Walk<C: Cell> {
    marks: Marks<C>,
    stops: Vec<Stop>,
}

/// The cost at which the place may be entered from a stop that was reached at cost `before`, if a
/// path of the wanted cost may lead over it.
#[inline(always)]
fn fitting_cost<P: Planes, C: Cell>(
    marks: &Marks<C>,
    aim: &Aim<'_, P, C>,
    place: usize,
    before: u64,
) -> Option<u64>
    requires { CanGoOver (P.family aim.now.planes.now).places aim.now.best marks.now place before }
    ensures some { IfSome result (λ cost. IsFit ((P.family aim.now.planes.now).plane aim.now.track)
        aim.now.best marks.now place before cost) }
    ensures none { IfNone result (IsUnfit ((P.family aim.now.planes.now).plane aim.now.track)
        (P.family aim.now.planes.now).exit aim.now.best marks.now place
        (before + ((P.family aim.now.planes.now).plane aim.now.track).cost place)) }
{
    let _tracks = aim.planes.tracks();
    let Some(ahead) = aim.planes.at_least(aim.track, place) else {
        return None;
    };
    if aim.best - before <= ahead {
        return None;
    }
    let cost = before + aim.planes.cost(aim.track, place);
    if aim.best < cost {
        return None;
    }
    let left = aim.best - cost;
    if left < ahead || marks.is_entered(place, cost) {
        return None;
    }
    if aim.reached.is_below(place, cost) {
        return None;
    }
    Some(cost)
}

/// The first step from the stop, from its next edge on, over which a path of the wanted cost may
/// lead.
#[inline(always)]
fn next_step<P: Planes, C: Cell>(marks: &Marks<C>, aim: &Aim<'_, P, C>, stop: Stop) -> Option<Step>
    requires { CanGoOver (P.family aim.now.planes.now).places aim.now.best marks.now stop.place
        stop.cost }
    ensures some { IfSome result (λ step. IsNext ((P.family aim.now.planes.now).plane aim.now.track)
        (P.family aim.now.planes.now).exit aim.now.best marks.now stop step) }
    ensures none { IfNone result (AreUnfit ((P.family aim.now.planes.now).plane aim.now.track)
        (P.family aim.now.planes.now).exit aim.now.best marks.now stop stop.next_edge
        (length (((P.family aim.now.planes.now).plane aim.now.track).ends stop.place))) }
{
    let _tracks = aim.planes.tracks();
    let ends = aim.planes.ends(aim.track, stop.place);
    let mut edge = stop.next_edge;
    while edge < ends.list.len() {
        let place = ends.list[edge] as usize + ends.base;
        if let Some(cost) = fitting_cost(marks, aim, place, stop.cost) {
            return Some(Step { edge, place, cost });
        }
        edge += 1;
    }
    None
}

impl<C: Cell> Walk<C> {
    /// A walk without memory yet.
    pub(crate) fn new(alloc: Global) -> Self {
        Walk {
            marks: Marks::new(alloc),
            stops: Vec::new(alloc),
        }
    }

    /// Replaces `path` by the least path of the plane from the starts, if a path has the wanted
    /// cost, and returns whether there is one.
    pub(crate) fn least_into<P: Planes>(
        &mut self,
        aim: &Aim<'_, P, C>,
        path: &mut Path,
    ) -> Result<bool, AllocError>
        ensures found { result ≡ Ok true →
            IsLeastPath ((P.family aim.now.planes.now).plane aim.now.track)
            (places_of aim.now.starts.now) (P.family aim.now.planes.now).exit path.new.nodes.items }
        ensures cost { result ≡ Ok true → path.new.cost
            ≡ cost_of ((P.family aim.now.planes.now).plane aim.now.track) path.new.nodes.items }
        ensures best { result ≡ Ok true → path.new.cost ≡ aim.now.best }
        ensures none { result ≡ Ok false → (start : ℕ) →
            Contains (places_of aim.now.starts.now) start →
            CostsMore ((P.family aim.now.planes.now).plane aim.now.track)
            (P.family aim.now.planes.now).exit aim.now.best start 0 }
    {
        let _tracks = aim.planes.tracks();
        self.marks.renew(aim.planes.places())?;
        for start in aim.starts {
            if self.walk_from(aim, *start)? {
                self.write_path(aim.exit, &mut path.nodes)?;
                path.cost = aim.best;
                return Ok(true);
            }
        }
        Ok(false)
    }

    /// Walks on from a start, if a path of the wanted cost may begin there, until one is complete,
    /// and returns whether there is one.
    fn walk_from<P: Planes>(
        &mut self,
        aim: &Aim<'_, P, C>,
        start: Start,
    ) -> Result<bool, AllocError>
        requires among { Contains aim.now.starts.now start }
        requires between { IsBetween ((P.family aim.now.planes.now).plane aim.now.track) C.SPAN
            (P.family aim.now.planes.now).exit aim.now.best self.old.marks }
        ensures found { result ≡ Ok true →
            IsLeastFrom ((P.family aim.now.planes.now).plane aim.now.track)
            (P.family aim.now.planes.now).exit aim.now.best start.place
            (places_in self.new.stops.items ++ (P.family aim.now.planes.now).exit ∷ []) }
        ensures none { result ≡ Ok false →
            CostsMore ((P.family aim.now.planes.now).plane aim.now.track)
            (P.family aim.now.planes.now).exit aim.now.best start.place 0 }
        ensures between { result ≡ Ok false →
            IsBetween ((P.family aim.now.planes.now).plane aim.now.track) C.SPAN
            (P.family aim.now.planes.now).exit aim.now.best self.new.marks }
    {
        let _tracks = aim.planes.tracks();
        if aim.best < start.ahead {
            return Ok(false);
        }
        let mut current = Some(self.begin_at(start.place));
        while let Some(stop) = current {
            if let Some(step) = next_step(&self.marks, aim, stop) {
                self.put_back(stop, step)?;
                if step.place == aim.exit {
                    return Ok(true);
                }
                current = Some(self.enter(step));
            } else {
                current = self.take_stop();
            }
        }
        Ok(false)
    }

    /// Enters the start, with no other stop.
    fn begin_at(&mut self, start: usize) -> Stop
        requires { start < length self.old.marks }
        ensures stop { result ≡ stop_at start 0 }
        ensures marks { self.new.marks ≡ set self.old.marks start 0 }
        ensures stops { self.new.stops.items ≡ [] }
    {
        self.stops.clear();
        self.marks.enter(start, 0);
        Stop {
            place: start,
            cost: 0,
            next_edge: 0,
        }
    }

    /// Takes the last stop; `None` if there is no stop.
    #[inline(always)]
    fn take_stop(&mut self) -> Option<Stop>
        ensures marks { self.new.marks ≡ self.old.marks }
        ensures all { self.old.stops.items ≡ self.new.stops.items ++ option_to_list result }
        ensures none { IfNone result (self.old.stops.items ≡ []) }
    {
        self.stops.pop()
    }

    /// Puts the stop back, from which the step leads.
    #[inline(always)]
    fn put_back(&mut self, stop: Stop, step: Step) -> Result<(), AllocError>
        requires { step.edge + 1 < 2 ^ 64 }
        ensures marks { OnOk result (self.new.marks ≡ self.old.marks) }
        ensures stops { OnOk result (self.new.stops.items
            ≡ self.old.stops.items ++ after_step stop step ∷ []) }
    {
        self.stops.push(Stop {
            place: stop.place,
            cost: stop.cost,
            next_edge: step.edge + 1,
        })?;
        Ok(())
    }

    /// Enters the place that the step leads to.
    #[inline(always)]
    fn enter(&mut self, step: Step) -> Stop
        requires place { step.place < length self.old.marks }
        requires cost { step.cost < C.SPAN }
        ensures stop { result ≡ stop_at step.place step.cost }
        ensures marks { self.new.marks ≡ set self.old.marks step.place step.cost }
        ensures stops { self.new.stops ≡ self.old.stops }
    {
        self.marks.enter(step.place, step.cost);
        Stop {
            place: step.place,
            cost: step.cost,
            next_edge: 0,
        }
    }

    /// Writes the places of the stops, and the goal.
    fn write_path(&self, exit: usize, nodes: &mut Vec<usize>) -> Result<(), AllocError>
        ensures { OnOk result (nodes.new.items ≡ places_in self.now.stops.items ++ exit ∷ []) }
    {
        nodes.clear();
        for stop in self.stops.as_slice() {
            nodes.push(stop.place)?;
        }
        nodes.push(exit)?;
        Ok(())
    }
}
