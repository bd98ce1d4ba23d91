//! A graph that consists of planes, as a search uses it.
ghost use Rattle.std.specs.Prelude.{◌≡◌, ◌+◌, ◌<◌, ℕ, Option, List, Some, OnOk, map};
ghost use Rattle.std.specs.List.Sorted.{IsNonDecreasing};
ghost use Rattle.plane_search.specs.Prelude.{Graph, IsPath, IsLowerBound};
ghost use Rattle.plane_search.specs.Planes.{Family, IsFamily, IsPlace, IsInPlane, IsPlaneBound, IsRivalBound};
ghost use Rattle.plane_search.specs.Starts.{AreStarts};

use least_path::Ends;
use std::alloc::AllocError;

/// A start, and a lower bound of the cost of any path from it in its plane.
#[derive(Clone, Copy, PartialEq, Eq, PartialOrd, Ord)]
pub struct Start {
    pub place: usize,
    pub ahead: u64,
}

/// A graph that consists of planes, one for each track, with some starts and a goal. The nodes of a
/// plane are places, which are numbered from 0 in each plane.
pub trait Planes {
    ghost family: { Self → Family };

    /// Holds of the nodes of each path that the rivals' bounds are made for.
    ghost is_about: { Self → List ℕ → Type 0 };

    /// The number of tracks, at least 1.
    fn tracks(&self) -> usize
        ensures value { result ≡ (family self.now).tracks }
        ensures lawful { IsFamily (family self.now) };

    /// The number of places of each plane, at most 2^22.
    fn places(&self) -> usize
        ensures { result ≡ (family self.now).places };

    /// Lists the starts that are in a track's plane, in any order. A start may be left out if each
    /// path from it costs more than `most`; at the greatest `most` no start is left out.
    fn list_starts(
        &self,
        track: usize,
        most: u64,
        starts: &mut Vec<Start>,
    ) -> Result<(), AllocError>
        requires { track < (family self.now).tracks }
        ensures { OnOk result (AreStarts (family self.now) track most starts.new.items) };

    /// The place of the goal, the same in each plane.
    fn exit(&self) -> usize
        ensures { result ≡ (family self.now).exit };

    /// The number of a place's node in the whole graph.
    fn number(&self, track: usize, place: usize) -> usize
        requires track { track < (family self.now).tracks }
        requires place { IsPlace (family self.now) track place }
        ensures { result ≡ (family self.now).number track place };

    /// The ends of the edges from a place in its plane, in rising order: fewer than 2^32.
    fn ends(&self, track: usize, place: usize) -> Ends<'_>
        requires track { track < (family self.now).tracks }
        requires place { place < (family self.now).places }
        ensures value { map (λ end. end + result.base) result.list.now
            ≡ ((family self.now).plane track).ends place }
        ensures rising { IsNonDecreasing result.list.now };

    /// The cost of entering a place, from 1 to 2^36.
    fn cost(&self, track: usize, place: usize) -> u64
        requires track { track < (family self.now).tracks }
        requires place { place < (family self.now).places }
        ensures { result ≡ ((family self.now).plane track).cost place };

    /// A lower bound of the cost of any way from the place to the goal in its plane; `None` only if
    /// there is no way. A greater bound makes a search faster and changes no result.
    fn at_least(&self, track: usize, place: usize) -> Option<u64>
        requires track { track < (family self.now).tracks }
        requires place { place < (family self.now).places }
        ensures { IsLowerBound ((family self.now).plane track) (family self.now).exit place
            result };

    /// A lower bound of the cost of any path in a track's plane. The plane with the least bound is
    /// searched first, and those with a bound above the best path's cost are not searched at all. A
    /// greater bound makes a search faster and changes no result.
    fn bound(&self, track: usize) -> u64
        requires { track < (family self.now).tracks }
        ensures { IsPlaneBound (family self.now) track result };

    /// A lower bound of the cost of any path in a track's plane that comes before the known path in
    /// the order of nodes. A plane is not searched for a path that costs as much as the known one
    /// if this bound is above that cost.
    fn rival_bound(&self, track: usize) -> u64
        requires { track < (family self.now).tracks }
        ensures { (known : List ℕ) → is_about self.now known →
            IsRivalBound (family self.now) track known result };
}

/// Each path of the whole graph from a start to the goal is a path of one of its planes.
pub fn split_law()
    ensures { (f : Family) (path : List ℕ) → IsFamily f → IsPath f.whole f.starts f.goal path →
        IsInPlane f path }
{}
