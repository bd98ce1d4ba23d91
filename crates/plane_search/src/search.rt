//! A search of one plane at a time.
ghost use Rattle.std.specs.Prelude.{◌≡◌, ℕ, ◌≤◌, ◌∷◌, [], true, false, All, Ok, OnOk, map, List, Contains};
ghost use Rattle.std.specs.Bool.{MatchBool};
ghost use Rattle.std.specs.Ordering.{nat_cmp, ordering_then};
ghost use Rattle.std.specs.Cmp.Lexicographic.{slice_cmp};
ghost use Rattle.std.specs.declared.cmp.Ordering.TheVariants.{Less};
ghost use Rattle.plane_search.specs.Planes.{IsPlace, IsKnown, IsLeastOfTrack};
ghost use Rattle.plane_search.specs.Starts.{places_of};
ghost use Rattle.plane_search.specs.Best.{HoldsNone, HoldsNothingBeyond, Improves, IsNoLater, AreListed, IsLeastOn, IsLeastIn, HasNoneWithin};

use crate::finder::Finder;
use crate::heap::Heap;
use crate::levels::Levels;
use crate::marks::Cell;
use crate::planes::{Planes, Start};
use crate::reach::View;
use crate::starts::Starts;
use least_path::{Path, least_path_law};
use std::alloc::{AllocError, Global};
use std::mem;

/// The near search finds paths that cost less than this.
const NEAR: u64 = <u32 as Cell>::SPAN;

/// The far search finds paths that cost less than this, as each least path does.
const FAR: u64 = <u64 as Cell>::SPAN;

/// Searches for paths of any costs.
#[derive(Drop)]
struct Finders {
    near: Finder<u32, Levels>,
    /// For paths that cost more.
    far: Finder<u64, Heap>,
}

/// Searches one plane at a time, and reuses its memory from one to the next.
#[derive(Drop)]
pub(crate) struct TrackSearch {
    finders: Finders,
    /// The starts of the search of a plane, in rising order.
    starts: Vec<Start>,
    /// The path that was found in it.
    found: Path,
}

/// Replaces each place by the number of its node.
fn number_nodes<P: Planes>(view: &View<'_, P>, nodes: &mut Vec<usize>)
    requires { All (IsPlace (P.family view.now.planes.now) view.now.track) nodes.old.items }
    ensures { nodes.new.items
        ≡ map ((P.family view.now.planes.now).number view.now.track) nodes.old.items }
{
    for node in nodes.iter_mut() {
        *node = view.planes.number(view.track, *node);
    }
}

/// Whether one of the starts is at this place.
fn is_start(starts: &[Start], place: usize) -> bool
    ensures { MatchBool result (Contains (places_of starts.now) place)
        (Contains (places_of starts.now) place → ⊥) }
{
    for start in starts {
        if start.place == place {
            return true;
        }
    }
    false
}

/// Replaces the path by one that has only this place.
fn stay_at(place: usize, path: &mut Path) -> Result<(), AllocError>
    ensures nodes { OnOk result (path.new.nodes.items ≡ place ∷ []) }
    ensures cost { OnOk result (path.new.cost ≡ 0) }
{
    path.nodes.clear();
    path.nodes.push(place)?;
    path.cost = 0;
    Ok(())
}

/// Whether the path is less than the other, by their costs and nodes.
fn is_less(path: &Path, other: &Path) -> bool
    ensures { MatchBool result
        (ordering_then (nat_cmp path.now.cost other.now.cost)
        (slice_cmp nat_cmp path.now.nodes.items other.now.nodes.items) ≡ Less)
        (ordering_then (nat_cmp path.now.cost other.now.cost)
        (slice_cmp nat_cmp path.now.nodes.items other.now.nodes.items) ≡ Less → ⊥) }
{
    path.cost < other.cost
        || path.cost == other.cost && path.nodes.as_slice() < other.nodes.as_slice()
}

/// What a path in a track's plane costs at most if it is less than the path. If that costs as much
/// as the known one, it is the known one or comes before it.
#[inline(always)]
fn lesser_limit<P: Planes>(view: &View<'_, P>, known_cost: u64, path: &Path) -> u64
    requires { IsKnown (P.family view.now.planes.now) path.now }
    ensures { (nodes : List ℕ) → P.is_about view.now.planes.now nodes →
        IsNoLater known_cost nodes path.now →
        HoldsNothingBeyond (P.family view.now.planes.now) view.now.track path.now.nodes.items
        result }
{
    let _tracks = view.planes.tracks();
    if path.cost != known_cost {
        return path.cost;
    }
    if view.planes.rival_bound(view.track) <= path.cost {
        return path.cost;
    }
    path.cost.saturating_sub(1)
}

impl Finders {
    /// Replaces `path` by the least path of a plane from the starts, by places. If no path costs at
    /// most `most`, returns `false`.
    fn find<P: Planes>(
        &mut self,
        starts: &Starts<'_, P>,
        most: u64,
        path: &mut Path,
    ) -> Result<bool, AllocError>
        ensures found { result ≡ Ok true → IsLeastOn (P.family starts.now.view.now.planes.now)
            starts.now.view.now.track (places_of starts.now.list.now) path.new }
        ensures within { result ≡ Ok true → path.new.cost ≤ most }
        ensures none { result ≡ Ok false → HasNoneWithin (P.family starts.now.view.now.planes.now)
            starts.now.view.now.track (places_of starts.now.list.now) most }
    {
        least_path_law();
        let _tracks = starts.view.planes.tracks();
        if most < NEAR - 1 {
            return self.near.find(starts, most, path);
        }
        if most < FAR - 1 {
            return self.far.find(starts, most, path);
        }
        // No least path costs more.
        self.far.find(starts, FAR - 2, path)
    }
}

impl TrackSearch {
    /// A search without memory yet.
    pub(crate) fn new(alloc: Global) -> Self {
        let nodes = Vec::new(alloc);
        TrackSearch {
            finders: Finders {
                near: Finder::new(alloc, Levels::new(alloc)),
                far: Finder::new(alloc, Heap::new(alloc)),
            },
            starts: Vec::new(alloc),
            found: Path { nodes, cost: 0 },
        }
    }

    /// Replaces `path` by the least path of a plane, if there is one.
    pub(crate) fn begin<P: Planes>(
        &mut self,
        view: &View<'_, P>,
        path: &mut Path,
    ) -> Result<bool, AllocError>
        ensures found { result ≡ Ok true →
            IsLeastOfTrack (P.family view.now.planes.now) view.now.track path.new }
        ensures none { result ≡ Ok false → HoldsNone (P.family view.now.planes.now) view.now.track }
    {
        let _tracks = view.planes.tracks();
        if !self.find_first(view)? {
            return Ok(false);
        }
        number_nodes(view, &mut self.found.nodes);
        mem::swap(path, &mut self.found);
        Ok(true)
    }

    /// Finds the least path of a plane, by places: first among those that cost little.
    fn find_first<P: Planes>(&mut self, view: &View<'_, P>) -> Result<bool, AllocError>
        ensures found { result ≡ Ok true → IsLeastOn (P.family view.now.planes.now) view.now.track
            ((P.family view.now.planes.now).entries view.now.track) self.new.found }
        ensures none { result ≡ Ok false → HoldsNone (P.family view.now.planes.now) view.now.track }
    {
        least_path_law();
        let _tracks = view.planes.tracks();
        let most = NEAR - 2;
        self.list_in_order(view, most)?;
        if self.find(view, most)? {
            return Ok(true);
        }
        self.list_in_order(view, u64::MAX)?;
        self.find(view, u64::MAX)
    }

    /// Goes on with one more plane: replaces `path` by the least path of the plane if that is less.
    /// If `path` costs as much as the known one, it is the known one or comes before it.
    pub(crate) fn improve<P: Planes>(
        &mut self,
        view: &View<'_, P>,
        known_cost: u64,
        path: &mut Path,
    ) -> Result<(), AllocError>
        requires { IsKnown (P.family view.now.planes.now) path.old }
        ensures { OnOk result ((nodes : List ℕ) → P.is_about view.now.planes.now nodes →
            IsNoLater known_cost nodes path.old →
            Improves (P.family view.now.planes.now) view.now.track known_cost nodes path.old
            path.new) }
    {
        let _tracks = view.planes.tracks();
        let most = lesser_limit(view, known_cost, path);
        if most < view.planes.bound(view.track) {
            return Ok(());
        }
        self.list_in_order(view, most)?;
        if !self.find_nodes(view, most)? {
            return Ok(());
        }
        if is_less(&self.found, path) {
            mem::swap(path, &mut self.found);
        }
        Ok(())
    }

    /// Lists the starts of a plane from which a path may cost at most `most`, in rising order.
    fn list_in_order<P: Planes>(&mut self, view: &View<'_, P>, most: u64) -> Result<(), AllocError>
        ensures { OnOk result (AreListed (P.family view.now.planes.now) view.now.track most
            self.new.starts.items) }
    {
        view.planes.list_starts(view.track, most, &mut self.starts)?;
        self.starts.sort_unstable();
        Ok(())
    }

    /// Finds the least path of a plane from the listed starts, by nodes of the whole graph. If no
    /// path costs at most `most`, returns `false`.
    fn find_nodes<P: Planes>(&mut self, view: &View<'_, P>, most: u64) -> Result<bool, AllocError>
        requires { AreListed (P.family view.now.planes.now) view.now.track most
            self.old.starts.items }
        ensures found { result ≡ Ok true → IsLeastIn (P.family view.now.planes.now) view.now.track
            (places_of self.old.starts.items) self.new.found }
        ensures none { result ≡ Ok false → HasNoneWithin (P.family view.now.planes.now)
            view.now.track (places_of self.old.starts.items) most }
    {
        let _tracks = view.planes.tracks();
        if !self.find(view, most)? {
            return Ok(false);
        }
        number_nodes(view, &mut self.found.nodes);
        Ok(true)
    }

    /// Finds the least path of a plane from the listed starts, by places. If no path costs at most
    /// `most`, returns `false`.
    fn find<P: Planes>(&mut self, view: &View<'_, P>, most: u64) -> Result<bool, AllocError>
        requires { (limit : ℕ) × AreListed (P.family view.now.planes.now) view.now.track limit
            self.old.starts.items }
        ensures found { result ≡ Ok true → IsLeastOn (P.family view.now.planes.now) view.now.track
            (places_of self.old.starts.items) self.new.found }
        ensures within { result ≡ Ok true → self.new.found.cost ≤ most }
        ensures none { result ≡ Ok false → HasNoneWithin (P.family view.now.planes.now)
            view.now.track (places_of self.old.starts.items) most }
    {
        let _tracks = view.planes.tracks();
        let list = self.starts.as_slice();
        let bound = view.planes.bound(view.track);
        if bound > 0 {
            let starts = Starts { view, list, bound };
            return self.finders.find(&starts, most, &mut self.found);
        }
        if is_start(list, view.exit) {
            stay_at(view.exit, &mut self.found)?;
            return Ok(true);
        }
        let starts = Starts {
            view,
            list,
            bound: 1,
        };
        self.finders.find(&starts, most, &mut self.found)
    }
}
