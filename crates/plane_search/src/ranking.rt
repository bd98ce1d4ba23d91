//! A search that goes through the planes in the order of their bounds.
ghost use Rattle.std.specs.Prelude.{◌≡◌, ◌<◌, ℕ, false, Some, None, Ok, OnOk};
ghost use Rattle.plane_search.specs.Prelude.{least_path, TellsLeastPath, HasNoPath};
ghost use Rattle.plane_search.specs.Planes.{IsPlaneBound, IsKnown, HoldsNothingLess, IsLeastOfTrack};
ghost use Rattle.plane_search.specs.Ranking.{IsBestKnown, tracks_in, AreRanked};

use crate::planes::Planes;
use crate::reach::View;
use crate::search::TrackSearch;
use least_path::{Path, least_path_law};
use std::alloc::{AllocError, Global};

/// A track, and a lower bound of the costs of the paths in its plane.
#[derive(Clone, Copy, PartialEq, Eq, PartialOrd, Ord)]
struct Ranked {
    bound: u64,
    track: usize,
}

/// Lists all tracks in the order of their planes' bounds.
fn rank_all<P: Planes>(planes: &P, ranking: &mut Vec<Ranked>) -> Result<(), AllocError>
    ensures { OnOk result (AreRanked (P.family planes.now) (λ track. ⊥)
        (P.family planes.now).tracks (tracks_in ranking.new.items)) }
{
    ranking.clear();
    for track in 0..planes.tracks() {
        let bound = planes.bound(track);
        ranking.push(Ranked { bound, track })?;
    }
    ranking.sort_unstable();
    Ok(())
}

/// Whether a plane may hold a path that is less than the known one, which is no greater than those
/// of the plane `done`.
#[inline(always)]
fn may_improve<P: Planes>(view: &View<'_, P>, bound: u64, done: usize, path: &Path) -> bool
    requires bound { IsPlaneBound (P.family view.now.planes.now) view.now.track bound }
    requires known { IsBestKnown (P.family view.now.planes.now) (P.is_about view.now.planes.now)
        done path.now }
    ensures { result ≡ false →
        HoldsNothingLess (P.family view.now.planes.now) view.now.track path.now.nodes.items }
{
    let _tracks = view.planes.tracks();
    if view.track == done {
        return false;
    }
    if bound < path.cost {
        return true;
    }
    if path.cost < bound {
        return false;
    }
    if path.cost < view.planes.rival_bound(view.track) {
        return false;
    }
    true
}

/// Lists the tracks in the order of their planes' bounds, without those whose planes hold no path
/// that is less than the known one. One of them is `done`, if that is a track.
fn rank<P: Planes>(
    planes: &P,
    done: usize,
    path: &Path,
    ranking: &mut Vec<Ranked>,
) -> Result<(), AllocError>
    requires { IsBestKnown (P.family planes.now) (P.is_about planes.now) done path.now }
    ensures { OnOk result (AreRanked (P.family planes.now)
        (λ track. HoldsNothingLess (P.family planes.now) track path.now.nodes.items)
        (P.family planes.now).tracks (tracks_in ranking.new.items)) }
{
    ranking.clear();
    let exit = planes.exit();
    for track in 0..planes.tracks() {
        let bound = planes.bound(track);
        let view = View {
            planes,
            track,
            exit,
        };
        if may_improve(&view, bound, done, path) {
            ranking.push(Ranked { bound, track })?;
        }
    }
    ranking.sort_unstable();
    Ok(())
}

/// A search that reuses its memory from one search to the next.
#[derive(Drop)]
pub struct PlaneSearch {
    search: TrackSearch,
    ranking: Vec<Ranked>,
}

impl PlaneSearch {
    /// A search without memory yet.
    pub fn new(alloc: Global) -> Self {
        PlaneSearch {
            search: TrackSearch::new(alloc),
            ranking: Vec::new(alloc),
        }
    }

    /// Replaces `path` by the least path of one plane, and returns its track; `None` if there is no
    /// path at all. Bounds of rivals are not used. Earlier searches, also those that ran out of
    /// memory, don't change the result. If there is no path, or memory runs out, the contents of
    /// `path` mean nothing.
    pub fn first_into<P: Planes>(
        &mut self,
        planes: &P,
        path: &mut Path,
    ) -> Result<Option<usize>, AllocError>
        ensures found { (track : ℕ) → result ≡ Ok (Some track) →
            IsLeastOfTrack (P.family planes.now) track path.new }
        ensures none { result ≡ Ok None → HasNoPath (P.family planes.now).whole
            (P.family planes.now).starts (P.family planes.now).goal }
    {
        let _tracks = planes.tracks();
        rank_all(planes, &mut self.ranking)?;
        let exit = planes.exit();
        for ranked in self.ranking.as_slice() {
            let view = View {
                planes,
                track: ranked.track,
                exit,
            };
            if self.search.begin(&view, path)? {
                return Ok(Some(ranked.track));
            }
        }
        Ok(None)
    }

    /// Replaces `path`, which is a path already, by the least path. The bounds of rivals must be
    /// made for `path`. If `done` is a track, `path` must be the least of its plane already, or
    /// less. Earlier searches, also those that ran out of memory, don't change the result. If
    /// memory runs out, the contents of `path` mean nothing.
    pub fn least_into<P: Planes>(
        &mut self,
        planes: &P,
        done: usize,
        path: &mut Path,
    ) -> Result<(), AllocError>
        requires known { IsKnown (P.family planes.now) path.old }
        requires about { P.is_about planes.now path.old.nodes.items }
        requires done { done < (P.family planes.now).tracks →
            HoldsNothingLess (P.family planes.now) done path.old.nodes.items }
        ensures least { OnOk result (TellsLeastPath (P.family planes.now).whole
            (P.family planes.now).starts (P.family planes.now).goal path.new) }
        ensures exact { OnOk result (least_path (P.family planes.now).whole
            (P.family planes.now).starts (P.family planes.now).goal
            ≡ Some path.new.nodes.items) }
    {
        least_path_law();
        let _tracks = planes.tracks();
        rank(planes, done, path, &mut self.ranking)?;
        let known_cost = path.cost;
        let exit = planes.exit();
        for ranked in self.ranking.as_slice() {
            let view = View {
                planes,
                track: ranked.track,
                exit,
            };
            self.search.improve(&view, known_cost, path)?;
        }
        Ok(())
    }
}
