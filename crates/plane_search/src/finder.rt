//! A search of a plane for the least path, among those with costs that can be marked.
ghost use Rattle.std.specs.Prelude.{◌≡◌, ◌+◌, ◌<◌, ◌≤◌, true, false, Ok};
ghost use Rattle.plane_search.specs.Starts.{places_of};
ghost use Rattle.plane_search.specs.Walk.{CanBeLeast};
ghost use Rattle.plane_search.specs.Best.{IsLeastOn, HasNoneWithin};

use crate::marks::Cell;
use crate::planes::Planes;
use crate::queue::Queue;
use crate::reach::Reach;
use crate::starts::Starts;
use crate::walk::{Aim, Walk};
use least_path::Path;
use std::alloc::{AllocError, Global};

/// A search that reuses its memory from one plane to the next.
#[derive(Drop)]
pub(crate) struct Finder<C: Cell, Q: Queue> {
    reach: Reach<C, Q>,
    walk: Walk<C>,
}

impl<C: Cell, Q: Queue> Finder<C, Q> {
    /// A search without memory yet.
    pub(crate) fn new(alloc: Global, queue: Q) -> Self
        requires { Q.span ≡ C.SPAN }
    {
        Finder {
            reach: Reach::new(alloc, queue),
            walk: Walk::new(alloc),
        }
    }

    /// Replaces `path` by the least path of a plane from the starts, by places, if it costs at most
    /// `most`, and returns whether it does.
    pub(crate) fn find<P: Planes>(
        &mut self,
        starts: &Starts<'_, P>,
        most: u64,
        path: &mut Path,
    ) -> Result<bool, AllocError>
        requires { most + 1 < C.SPAN }
        ensures found { result ≡ Ok true → IsLeastOn (P.family starts.now.view.now.planes.now)
            starts.now.view.now.track (places_of starts.now.list.now) path.new }
        ensures within { result ≡ Ok true → path.new.cost ≤ most }
        ensures none { result ≡ Ok false → HasNoneWithin (P.family starts.now.view.now.planes.now)
            starts.now.view.now.track (places_of starts.now.list.now) most }
    {
        let _tracks = starts.view.planes.tracks();
        let bound = starts.bound;
        if most < bound {
            return Ok(false);
        }
        self.reach.forget(starts.view.planes.places())?;
        if self.find_at(starts, bound, path)? {
            return Ok(true);
        }
        if most == bound {
            return Ok(false);
        }
        let least = self.reach.least_cost(starts, most)?;
        if most < least {
            return Ok(false);
        }
        self.find_at(starts, least, path)
    }

    /// Replaces `path` by the least path of a plane from the starts, by places, if it has this
    /// cost, and returns whether it does. No path may cost less.
    fn find_at<P: Planes>(
        &mut self,
        starts: &Starts<'_, P>,
        best: u64,
        path: &mut Path,
    ) -> Result<bool, AllocError>
        requires { CanBeLeast (P.family starts.now.view.now.planes.now) starts.now.view.now.track
            (places_of starts.now.list.now) C.SPAN best self.old.reach.marks }
        ensures found { result ≡ Ok true → IsLeastOn (P.family starts.now.view.now.planes.now)
            starts.now.view.now.track (places_of starts.now.list.now) path.new }
        ensures cost { result ≡ Ok true → path.new.cost ≡ best }
        ensures none { result ≡ Ok false → HasNoneWithin (P.family starts.now.view.now.planes.now)
            starts.now.view.now.track (places_of starts.now.list.now) best }
    {
        let reach = &self.reach;
        let aim = Aim {
            planes: starts.view.planes,
            track: starts.view.track,
            exit: starts.view.exit,
            starts: starts.list,
            best,
            reached: &reach.marks,
        };
        self.walk.least_into(&aim, path)
    }
}
