//! How far nets are from the starts of ways.
ghost use Rattle.std.specs.Prelude.{◌≡◌, ℕ, ◌<◌, ◌≤◌, All, length, slice_index, slice_index_or, IfOk, MatchOption};
ghost use Rattle.longest_path.specs.Reaches.{IsBegun, IsFarthest, AreUnreached, reach_of};

use std::alloc::{AllocError, Global};

/// The longest way to a net that was found until now.
#[derive(Clone, Copy)]
pub(crate) struct Reach {
    /// One more than the number of its tables; 0 if no way was found.
    pub(crate) steps: usize,
    /// The net at which it begins.
    pub(crate) start: u32,
}

/// `nets` nets, of which only the starts are reached, each by a way without tables.
pub(crate) fn starting_reach(
    alloc: Global,
    nets: usize,
    starts: &[u32],
) -> Result<Vec<Reach>, AllocError>
    requires { All (λ net. net < nets) starts.now }
    ensures { IfOk result (λ reach. IsBegun nets starts.now reach.items) }
{
    let none = Reach { steps: 0, start: 0 };
    let mut reach = Vec::from_elem(alloc, none, nets)?;
    for net in starts {
        reach[*net as usize] = Reach {
            steps: 1,
            start: *net,
        };
    }
    Ok(reach)
}

/// The net with the longest way among these; `None` if none is reached.
pub(crate) fn farthest_net(reach: &[Reach], nets: &[u32]) -> Option<u32>
    requires { All (λ net. net < length reach.now) nets.now }
    ensures { MatchOption result (AreUnreached reach.now nets.now) (IsFarthest reach.now nets.now) }
{
    let mut farthest = None;
    let mut most = 0;
    for net in nets {
        let steps = reach[*net as usize].steps;
        if steps > most {
            most = steps;
            farthest = Some(*net);
        }
    }
    farthest
}
