//! Least paths over two lanes of three wires each. From a wire one comes to the next one or to the
//! one after it, and from the last two to the goal.
ghost use Rattle.std.specs.Prelude.{◌≡◌, ◌^◌, ◌<◌, ◌≤◌, IfOk};
ghost use Rattle.plane_search.specs.Planes.{IsKnown};
ghost use Rattle.flow_tests.specs.Lanes.{lanes};

use least_path::{Ends, Path};
use plane_search::{PlaneSearch, Planes, Start};
use std::alloc::{AllocError, Global};

/// The wires and the goal of a lane.
const PLACES: usize = 4;

/// The goal's place, and its number.
const EXIT: usize = 3;

const GOAL: usize = 6;

/// The ends of a wire's edges, as differences.
const STEPS: [u32; 2] = [1, 2];

/// Two lanes, whose nodes cost from 1 to 5 by a rule, and as much more as is said.
#[derive(Drop)]
struct Lanes {
    dear: u64,
    factor: usize,
    ghost cheap: { dear ≤ 2 ^ 35 },
    ghost small: { factor < 100 },
}

impl Planes for Lanes {
    ghost family = { λ l. lanes l.dear l.factor };

    ghost is_about = { λ l nodes. Unit {0} };

    fn tracks(&self) -> usize {
        2
    }

    fn places(&self) -> usize {
        PLACES
    }

    fn list_starts(
        &self,
        _track: usize,
        _most: u64,
        starts: &mut Vec<Start>,
    ) -> Result<(), AllocError> {
        starts.clear();
        starts.push(Start { place: 0, ahead: 1 })?;
        Ok(())
    }

    fn exit(&self) -> usize {
        EXIT
    }

    fn number(&self, track: usize, place: usize) -> usize {
        if place < EXIT {
            2 * place + track
        } else {
            GOAL
        }
    }

    fn ends(&self, _track: usize, place: usize) -> Ends<'_> {
        if place < 2 {
            return Ends {
                list: &STEPS,
                base: place,
            };
        }
        if place == 2 {
            return Ends {
                list: &STEPS[..1],
                base: 2,
            };
        }
        Ends { list: &[], base: 0 }
    }

    fn cost(&self, track: usize, place: usize) -> u64 {
        let number = if place < EXIT {
            2 * place + track
        } else {
            GOAL
        };
        1 + self.dear + (number * self.factor % 5) as u64
    }

    fn at_least(&self, _track: usize, place: usize) -> Option<u64> {
        if place < EXIT { Some(1) } else { Some(0) }
    }

    fn bound(&self, _track: usize) -> u64 {
        1
    }

    fn rival_bound(&self, _track: usize) -> u64 {
        0
    }
}

/// Whether the path goes over these nodes at this cost.
fn is(path: &Path, cost: u64, nodes: &[usize]) -> bool {
    path.cost == cost && path.nodes.as_slice() == nodes
}

/// Finds the least path from a first one, and returns whether there is one.
fn find(lanes: &Lanes, search: &mut PlaneSearch, path: &mut Path) -> Result<bool, AllocError> {
    match search.first_into(lanes, path)? {
        Some(track) => {
            search.least_into(lanes, track, path)?;
            Ok(true)
        }
        None => Ok(false),
    }
}

/// Whether the least path goes over these nodes at this cost.
fn finds(alloc: Global, dear: u64, factor: usize, cost: u64, nodes: &[usize]) -> bool
    requires dear { dear ≤ 2 ^ 35 }
    requires factor { factor < 100 }
{
    let lanes = Lanes { dear, factor };
    let mut search = PlaneSearch::new(alloc);
    let mut path = Path {
        nodes: Vec::new(alloc),
        cost: 0,
    };
    let is_so = find(&lanes, &mut search, &mut path) == Ok(true) && is(&path, cost, nodes);
    drop(path);
    drop(search);
    is_so
}

/// A path over all wires of the first lane, and what it costs if each node costs 1.
fn long_path(alloc: Global) -> Result<Path, AllocError>
    ensures { IfOk result (λ path. IsKnown (lanes 0 0) path) }
{
    Ok(Path {
        nodes: vec![in alloc; 0, 2, 4, 6]?,
        cost: 3,
    })
}

/// Whether a search that knows the path makes it the least one.
fn improves(alloc: Global, path: &mut Path) -> bool
    requires { IsKnown (lanes 0 0) path.old }
{
    let lanes = Lanes { dear: 0, factor: 0 };
    let mut search = PlaneSearch::new(alloc);
    let is_so = search.least_into(&lanes, 2, path) == Ok(()) && is(path, 2, &[0, 2, 6]);
    drop(search);
    is_so
}

/// Whether a search that knows the long path finds the least one.
fn shortens(alloc: Global) -> bool {
    match long_path(alloc) {
        Ok(mut path) => {
            let is_so = improves(alloc, &mut path);
            drop(path);
            is_so
        }
        Err(_) => false,
    }
}

/// Whether the least paths are the same, whatever more each node costs.
fn finds_at(alloc: Global, dear: u64) -> bool
    requires { dear ≤ 2 ^ 35 }
{
    finds(alloc, dear, 0, 2 * dear + 2, &[0, 2, 6])
        && finds(alloc, dear, 1, 2 * dear + 3, &[1, 5, 6])
}

#[test]
fn least_path_over_lanes(rt: HostRuntime) {
    assert!(rt; finds_at(rt.alloc(), 0));
    assert!(rt; finds_at(rt.alloc(), 32_766));
    assert!(rt; finds_at(rt.alloc(), 1 << 35));
    assert!(rt; shortens(rt.alloc()));
}
