//! Least paths over a graph of seven nodes, given by a table, and what they cost after Bellman and
//! Ford. The graph is one plane.
ghost use Rattle.std.specs.Prelude.{◌≡◌, ◌+◌, ◌*◌, ◌^◌, ◌<◌, ◌≤◌, ℕ, All, OnOk, length, take, drop};
ghost use Rattle.std.specs.List.Sorted.{IsNonDecreasing};
ghost use Rattle.plane_search.specs.Starts.{places_of};
ghost use Rattle.flow_tests.specs.Tables.{pairs, one_plane};

use least_path::{Ends, Path};
use plane_search::{PlaneSearch, Planes, Start};
use std::alloc::{AllocError, Global};

/// A graph whose edges are in a table, two from each node, with two starts and a goal.
#[derive(Drop)]
struct Table {
    ends: Vec<u32>,
    costs: Vec<u64>,
    starts: Vec<Start>,
    goal: usize,
    ghost few: { length costs.items ≤ 2 ^ 22 },
    ghost ends_len: { length ends.items ≡ 2 * length costs.items },
    ghost ends_within: { All (λ end. end < length costs.items) ends.items },
    ghost rising: { (node : ℕ) → node < length costs.items →
        IsNonDecreasing (take 2 (drop (2 * node) ends.items)) },
    ghost cost_from: { All (λ cost. 1 ≤ cost) costs.items },
    ghost cost_to: { All (λ cost. cost ≤ 2 ^ 36) costs.items },
    ghost starts_within: { All (λ start. start.place < length costs.items) starts.items },
    ghost starts_near: { All (λ start. start.ahead ≡ 0) starts.items },
    ghost goal_within: { goal < length costs.items },
}

impl Planes for Table {
    ghost family = { λ t. one_plane (pairs t.ends.items t.costs.items) (places_of t.starts.items)
        t.goal };

    ghost is_about = { λ t nodes. Unit {0} };

    fn tracks(&self) -> usize {
        1
    }

    fn places(&self) -> usize {
        self.costs.len()
    }

    fn list_starts(
        &self,
        _track: usize,
        _most: u64,
        starts: &mut Vec<Start>,
    ) -> Result<(), AllocError> {
        starts.clear();
        starts.extend_from_slice(&self.starts)?;
        Ok(())
    }

    fn exit(&self) -> usize {
        self.goal
    }

    fn number(&self, _track: usize, place: usize) -> usize {
        place
    }

    fn ends(&self, _track: usize, place: usize) -> Ends<'_> {
        Ends {
            list: &self.ends[2 * place..2 * place + 2],
            base: 0,
        }
    }

    fn cost(&self, _track: usize, place: usize) -> u64 {
        self.costs[place]
    }

    fn at_least(&self, _track: usize, _place: usize) -> Option<u64> {
        Some(0)
    }

    fn bound(&self, _track: usize) -> u64 {
        0
    }

    fn rival_bound(&self, _track: usize) -> u64 {
        0
    }
}

/// What differs from one search to the next: the costs of even and of odd nodes, and the ends of
/// the paths.
#[derive(Clone, Copy)]
struct Case {
    even: u64,
    odd: u64,
    first: usize,
    second: usize,
    goal: usize,
    ghost even_from: { 1 ≤ even },
    ghost even_to: { even ≤ 2 ^ 36 },
    ghost odd_from: { 1 ≤ odd },
    ghost odd_to: { odd ≤ 2 ^ 36 },
    ghost first_within: { first < 7 },
    ghost second_within: { second < 7 },
    ghost goal_within: { goal < 7 },
}

/// 0 to 1 or 2, 1 and 2 to 3, 3 to 4 or 5, 4 and 5 to 6, and 6 to itself: by two edges if there is
/// no choice.
fn seven_nodes(alloc: Global, case: Case) -> Result<Table, AllocError> {
    let (even, odd) = (case.even, case.odd);
    let first = Start {
        place: case.first,
        ahead: 0,
    };
    let second = Start {
        place: case.second,
        ahead: 0,
    };
    Ok(Table {
        ends: vec![in alloc; 1, 2, 3, 3, 3, 3, 4, 5, 6, 6, 6, 6, 6, 6]?,
        costs: vec![in alloc; even, odd, even, odd, even, odd, even]?,
        starts: vec![in alloc; first, second]?,
        goal: case.goal,
    })
}

/// Lowers what it costs to reach a node, if that is less over an edge.
fn relax(table: &Table, reached: &mut Vec<u64>) {
    for node in 0..table.costs.len() {
        let before = reached.get(node).copied().unwrap_or(u64::MAX);
        for end in table.ends[2 * node..2 * node + 2].iter() {
            let cost = table.costs.get(*end as usize).copied().unwrap_or(0);
            if let Some(at) = reached.get_mut(*end as usize) {
                *at = (*at).min(before.saturating_add(cost));
            }
        }
    }
}

/// What a least path costs, after Bellman and Ford: the greatest number if there is none.
fn least_cost(alloc: Global, table: &Table) -> Result<u64, AllocError> {
    let mut reached = vec![in alloc; u64::MAX; table.costs.len()]?;
    for start in table.starts.as_slice() {
        if let Some(at) = reached.get_mut(start.place) {
            *at = 0;
        }
    }
    for _round in 0..table.costs.len() {
        relax(table, &mut reached);
    }
    let least = reached.get(table.goal).copied().unwrap_or(u64::MAX);
    drop(reached);
    Ok(least)
}

/// Whether a search finds this path, first without a known one and then from it, with what it
/// costs.
fn finds_path(
    table: &Table,
    search: &mut PlaneSearch,
    path: &mut Path,
    nodes: &[usize],
    cost: u64,
) -> Result<bool, AllocError> {
    if search.first_into(table, path)?.is_none() {
        return Ok(false);
    }
    if path.cost != cost || path.nodes.as_slice() != nodes {
        return Ok(false);
    }
    search.least_into(table, 1, path)?;
    Ok(path.cost == cost && path.nodes.as_slice() == nodes)
}

/// Whether a search finds these nodes, or no path if there are none.
fn is_found(
    table: &Table,
    search: &mut PlaneSearch,
    path: &mut Path,
    nodes: &[usize],
    cost: u64,
) -> Result<bool, AllocError> {
    if nodes.is_empty() {
        return Ok(cost == u64::MAX && search.first_into(table, path)?.is_none());
    }
    finds_path(table, search, path, nodes, cost)
}

/// Whether the least path of a table goes over these nodes.
fn is_least(
    alloc: Global,
    table: &Table,
    search: &mut PlaneSearch,
    nodes: &[usize],
) -> Result<bool, AllocError> {
    let cost = least_cost(alloc, table)?;
    let mut path = Path {
        nodes: Vec::new(alloc),
        cost: 0,
    };
    let found = is_found(table, search, &mut path, nodes, cost);
    drop(path);
    found
}

/// Whether the least path goes over these nodes, or there is none if there are none.
fn finds(alloc: Global, search: &mut PlaneSearch, case: Case, nodes: &[usize]) -> bool {
    match seven_nodes(alloc, case) {
        Ok(table) => {
            let found = is_least(alloc, &table, search, nodes);
            drop(table);
            found == Ok(true)
        }
        Err(_) => false,
    }
}

/// A case with the same cost for each node.
fn even_case(cost: u64, first: usize, second: usize, goal: usize) -> Case
    requires from { 1 ≤ cost }
    requires to { cost ≤ 2 ^ 36 }
    requires first { first < 7 }
    requires second { second < 7 }
    requires goal { goal < 7 }
{
    Case {
        even: cost,
        odd: cost,
        first,
        second,
        goal,
    }
}

/// Of ways with equal cost, the least by its nodes, whatever was searched before; of equally near
/// starts the least, which may be the goal; and a goal that no path reaches.
fn finds_the_least_of_ties(alloc: Global, search: &mut PlaneSearch, cost: u64) -> bool
    requires from { 1 ≤ cost }
    requires to { cost ≤ 2 ^ 36 }
{
    finds(alloc, search, even_case(cost, 0, 0, 6), &[0, 1, 3, 4, 6])
        && finds(alloc, search, even_case(cost, 2, 1, 3), &[1, 3])
        && finds(alloc, search, even_case(cost, 4, 3, 3), &[3])
        && finds(alloc, search, even_case(cost, 5, 6, 0), &[])
}

/// Over the even nodes, over the odd ones, and from the nearer start, each dear or not.
fn finds_the_cheaper_way(alloc: Global, search: &mut PlaneSearch, dear: u64) -> bool
    requires from { 1 < dear }
    requires to { dear ≤ 2 ^ 36 }
{
    let even = Case {
        even: dear - 1,
        odd: dear,
        first: 0,
        second: 0,
        goal: 6,
    };
    let odd = Case {
        even: dear,
        odd: 1,
        first: 0,
        second: 0,
        goal: 6,
    };
    finds(alloc, search, even, &[0, 2, 3, 4, 6])
        && finds(alloc, search, odd, &[0, 1, 3, 5, 6])
        && finds(alloc, search, even_case(dear, 0, 4, 6), &[4, 6])
}

/// The same paths if all costs are marked in narrow cells, just not, and by far not.
fn finds_all(alloc: Global) -> bool {
    let mut search = PlaneSearch::new(alloc);
    let is_so = finds_the_least_of_ties(alloc, &mut search, 1)
        && finds_the_least_of_ties(alloc, &mut search, 16_383)
        && finds_the_least_of_ties(alloc, &mut search, 16_384)
        && finds_the_least_of_ties(alloc, &mut search, 1 << 36)
        && finds_the_cheaper_way(alloc, &mut search, 2)
        && finds_the_cheaper_way(alloc, &mut search, 1 << 16)
        && finds_the_cheaper_way(alloc, &mut search, 1 << 36);
    drop(search);
    is_so
}

#[test]
fn tables(rt: HostRuntime) {
    assert!(rt; finds_all(rt.alloc()));
}
