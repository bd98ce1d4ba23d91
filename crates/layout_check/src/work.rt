//! Room for checking one tree after another.
ghost use Rattle.std.specs.Prelude.{IfOk};
ghost use Rattle.layout_check.specs.TreeTests.{AreEmpty, HasRoom};

use crate::marks::Marks;
use std::alloc::{AllocError, Global};

/// Sets of nodes, and a predecessor for each node.
#[derive(Drop)]
pub(crate) struct Work {
    /// A set that each test uses for its own.
    pub(crate) marks: Marks,
    /// The nodes of the tree.
    pub(crate) inside: Marks,
    /// The sinks of the net.
    pub(crate) wanted: Marks,
    pub(crate) parents: Vec<usize>,
}

/// Room for trees of a graph with this number of nodes.
pub(crate) fn make_work(alloc: Global, count: usize) -> Result<Work, AllocError>
    ensures { IfOk result (λ work. HasRoom work count) }
{
    let parents = Vec::from_elem(alloc, 0, count)?;
    let marks = Marks::new(alloc, count)?;
    let inside = Marks::new(alloc, count)?;
    let wanted = Marks::new(alloc, count)?;
    Ok(Work {
        marks,
        inside,
        wanted,
        parents,
    })
}

/// The numbers of the nodes, pairs and sinks of one net.
#[derive(Drop)]
pub(crate) struct NetNumbers {
    pub(crate) nodes: Vec<usize>,
    pub(crate) hops: Vec<(usize, usize)>,
    pub(crate) sinks: Vec<usize>,
}

/// No numbers.
pub(crate) fn no_numbers(alloc: Global) -> NetNumbers
    ensures { AreEmpty result }
{
    NetNumbers {
        nodes: Vec::new(alloc),
        hops: Vec::new(alloc),
        sinks: Vec::new(alloc),
    }
}
