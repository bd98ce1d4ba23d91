//! Searches for paths, with memory that they share.

use fabric_planes::NetSearch;
use least_path::Path;
use std::alloc::Global;

/// The memory of searches, and the path that the last one found.
#[derive(Drop)]
pub(crate) struct PathSearch {
    pub(crate) nets: NetSearch,
    pub(crate) path: Path,
}

impl PathSearch {
    /// A search without memory yet.
    pub(crate) fn new(alloc: Global) -> Self {
        let nodes = Vec::new(alloc);
        PathSearch {
            nets: NetSearch::new(alloc),
            path: Path { nodes, cost: 0 },
        }
    }
}
