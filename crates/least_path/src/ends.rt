//! The ends of edges.

/// The ends of a node's edges: the numbers of a list, each with a base added to it.
#[derive(Clone, Copy)]
pub struct Ends<'a> {
    pub list: &'a [u32],
    pub base: usize,
}
