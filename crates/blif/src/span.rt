//! A part of a flat list.

/// The index at which a part begins, and the index after its last item.
#[derive(Clone, Copy)]
pub struct IndexSpan {
    pub start: usize,
    pub end: usize,
}
