//! The law.
ghost use Rattle.step_bounds.specs.Bounds.{AreFew, FlowIsShort};

/// A packing ends after at most 8,192 steps, a placing after one more than its strip has columns
/// and rows, and a routing after 30. So a whole flow, from the upload to the last step of the
/// routing, takes at most 8,547 of the 65,536 entries of a journal.
pub fn steps_are_few()
    ensures few { AreFew }
    ensures flow { FlowIsShort }
{}
