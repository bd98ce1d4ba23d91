//! The events of a tenancy.
use crate::command::Command;

/// A step that was made: the tenancy's generation when its job began, the step's number within the
/// job, from 1, and whether its sources weren't those of the running job. A foreign step is never
/// the running job's.
#[derive(Clone, Copy, PartialEq, Eq)]
pub struct Advance {
    pub generation: u32,
    pub number: u32,
    pub foreign: bool,
}

/// An event of one tenancy, which is an entry of its journal.
#[derive(Drop)]
pub enum Event {
    Command(Command),
    /// A job's step that was put.
    Advance(Advance),
}
