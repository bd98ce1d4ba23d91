use shared_core::{Begun, Core, Share};
use std::sync::ledger::Ledger;
use transcripts::Transcript;

/// Why the answers aren't settled.
#[derive(Clone, Copy, PartialEq, Eq)]
pub enum Cause {
    /// A lease or a share that was given isn't there.
    Missing,
    /// A receipt of this id and place, the first such, isn't the entry that its lease made there,
    /// its place doesn't rise, or its id has an earlier transcript.
    Mismatch { id: u32, place: u32 },
    /// The transcript of this tenancy says that its journal is full, and it is not.
    NotFull { id: u32 },
}

/// Why the answers aren't settled, and all that was handed in.
#[derive(Drop)]
pub struct NotSettled<C: Begun, P: Ledger> {
    pub cause: Cause,
    pub core: Core<C, P>,
    pub transcripts: Vec<Transcript<C>>,
    pub shares: Vec<Share<P>>,
}
