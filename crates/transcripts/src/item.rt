use service_core::{Note, Receipt};
use sessions::SessionRefusal;

/// The answer to an item of a session's input.
#[derive(Drop)]
pub enum ItemAnswer {
    /// The command was served, and is an entry of the journal.
    Receipt(Receipt),
    /// The command wasn't served.
    Note(Note),
    /// The core wasn't asked.
    Refused(SessionRefusal),
}

/// An item in a transcript.
#[derive(Drop)]
pub struct Item {
    pub place: ItemAnswer,
    /// The number of items just before it that ran out of memory.
    pub no_memory_before: u64,
}

/// How a session ended.
#[derive(Clone, Copy, PartialEq, Eq)]
pub enum SessionEnd {
    /// The input ended.
    Ended,
    /// Its reader failed.
    ReaderFailed,
    /// Its writer failed.
    WriterFailed,
}
