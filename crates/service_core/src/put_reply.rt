use tenant_slot::StepReply;

/// The reply to a step that was put.
#[derive(Clone, Copy, PartialEq, Eq)]
pub enum PutReply {
    /// The tenancy's reply. It is an entry of the journal.
    Recorded(StepReply),
    /// The tenancy's journal is full: it has 65,536 entries. The step is spent, and nothing
    /// changed.
    Full,
    /// The tenancy isn't live. The step is spent, and nothing changed.
    Gone,
}
