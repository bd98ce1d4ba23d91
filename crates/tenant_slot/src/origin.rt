//! What the caller knows of a step that it puts.

/// What the caller knows of a step that it puts.
#[derive(Clone, Copy, PartialEq, Eq)]
pub enum Origin {
    /// The step is the running job's next one: it was taken from there, and nothing has changed
    /// since.
    Running,
    /// Nothing: it may be a step of any job, made at any time.
    Unknown,
}
