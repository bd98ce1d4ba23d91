//! Lines, as far as their replies depend on them.

/// The form of a reply.
#[derive(Clone, Copy)]
pub enum ReplyForm {
    /// Nothing is printed.
    Silence,
    /// One line.
    Line,
    /// One line; after a line `text KIND LENGTH` also LENGTH bytes. Sessions get such replies.
    Session,
    /// One line. An `ok` adds a live tenancy.
    Admission,
    /// One line. An `ok` removes a live tenancy.
    Eviction,
    /// That number of lines.
    Lines(u32),
    /// One line for each live tenancy.
    Tenancies,
    /// One line; after a line `owners COUNT` also COUNT lines.
    Owners,
}

/// A line of a script.
#[derive(Clone, Copy)]
pub struct Asked<'t> {
    /// The name of its session; `None` for the operator.
    pub name: Option<&'t [u8]>,
    /// The form of its reply.
    pub form: ReplyForm,
}
