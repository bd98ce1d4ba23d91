use tenant_slot::{Event, Reply};

/// An entry of a journal: an event of the tenancy, and its reply.
#[derive(Drop)]
pub struct Entry {
    pub event: Event,
    pub reply: Reply,
}
