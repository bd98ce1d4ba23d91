//! The law that a tenancy's replies depend on what it stands at, and not on how it came there.
//!
//! [`stands_law`] is why a shorter log serves as well as the whole one. In `specs/`, `Standing`
//! says when two states stand alike.
#![tactic(auto)]

mod law;

pub use law::stands_law;
