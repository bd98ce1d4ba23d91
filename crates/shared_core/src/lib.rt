//! The core that threads share: all tenancies, with an account of what sessions and workers
//! entered.
//!
//! - [`Core`] wraps a `Service`. Its calls are the service's, and those below; each is one turn
//!   under a lock.
//! - A live tenancy's session has the tenancy's [`Lease`], which is given once. What it enters by
//!   `lease_command` is marked: the core keeps the places of these entries, and the lease counts
//!   them. A worker has a [`Share`], which counts the steps that it puts by `share_put` and that
//!   are recorded. Both are parts of ledgers, so that no one else can count for them, and once all
//!   parts are back ([`Core::close`]) the counts are those of the journals.
//! - A live tenancy has one of 64 slot numbers, which is used again after its eviction.
//!   `mark_ready` and `popped` keep whether the number is in a queue, so that it is there at most
//!   once.
//! - [`Shared`] is the core under its lock: everybody who gets the lock finds a core that keeps
//!   what its type promises, knows which service it was made with ([`Begun`]), and that its service
//!   goes on from that one.
//! - The types of this crate have a `drop` that is written out, so it is proved here once. A crate
//!   that drops a type with a derived `Drop` proves it again, for each type within.
#![tactic(auto)]

mod begun;
mod lease_marks;
mod locked;
mod shared;
mod slots;
mod tokens;
mod wrapping;

pub use begun::Begun;
pub use lease_marks::LeaseMarks;
pub use locked::Shared;
pub use shared::{Core, MAX_WORKERS};
pub use tokens::{Lease, Share};
