//! All tenancies on one device: who is admitted and at which offset, and the reply to each call.
//!
//! - `Service` is the machine. The operator's calls are `admit`, `evict`, `move_strip` and
//!   `owners`; a tenant's is `tenant`.
//! - The next step of a tenancy's running job leaves the service by `take`, is made anywhere, and
//!   comes back by `put`, or by `give_back` if it wasn't made: at once, late or never. `put_from`
//!   compares nothing if the step is known to be the next one.
//! - A tenancy has a journal of its own: each event that was served, with its reply. The journal is
//!   kept when the tenancy ends.
//! - A tenancy owns what its routed circuit occupies of the device; `owners` lists it. Nothing has
//!   two owners.
//! - Each tenancy is answered as if it were alone on a device of its strip's size (`headline`).
//!   `specs/` says what one call does (`Calls`), and what any list of them does (`Run`,
//!   `Headline`).
#![tactic(auto)]

mod device;
mod entry;
mod job_window;
mod law;
mod not_served;
mod op_refusal;
mod put_reply;
mod receipt;
mod service;
mod tenancy;
mod texts;

pub use device::{Device, NO_TEXT_LIMIT};
pub use device_book::Owned;
pub use entry::Entry;
pub use job_window::window_for;
pub use law::{headline, law_of_puts, same_alone};
pub use not_served::{NotServed, Note, NoteCause};
pub use op_refusal::OpRefusal;
pub use put_reply::PutReply;
pub use receipt::Receipt;
pub use service::{MAX_ADMISSIONS, Service};
