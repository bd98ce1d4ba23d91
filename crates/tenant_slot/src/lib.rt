//! One tenancy's machine: a slot that answers the commands of one tenancy exactly as a service for
//! a single user would, on a device of the strip's size.
//!
//! - `Slot` is the machine. It answers a `Command` with a `Reply`; a `Refusal` says why a command
//!   is refused. A netlist is loaded, packed, placed and routed, each by a command of its own, and
//!   each result can be asked for as a file. A netlist that is changed keeps the places of the
//!   blocks that stay.
//! - A job is long work that a command begins. Its next step leaves the slot by `Slot::take`. It
//!   comes back by `Slot::put` after it is made, or by `Slot::give_back`. `Slot::put_from` compares
//!   nothing if the step is known to be the next one.
//! - `SingleUser` in `specs/` is the definition: `State`, `step` and its fold `run`. `Slot` there
//!   says what each call does.
//! - A `PreparedReply` is computed first and accepted later, so that everything that takes memory
//!   comes before any change.
#![tactic(auto)]

mod answer;
mod beginning;
mod command;
mod content;
mod ending;
mod event;
mod failure;
mod faults;
mod file_texts;
mod not_served;
mod origin;
mod reply;
mod slot;
mod standing;

pub use answer::PreparedReply;
pub use command::Command;
pub use event::{Advance, Event};
pub use failure::RoutingFailure;
pub use file_texts::{net_file, place_file, route_file};
pub use job_state::SharedText;
pub use not_served::NotAnswered;
pub use origin::Origin;
pub use reply::{Ending, FileKind, Misfit, Refusal, Reply, StateName, Status, StepReply};
pub use slot::{MAX_ENTRIES, Slot};
