//! The replies to the lines of a script, from the script and what the service's program printed for
//! it.
//!
//! - [`read_replies`] returns each act of a script with its reply, or the line of the printed text
//!   that fits no reply. It returns exactly what `replies_in` of `specs/Asking.antt` defines: the
//!   forms of replies are those of the acts, and `printed_replies` takes them apart.
//! - [`script_lines`] finds the line of each act, and [`write_told`] writes each line with the
//!   first line of its reply; a refusal is explained in words, with what may be done ([`Advice`]),
//!   the first time that a name has it. [`write_refused`] writes the refused ones alone.
//! - [`accounts_of`] says of each name, by one pass over the acts, what it used: its columns,
//!   lines, refusals, jobs and steps; and what it has: its netlist, and the files that are present.
//!   A file is present if it was printed for the netlist, the placement and the routing that the
//!   name has now (`files_of` of `specs/Present.antt`).
#![tactic(auto)]

mod accounts;
mod advice;
mod advising;
mod asking;
mod lines;
mod listing;
mod present;
mod report;
mod usage;

pub use accounts::{Account, accounts_of};
pub use advice::{
    Advice, NetlistAdvice, OperatorAdvice, RoutingAdvice, SessionAdvice, StateAdvice, TenantAdvice,
};
pub use advising::{advice_for, is_refusal};
pub use asking::read_replies;
pub use lines::{ScriptLine, script_lines};
pub use listing::{ToldLine, told_lines};
pub use present::{NameFiles, PrintedFile};
pub use printed_replies::{Replies, ReplyError};
pub use report::{write_refused, write_told};
pub use usage::Usage;
