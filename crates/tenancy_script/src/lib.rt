//! The script of one tenancy, with a netlist that may contain any bytes.
//!
//! - [`TenancyScript::new`] takes a name, a width, a seed, an effort and a netlist's text. It
//!   refuses a text that can't be written in a script, with the faulty line: a line that is only
//!   `.` ends an upload, and the lines after it would be commands.
//! - [`TenancyScript::write`] prints the script. After whichever script it is put, the whole has
//!   the acts of that script, an admission if there is a width, one upload of exactly this text,
//!   and the commands of one tenancy, and nothing else.
//! - In `specs/`, `Printed` defines the bytes, `Says` their acts by the definitions of
//!   `script_text`, and `Faults` what can't be written.
#![tactic(auto)]

mod fault;
mod making;
mod printing;
mod script;

pub use fault::ScriptFault;
pub use script::{ScriptParameters, TenancyScript};
