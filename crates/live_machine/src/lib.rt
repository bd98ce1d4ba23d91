//! The live service with workers, as one machine: each call of it is one event.
//!
//! The machine takes the lines of an input, and the steps that workers made. What it serves are
//! lines that a live service without workers answers: those of the input, in the order in which
//! they were served, and a line `op step NAME 1` for each step of a worker. Those lines are the
//! log. So all that holds of a live service without workers holds of a day with them.
//!
//! A name whose job runs and that says `wait` is held: what it says until its job is at rest waits
//! its turn, and nobody else waits. `cancel`, `withdraw` and `change` end its `wait`, which is then
//! served as `status`; an eviction ends it too.
//!
//! [`Machine`] is the machine. Each of its calls is one event, or turns of names that are held.
//!
//! In `specs/`, `Held` says what is held of a name, `Machine` what each call does, `Turn` what is
//! served, kept and told, and `Account` what all calls amount to. [`machine_law`] is the law.
//! `Workers` says what the service is without its workers, and [`workers_law`] that others see no
//! more of it. For a name whose job is at home ([`is_home`]) that holds of each line.
#![tactic(auto)]

mod agenda;
mod held;
mod held_names;
mod item_lines;
mod law;
mod machine;
mod made_lines;
mod running;
mod server;
mod stop;
mod workers;

pub use law::machine_law;
pub use machine::{MOST_TOLD, Machine, StepEnd};
pub use made_lines::says_wait;
pub use running::is_home;
pub use stop::Stop;
pub use workers::workers_law;
