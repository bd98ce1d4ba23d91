//! A live service without workers: lines of many clients come one by one, each with a tag in front
//! that says whose it is, and each is answered before the next one is taken.
//!
//! - [`Live`] takes a line and writes the reply, each line of it with its tag.
//! - [`live_law`] says what this means for each name: its items are those of its own lines, and the
//!   lines that are written with its tag are exactly its replies.
//! - In `specs/`, `Live` says what a line asks and what is done for it, `Figures` how full the
//!   service is, `Said` which text each name is in, `Ends` what the input's end gives, and `Laws`
//!   what belongs to a name.
#![tactic(auto)]

mod asked;
mod counted;
mod figures;
mod lasting;
mod law;
mod live;
mod said;
mod trouble;

pub use asked::{LineRequest, asked_of};
pub use counted::count_lines;
pub use law::live_law;
pub use live::Live;
pub use said::Said;
pub use trouble::Trouble;
