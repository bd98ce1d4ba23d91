//! Tests of one tenancy's machine, of the core of all tenancies, and of the strips and the book
//! under it: what no clause says, and each public function once that no program calls, with ample
//! memory. A fact is returned as `bool`; if memory runs out the result is `None` or `false`.
//!
//! - `acts`: jobs that come back late, whatever was done meanwhile.
//! - `names`: the names and numbers that replies are printed with.
//! - `commands`: commands and replies, with their copies.
//! - `slots`: a slot to be tested, and a job that leaves it and comes back.
//! - `cores`: a core to be tested, and calls of it.
//! - `admissions`: tenancies that come and go.
//! - `journal_texts`: the limit of a journal's texts.
//! - `other_cores`: jobs of another core.
//! - `windows`: steps through windows at other offsets.
//! - `layouts`: the offsets of strips, and who owns what.
#![tactic(auto)]

#[cfg(test)]
mod acts;
#[cfg(test)]
mod admissions;
#[cfg(test)]
mod commands;
#[cfg(test)]
mod cores;
#[cfg(test)]
mod journal_texts;
#[cfg(test)]
mod layouts;
#[cfg(test)]
mod names;
#[cfg(test)]
mod other_cores;
#[cfg(test)]
mod slots;
#[cfg(test)]
mod windows;
