//! A program's tools and options, for shells and for the manual.
//!
//! [`write_names`] and [`write_cases`] write what the completion scripts of bash and zsh have of a
//! table of tools, [`write_fish_names`] and [`write_fish_options`] the lines of fish, and
//! [`write_page`] the sections of a page of the manual. What is around them is the program's.
#![tactic(auto)]

mod fish;
mod pages;
mod shells;

pub use fish::{write_fish_names, write_fish_options};
pub use pages::write_page;
pub use shells::{write_cases, write_names};
