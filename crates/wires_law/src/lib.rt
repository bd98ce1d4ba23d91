//! The law that no switch of the device joins what two tenancies own.
#![tactic(auto)]

mod law;

pub use law::no_switch_joins;
