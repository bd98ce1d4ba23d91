//! The law that the configurations of two tenancies name nothing in common.
#![tactic(auto)]

mod law;

pub use law::configurations_apart;
