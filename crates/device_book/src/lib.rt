//! Who owns which pin, wire and pad of a device.
//!
//! A [`Book`] has an owner, or `None`, for each [`rr_graph::Resource`] of a device, in one flat
//! table. [`Book::claim`] and [`Book::release`] change the owners of exactly the resources that
//! they are given. Only [`Book::new`] and the list of [`Book::owned_resources`] take memory.
//!
//! Beside the table it counts the owned places of each column, so that [`Book::owned_resources`]
//! skips the columns in which nobody owns anything.
#![tactic(auto)]

mod book;

pub use book::{Book, Extent, Owned};
