//! Tests of the readers of texts, of least paths, and of the flow from a netlist to its routes.
//!
//! - `texts`, `devices`, `architectures`, `netlists`: the readers' results, and how devices fail.
//! - `circuits`: how a test packs a netlist and places it.
//! - `packings`, `places`, `kept`: BLEs, and the places of blocks, also if places are kept.
//! - `graphs`, `windows`: nodes and pairs of strips, and what windows show of a device.
//! - `tables`, `unit_roads`: least paths over graphs of a few nodes, and over a strip's.
//! - `lanes`: least paths plane by plane, over two lanes of a few wires.
//! - `routings`: how a test routes placed blocks.
//! - `counted`: routing over a window whose reads are counted.
//! - `sinks`: how a sink's failure is reported.
#![tactic(auto)]

#[cfg(test)]
mod architectures;
#[cfg(test)]
mod circuits;
#[cfg(test)]
mod counted;
#[cfg(test)]
mod devices;
#[cfg(test)]
mod graphs;
#[cfg(test)]
mod kept;
#[cfg(test)]
mod lanes;
#[cfg(test)]
mod netlists;
#[cfg(test)]
mod packings;
#[cfg(test)]
mod places;
#[cfg(test)]
mod routings;
#[cfg(test)]
mod sinks;
#[cfg(test)]
mod tables;
#[cfg(test)]
mod texts;
#[cfg(test)]
mod unit_roads;
#[cfg(test)]
mod windows;
