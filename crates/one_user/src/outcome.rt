//! The outcome of a netlist.
use crate::figures::Figures;
use tenant_slot::{Ending, Refusal, SharedText};

/// The files of a netlist that was routed, as VPR 4.30 writes them.
#[derive(Drop)]
pub struct Files {
    /// The `.net` file: the packed netlist.
    pub net: SharedText,
    /// The `.place` file: the places of its blocks.
    pub places: SharedText,
    /// The `.route` file: the routes of its nets.
    pub routes: SharedText,
}

/// What there is of a netlist whose routing ended without routes.
#[derive(Drop)]
pub struct Unrouted {
    /// How the routing ended.
    pub ending: Ending,
    /// The `.net` file.
    pub net: SharedText,
    /// The `.place` file.
    pub places: SharedText,
}

/// The outcome of a netlist on a device of one user's own.
#[derive(Drop)]
pub enum FlowOutcome {
    /// It was packed, placed and routed.
    Routed(Files),
    /// It was packed and placed, but the routing ended without routes.
    Unrouted(Unrouted),
    /// The netlist has a fault, has a BLE that fits into no cluster, or doesn't fit on the device.
    Refused(Refusal),
}

/// The outcome of a netlist, with what it uses of the device if it was routed.
#[derive(Drop)]
pub struct Run {
    pub outcome: FlowOutcome,
    pub figures: Option<Figures>,
}
