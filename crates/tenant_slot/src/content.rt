//! What a slot has when no job runs.
ghost use Rattle.std.specs.Prelude.{◌≡◌, is_some, Some, true};
ghost use Rattle.tenant_slot.specs.Content.{CanFinish, cut_back, failure_in, finished_with, name_at_rest, netlist_in, packing_in, placing_in, routed_with};
ghost use Rattle.tenant_slot.specs.Results.{failure_of};
ghost use Rattle.tenant_slot.specs.Prelude.{IsFinished, end_value};

use crate::failure::RoutingFailure;
use crate::reply::StateName;
use blif::SharedCircuit;
use job_state::{JobKind, Parked, RoutingEnd, SharedText};

/// A netlist with its circuit.
#[derive(Drop)]
pub(crate) struct Netlist {
    pub(crate) text: SharedText,
    pub(crate) circuit: SharedCircuit,
}

/// What a slot has when no job runs. It stays while a job does.
#[derive(Drop)]
pub(crate) enum Content {
    Empty,
    Loaded(Netlist),
    /// A netlist with its finished packing.
    Packed(Netlist, Parked),
    /// A netlist with its finished packing and the packing's finished placing.
    Placed(Netlist, Parked, Parked),
    /// A netlist with its finished packing, the finished placing, and the placing's finished
    /// routing, which has routes.
    Routed(Netlist, Parked, Parked, Parked),
    /// A netlist with its finished packing and the finished placing, whose routing ended without
    /// routes.
    Unrouted(Netlist, Parked, Parked, RoutingFailure),
}

impl Content {
    pub(crate) fn name(&self) -> StateName
        ensures { result ≡ name_at_rest self.now }
    {
        match self {
            Content::Empty => StateName::Empty,
            Content::Loaded(_) => StateName::Loaded,
            Content::Packed(..) => StateName::Packed,
            Content::Placed(..) => StateName::Placed,
            Content::Routed(..) => StateName::Routed,
            Content::Unrouted(..) => StateName::Unrouted,
        }
    }

    /// How the routing ended, if it has no routes.
    pub(crate) fn failure(&self) -> Option<RoutingFailure>
        ensures { result ≡ failure_in self.now }
    {
        match self {
            Content::Unrouted(_, _, _, failure) => Some(*failure),
            _ => None,
        }
    }

    /// The netlist; there must be one.
    pub(crate) fn netlist(&self) -> &Netlist
        requires { is_some (netlist_in self.now) ≡ true }
        ensures { netlist_in self.now ≡ Some result.now }
    {
        match self {
            Content::Loaded(netlist) => netlist,
            Content::Packed(netlist, _) => netlist,
            Content::Placed(netlist, _, _) => netlist,
            Content::Routed(netlist, _, _, _) => netlist,
            Content::Unrouted(netlist, _, _, _) => netlist,
            Content::Empty => unreachable!(),
        }
    }

    /// The finished packing; there must be one.
    pub(crate) fn packing(&self) -> &Parked
        requires { is_some (packing_in self.now) ≡ true }
        ensures { packing_in self.now ≡ Some result.now }
    {
        match self {
            Content::Packed(_, packing) => packing,
            Content::Placed(_, packing, _) => packing,
            Content::Routed(_, packing, _, _) => packing,
            Content::Unrouted(_, packing, _, _) => packing,
            Content::Empty | Content::Loaded(_) => unreachable!(),
        }
    }

    /// The finished placing; there must be one.
    pub(crate) fn placing(&self) -> &Parked
        requires { is_some (placing_in self.now) ≡ true }
        ensures { placing_in self.now ≡ Some result.now }
    {
        match self {
            Content::Placed(_, _, placing) => placing,
            Content::Routed(_, _, placing, _) => placing,
            Content::Unrouted(_, _, placing, _) => placing,
            Content::Empty | Content::Loaded(_) | Content::Packed(..) => unreachable!(),
        }
    }

    /// Gives up places and routes.
    pub(crate) fn cut_back(self) -> Self
        ensures { result ≡ cut_back self }
    {
        match self {
            Content::Placed(netlist, packing, placing) => {
                drop(placing);
                Content::Packed(netlist, packing)
            }
            Content::Routed(netlist, packing, placing, routing) => {
                drop(placing);
                drop(routing);
                Content::Packed(netlist, packing)
            }
            Content::Unrouted(netlist, packing, placing, _) => {
                drop(placing);
                Content::Packed(netlist, packing)
            }
            content => content,
        }
    }

    /// Adds what a finished job has made that started from this content.
    pub(crate) fn finished_with(self, job: Parked) -> Self
        requires { CanFinish self job }
        ensures { result ≡ finished_with self job }
    {
        match self {
            Content::Loaded(netlist) => Content::Packed(netlist, job),
            Content::Packed(netlist, packing) => Content::Placed(netlist, packing, job),
            Content::Placed(netlist, packing, placing) => {
                routed_with(netlist, packing, placing, job)
            }
            _ => unreachable!(),
        }
    }
}

/// A placed netlist with its routes, or with how its routing ended.
fn routed_with(netlist: Netlist, packing: Parked, placing: Parked, routing: Parked) -> Content
    requires { IsFinished JobKind.Routing routing }
    ensures { result ≡ routed_with netlist packing placing routing
        (failure_of (end_value routing.step.sources)) }
{
    match failure_of(&routing) {
        None => Content::Routed(netlist, packing, placing, routing),
        Some(failure) => {
            drop(routing);
            Content::Unrouted(netlist, packing, placing, failure)
        }
    }
}

/// How a finished routing ended, if it has no routes.
fn failure_of(routing: &Parked) -> Option<RoutingFailure>
    requires { IsFinished JobKind.Routing routing.now }
    ensures { result ≡ failure_of (end_value routing.now.step.sources) }
{
    match routing.routing_end() {
        RoutingEnd::Routed(_) => None,
        RoutingEnd::GaveUp => Some(RoutingFailure::GaveUp),
        RoutingEnd::NoPath(net) => Some(RoutingFailure::NoPath(net)),
    }
}
