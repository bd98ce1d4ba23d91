//! How a sink's failure is reported.
ghost use Rattle.std.specs.Prelude.{◌≡◌};

use crate::circuits::{packed_netlist, placed_anew};
use crate::graphs::NARROW;
use crate::routings::{begin_routing, finish_in_two};
use cluster::SharedPacked;
use fixtures::{AND, ROUTED_AND, ShortSink};
use pathfinder::Routes;
use rr_graph::Fabric;
use std::alloc::Global;
use strip_place::Placing;
use vpr_files::{net_text, place_text, route_text};

/// The size of a sink in bytes, and whether a file goes in whole.
const NET_ROOMS: [(usize, bool); 4] = [(0, false), (60, false), (118, false), (119, true)];

const PLACE_ROOMS: [(usize, bool); 4] = [(0, false), (100, false), (202, false), (203, true)];

const ROUTE_ROOMS: [(usize, bool); 4] = [(0, false), (200, false), (390, false), (391, true)];

/// Returns whether a sink took as much of a file as fits, and failed if not all fits.
fn took(sink: &ShortSink, file: &str, room: usize, whole: bool) -> bool {
    sink.as_bytes().len() == room
        && file.as_bytes().starts_with(sink.as_bytes())
        && sink.has_failed() != whole
}

/// Returns whether the `.net` file is written as far as it fits.
fn net_goes(alloc: Global, placing: &Placing, room: usize, whole: bool) -> bool {
    let mut sink = ShortSink::new(alloc, room);
    let is_written = net_text(placing.packed(), &mut sink).is_ok();
    let is_so = is_written == whole && took(&sink, ROUTED_AND.net, room, whole);
    drop(sink);
    is_so
}

/// Returns whether the `.place` file is written as far as it fits.
fn places_go(alloc: Global, placing: &Placing, room: usize, whole: bool) -> bool {
    let mut sink = ShortSink::new(alloc, room);
    let is_written = place_text(placing, &mut sink).is_ok();
    let is_so = is_written == whole && took(&sink, ROUTED_AND.places, room, whole);
    drop(sink);
    is_so
}

/// Returns whether the `.route` file is written as far as it fits.
fn routes_go(alloc: Global, placing: &Placing, routes: &Routes, room: usize, whole: bool) -> bool {
    if routes.len() != placing.packed().net_count() {
        return false;
    }
    let mut sink = ShortSink::new(alloc, room);
    let is_written = route_text(placing, routes, &mut sink).is_ok();
    let is_so = is_written == whole && took(&sink, ROUTED_AND.routes, room, whole);
    drop(sink);
    is_so
}

/// The first size for which the result of the `.net` file is wrong.
fn first_wrong_net(alloc: Global, placing: &Placing) -> Option<usize> {
    for (room, whole) in NET_ROOMS.iter() {
        if !net_goes(alloc, placing, *room, *whole) {
            return Some(*room);
        }
    }
    None
}

/// The first size for which the result of the `.place` file is wrong.
fn first_wrong_place(alloc: Global, placing: &Placing) -> Option<usize> {
    for (room, whole) in PLACE_ROOMS.iter() {
        if !places_go(alloc, placing, *room, *whole) {
            return Some(*room);
        }
    }
    None
}

/// The first size for which the result of the `.route` file is wrong.
fn first_wrong_route(alloc: Global, placing: &Placing, routes: &Routes) -> Option<usize> {
    for (room, whole) in ROUTE_ROOMS.iter() {
        if !routes_go(alloc, placing, routes, *room, *whole) {
            return Some(*room);
        }
    }
    None
}

/// The routes of placed blocks on their strip's graph.
fn routed_on(alloc: Global, fabric: &Fabric, placing: &Placing) -> Option<Routes>
    requires arch { placing.now.packed.arch ≡ fabric.now.arch }
    requires strip { placing.now.strip ≡ fabric.now.strip }
{
    match begin_routing(alloc, fabric, placing) {
        Some(routing) => finish_in_two(alloc, fabric, routing),
        None => None,
    }
}

/// The routes of placed blocks.
fn routes_between(alloc: Global, placing: &Placing) -> Option<Routes> {
    match Fabric::new(alloc, placing.packed().arch(), placing.strip()) {
        Ok(fabric) => {
            let routes = routed_on(alloc, &fabric, placing);
            drop(fabric);
            routes
        }
        Err(_) => None,
    }
}

/// Returns whether the `.route` file of placed blocks is written as far as it fits.
fn goes_when_routed(alloc: Global, placing: &Placing) -> bool {
    match routes_between(alloc, placing) {
        Some(routes) => {
            let is_so = first_wrong_route(alloc, placing, &routes).is_none();
            drop(routes);
            is_so
        }
        None => false,
    }
}

/// Returns whether the files of a packed circuit are written as far as they fit.
fn files_go(alloc: Global, packed: &SharedPacked) -> bool {
    match placed_anew(alloc, packed, NARROW, 7, 0) {
        Some(placing) => {
            let is_so = first_wrong_net(alloc, &placing).is_none()
                && first_wrong_place(alloc, &placing).is_none()
                && goes_when_routed(alloc, &placing);
            drop(placing);
            is_so
        }
        None => false,
    }
}

#[test]
fn sinks_that_fail(rt: HostRuntime) {
    let is_so = match packed_netlist(rt.alloc(), AND) {
        Some(packed) => {
            let is_so = files_go(rt.alloc(), &packed);
            drop(packed);
            is_so
        }
        None => false,
    };
    assert!(rt; is_so);
}
