//! The stops of a path.
ghost use Rattle.std.specs.Prelude.{◌≡◌, ◌+◌, ◌≤◌, ◌++◌, IfOk, length};
ghost use Rattle.path_stops.specs.Prelude.{has_net};
ghost use Rattle.path_stops.specs.Stops.{driver_stops, latch_stop, latch_stops, net_at, net_of_table, output_stops, stop_at, stops_of};

use crate::blocks::{block_named, driver_block, net_name, output_pad};
use blif::{Circuit, Latch};
use longest_path::LongestPath;
use std::alloc::{AllocError, Global};
use strip_files::RoutedStrip;

/// What a stop of a path is.
#[derive(Clone, Copy)]
pub enum StopKind {
    /// The input or the latch at which the path begins.
    Start,
    /// A table.
    Table,
    /// An output or a latch that reads the path's last net.
    End,
}

/// A stop of a path.
#[derive(Clone, Copy)]
pub struct PathStop {
    pub kind: StopKind,
    /// The net that the stop drives; at an output the net that it shows.
    pub net: u32,
    /// The number of its block; `None` if the strip has no such block.
    pub block: Option<usize>,
    /// The net by which the path comes to it; `None` at the start.
    pub before: Option<u32>,
}

/// Returns the stops of a path over a routed strip, from its start to its ends: first the output
/// that shows its last net, if one does, and then the latches that store it, in the order of their
/// lines. Fails with [`AllocError`] if memory runs out.
pub fn stops_of(
    alloc: Global,
    strip: &RoutedStrip<'_>,
    circuit: &Circuit,
    path: &LongestPath,
) -> Result<Vec<PathStop>, AllocError>
    ensures { IfOk result (λ stops. stops.items ≡ stops_of strip.now circuit.now path.now) }
{
    let mut stops = driver_stops(alloc, strip, circuit, path)?;
    match add_ends(&mut stops, strip, circuit, path.to) {
        Ok(()) => Ok(stops),
        Err(error) => {
            drop(stops);
            Err(error)
        }
    }
}

/// The start and the tables of a path.
fn driver_stops(
    alloc: Global,
    strip: &RoutedStrip<'_>,
    circuit: &Circuit,
    path: &LongestPath,
) -> Result<Vec<PathStop>, AllocError>
    ensures { IfOk result (λ stops. stops.items ≡ driver_stops strip.now circuit.now path.now) }
{
    let mut stops = Vec::new(alloc);
    for place in 0..path.tables.len() + 1 {
        stops.push(stop_at(strip, circuit, path, place))?;
    }
    Ok(stops)
}

/// The stop at that place of a path.
fn stop_at(strip: &RoutedStrip<'_>, circuit: &Circuit, path: &LongestPath, place: usize) -> PathStop
    requires { place ≤ length path.now.tables.items }
    ensures { result ≡ stop_at strip.now circuit.now path.now place }
{
    let net = net_at(circuit, path, place);
    let block = driver_block(strip, circuit, net);
    if place == 0 {
        return PathStop {
            kind: StopKind::Start,
            net,
            block,
            before: None,
        };
    }
    PathStop {
        kind: StopKind::Table,
        net,
        block,
        before: Some(net_at(circuit, path, place - 1)),
    }
}

/// The net of a path at that place.
fn net_at(circuit: &Circuit, path: &LongestPath, place: usize) -> u32
    requires { place ≤ length path.now.tables.items }
    ensures { result ≡ net_at circuit.now path.now place }
{
    if place == 0 {
        return path.from;
    }
    net_of_table(circuit, path.tables[path.tables.len() - place])
}

/// The net that the table of that number drives; 0 if there is no such table.
fn net_of_table(circuit: &Circuit, number: usize) -> u32
    ensures { result ≡ net_of_table circuit.now number }
{
    if number < circuit.tables.len() {
        circuit.tables.table(number).output
    } else {
        0
    }
}

/// Adds the ends of a path to that net.
fn add_ends(
    stops: &mut Vec<PathStop>,
    strip: &RoutedStrip<'_>,
    circuit: &Circuit,
    net: u32,
) -> Result<(), AllocError>
    ensures { IfOk result (λ _. stops.new.items
        ≡ (stops.old.items ++ output_stops strip.now circuit.now net)
        ++ latch_stops strip.now circuit.now net) }
{
    if is_output(circuit, net) {
        stops.push(PathStop {
            kind: StopKind::End,
            net,
            block: output_pad(strip, net_name(circuit, net)),
            before: Some(net),
        })?;
    }
    add_latches(stops, strip, circuit, net)
}

/// Returns whether a net is an output.
fn is_output(circuit: &Circuit, net: u32) -> bool
    ensures { result ≡ has_net circuit.now.outputs net }
{
    circuit
        .outputs
        .as_slice()
        .iter()
        .any(|output| net == *output)
}

/// Adds the latches that store that net.
fn add_latches(
    stops: &mut Vec<PathStop>,
    strip: &RoutedStrip<'_>,
    circuit: &Circuit,
    net: u32,
) -> Result<(), AllocError>
    ensures { IfOk result (λ _. stops.new.items
        ≡ stops.old.items ++ latch_stops strip.now circuit.now net) }
{
    for latch in circuit.latches.as_slice() {
        if latch.input == net {
            stops.push(latch_stop(strip, circuit, *latch))?;
        }
    }
    Ok(())
}

/// A latch as an end of a path.
fn latch_stop(strip: &RoutedStrip<'_>, circuit: &Circuit, latch: Latch) -> PathStop
    ensures { result ≡ latch_stop strip.now circuit.now latch }
{
    PathStop {
        kind: StopKind::End,
        net: latch.output,
        block: block_named(strip, net_name(circuit, latch.output)),
        before: Some(latch.input),
    }
}
