//! What a routed netlist uses of its device, as JSON.
ghost use Rattle.std.specs.Prelude.{◌≡◌, ◌++◌, IfOk, OnOk, map};
ghost use Rattle.std.specs.List.{flat_map};
ghost use Rattle.desk_netlists.specs.RoutedJson.{fullest_json, lacking_json, last_members, part_json, part_members, routed_json, size_members, stop_json, stop_word};
ghost use Rattle.desk_netlists.specs.Prelude.{json_tokens, json_text, list_of, member_tokens};

use crate::path_facts::StopFacts;
use crate::route_wishes::GivenSize;
use blif::Circuit;
use circuit_use::{CircuitUse, Lacking};
use desk_circuits::{MeasuredCircuit, name_of, write_channel, write_circuit_members};
use device_report::{ChannelUse, ResourceUse};
use json_text::{JsonPen, Scalar};
use one_user::Figures;
use path_stops::StopKind;
use std::alloc::{AllocError, Global};

/// What is known of a routed netlist.
#[derive(Clone, Copy)]
pub(crate) struct RoutedFacts<'a> {
    /// The name of its files.
    pub(crate) name: &'a str,
    pub(crate) size: GivenSize,
    pub(crate) figures: Figures,
    pub(crate) elements: CircuitUse,
    /// What sets the size of the device; `None` if it is given.
    pub(crate) lacking: Option<Lacking>,
    /// Its circuit and its longest path.
    pub(crate) measured: &'a Option<MeasuredCircuit>,
    /// The stops of the longest path; none if there is no such path.
    pub(crate) stops: &'a [StopFacts],
}

/// The text of what is known of the routed netlist of that circuit. Fails if memory runs out.
pub(crate) fn routed_text(
    alloc: Global,
    circuit: &Circuit,
    facts: RoutedFacts<'_>,
) -> Result<Vec<u8>, AllocError>
    ensures { IfOk result (λ text.
        text.items ≡ json_text (routed_json circuit.now facts.entry)) }
{
    let mut pen = JsonPen::new(alloc);
    let written = write_routed(&mut pen, circuit, facts);
    pen.into_text(written)
}

/// Writes what is known of a routed netlist.
fn write_routed(
    pen: &mut JsonPen,
    circuit: &Circuit,
    facts: RoutedFacts<'_>,
) -> Result<(), AllocError>
    ensures { OnOk result (pen.new ≡ pen.old
        ++ json_tokens (routed_json circuit.now facts.entry)) }
{
    pen.open_object()?;
    write_size_members(pen, facts)?;
    write_part_members(pen, facts)?;
    write_circuit_members(pen, facts.measured)?;
    write_last_members(pen, circuit, facts)?;
    pen.close_object()
}

/// Writes the members of the device and of the routing.
fn write_size_members(pen: &mut JsonPen, facts: RoutedFacts<'_>) -> Result<(), AllocError>
    ensures { OnOk result (pen.new ≡ pen.old
        ++ flat_map member_tokens (size_members facts.entry)) }
{
    pen.members(&[
        ("netlist", Scalar::Text(facts.name)),
        ("columns", Scalar::Number(facts.size.columns as u64)),
        ("rows", Scalar::Number(facts.size.rows as u64)),
        ("tracks", Scalar::Number(facts.figures.tracks as u64)),
        ("nets", Scalar::Number(facts.figures.nets as u64)),
        ("global_nets", Scalar::Number(facts.elements.globals as u64)),
        (
            "iterations",
            Scalar::Number(facts.figures.iterations as u64),
        ),
    ])
}

/// Writes the members of what is used of the device.
fn write_part_members(pen: &mut JsonPen, facts: RoutedFacts<'_>) -> Result<(), AllocError>
    ensures { OnOk result (pen.new ≡ pen.old
        ++ flat_map member_tokens (part_members facts.entry)) }
{
    pen.key("logic_blocks")?;
    write_part(pen, facts.figures.blocks)?;
    pen.key("bles")?;
    write_part(pen, facts.elements.bles)?;
    pen.key("pads")?;
    write_part(pen, facts.figures.pads)?;
    pen.key("wires")?;
    write_part(pen, facts.figures.wires)
}

/// Writes how many of how many are used.
fn write_part(pen: &mut JsonPen, one: ResourceUse) -> Result<(), AllocError>
    ensures { OnOk result (pen.new ≡ pen.old ++ json_tokens (part_json one)) }
{
    pen.object(&[
        ("used", Scalar::Number(one.used as u64)),
        ("there", Scalar::Number(one.there as u64)),
    ])
}

/// Writes the fullest channel, what sets the size, and the stops of the longest path.
fn write_last_members(
    pen: &mut JsonPen,
    circuit: &Circuit,
    facts: RoutedFacts<'_>,
) -> Result<(), AllocError>
    ensures { OnOk result (pen.new ≡ pen.old
        ++ flat_map member_tokens (last_members circuit.now facts.entry)) }
{
    pen.key("fullest_channel")?;
    write_fullest(pen, facts.figures.fullest)?;
    pen.key("size_set_by")?;
    write_lacking(pen, facts.lacking)?;
    pen.key("path")?;
    write_stop_list(pen, circuit, facts.stops)
}

/// Writes the fullest channel; `null` if no channel is used.
fn write_fullest(pen: &mut JsonPen, fullest: Option<ChannelUse>) -> Result<(), AllocError>
    ensures { OnOk result (pen.new ≡ pen.old ++ json_tokens (fullest_json fullest)) }
{
    match fullest {
        Some(channel) => write_channel(pen, channel),
        None => pen.scalar(Scalar::Null),
    }
}

/// Writes what sets the size of the device.
fn write_lacking(pen: &mut JsonPen, lacking: Option<Lacking>) -> Result<(), AllocError>
    ensures { OnOk result (pen.new ≡ pen.old ++ json_tokens (lacking_json lacking)) }
{
    match lacking {
        Some(Lacking::Nothing) => pen.scalar(Scalar::Text("nothing")),
        Some(Lacking::Blocks) => pen.scalar(Scalar::Text("logic blocks")),
        Some(Lacking::Pads) => pen.scalar(Scalar::Text("pads")),
        Some(Lacking::BlocksAndPads) => pen.scalar(Scalar::Text("logic blocks and pads")),
        None => pen.scalar(Scalar::Null),
    }
}

/// Writes the list of these stops.
fn write_stop_list(
    pen: &mut JsonPen,
    circuit: &Circuit,
    stops: &[StopFacts],
) -> Result<(), AllocError>
    ensures { OnOk result (pen.new ≡ pen.old
        ++ json_tokens (list_of (map (stop_json circuit.now) stops.now))) }
{
    pen.open_list()?;
    write_stops(pen, circuit, stops)?;
    pen.close_list()
}

/// Writes these stops, one after another.
fn write_stops(pen: &mut JsonPen, circuit: &Circuit, stops: &[StopFacts]) -> Result<(), AllocError>
    ensures { OnOk result (pen.new ≡ pen.old
        ++ flat_map (λ stop. json_tokens (stop_json circuit.now stop)) stops.now) }
{
    for stop in stops {
        write_stop(pen, circuit, *stop)?;
    }
    Ok(())
}

/// Writes a stop.
fn write_stop(pen: &mut JsonPen, circuit: &Circuit, stop: StopFacts) -> Result<(), AllocError>
    ensures { OnOk result (pen.new ≡ pen.old ++ json_tokens (stop_json circuit.now stop)) }
{
    pen.object(&[
        ("stop", Scalar::Text(stop_word(stop.kind))),
        ("net", Scalar::Name(name_of(circuit, stop.net))),
        ("wires", Scalar::Known(stop.wires)),
        ("x", Scalar::Known(stop.x)),
        ("y", Scalar::Known(stop.y)),
        ("pad", Scalar::Known(stop.pad)),
    ])
}

/// The word for a kind of stop.
fn stop_word(kind: StopKind) -> &'static str
    ensures { result.now ≡ stop_word kind }
{
    match kind {
        StopKind::Start => "from",
        StopKind::Table => "table",
        StopKind::End => "to",
    }
}
