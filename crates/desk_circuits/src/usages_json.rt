//! What each name used, as JSON.
ghost use Rattle.std.specs.Prelude.{◌≡◌, ◌++◌, IfOk, OnOk, map};
ghost use Rattle.std.specs.List.{flat_map};
ghost use Rattle.desk_circuits.specs.Json.{line_members, name_json, usage_members, usages_json};
ghost use Rattle.desk_circuits.specs.Prelude.{json_tokens, json_text, list_of, member_tokens};

use crate::path_json::write_circuit_members;
use crate::usages::NameFacts;
use json_text::{JsonPen, Scalar};
use script_replies::Usage;
use std::alloc::{AllocError, Global};

/// The numbers of a script's lines that were served and refused, and of the files written.
#[derive(Clone, Copy)]
pub struct LineCounts {
    pub served: u64,
    pub refused: u64,
    pub files: u64,
}

/// The text of what each name used, as JSON. Fails if memory runs out.
pub fn usages_text(
    alloc: Global,
    counts: LineCounts,
    names: &[NameFacts<'_>],
) -> Result<Vec<u8>, AllocError>
    ensures { IfOk result (λ text. text.items
        ≡ json_text (usages_json counts.served counts.refused counts.files names.now)) }
{
    let mut pen = JsonPen::new(alloc);
    let written = write_usages(&mut pen, counts, names);
    pen.into_text(written)
}

/// Writes what each name used.
fn write_usages(
    pen: &mut JsonPen,
    counts: LineCounts,
    names: &[NameFacts<'_>],
) -> Result<(), AllocError>
    ensures { OnOk result (pen.new ≡ pen.old
        ++ json_tokens (usages_json counts.served counts.refused counts.files names.now)) }
{
    pen.open_object()?;
    write_line_members(pen, counts)?;
    pen.key("names")?;
    write_list(pen, names)?;
    pen.close_object()
}

/// Writes the members with the numbers of lines and files.
fn write_line_members(pen: &mut JsonPen, counts: LineCounts) -> Result<(), AllocError>
    ensures { OnOk result (pen.new ≡ pen.old
        ++ flat_map member_tokens (line_members counts.served counts.refused counts.files)) }
{
    pen.members(&[
        ("served", Scalar::Number(counts.served)),
        ("refused", Scalar::Number(counts.refused)),
        ("files_written", Scalar::Number(counts.files)),
    ])
}

/// Writes the list of the names.
fn write_list(pen: &mut JsonPen, names: &[NameFacts<'_>]) -> Result<(), AllocError>
    ensures { OnOk result (pen.new ≡ pen.old ++ json_tokens (list_of (map name_json names.now))) }
{
    pen.open_list()?;
    write_names(pen, names)?;
    pen.close_list()
}

/// Writes the names, one after another.
fn write_names(pen: &mut JsonPen, names: &[NameFacts<'_>]) -> Result<(), AllocError>
    ensures { OnOk result (pen.new ≡ pen.old
        ++ flat_map (λ facts. json_tokens (name_json facts)) names.now) }
{
    for facts in names {
        write_name(pen, facts)?;
    }
    Ok(())
}

/// Writes what a name used, and its circuit.
fn write_name(pen: &mut JsonPen, facts: &NameFacts<'_>) -> Result<(), AllocError>
    ensures { OnOk result (pen.new ≡ pen.old ++ json_tokens (name_json facts.now)) }
{
    pen.open_object()?;
    write_usage_members(pen, facts.name, facts.usage)?;
    write_circuit_members(pen, &facts.circuit)?;
    pen.close_object()
}

/// Writes the members of what a name used.
fn write_usage_members(pen: &mut JsonPen, name: &[u8], usage: Usage) -> Result<(), AllocError>
    ensures { OnOk result (pen.new ≡ pen.old
        ++ flat_map member_tokens (usage_members name.now usage)) }
{
    pen.members(&[
        ("name", Scalar::Name(name)),
        ("columns", Scalar::Number(usage.columns as u64)),
        ("lines", Scalar::Number(usage.lines as u64)),
        ("refused", Scalar::Number(usage.refused as u64)),
        ("jobs", Scalar::Number(usage.jobs as u64)),
        ("steps_by_the_operator", Scalar::Number(usage.steps)),
    ])
}
