//! How full a device is, as JSON.
ghost use Rattle.std.specs.Prelude.{◌≡◌, ◌++◌, ◌∷◌, [], IfOk, OnOk, map};
ghost use Rattle.std.specs.List.{flat_map};
ghost use Rattle.desk_replies.specs.ReportJson.{device_members, list_members, report_json, strip_members, tenancy_json, use_json, use_members, used_of, widest_json};
ghost use Rattle.desk_replies.specs.Prelude.{channel_json, json_tokens, json_text, list_of, member_tokens, TakesAll};

use crate::crowding_json::write_overuse_json;
use crate::report_facts::TenancyFacts;
use desk_circuits::{write_channel, write_circuit_members};
use desk_common::{Outcome, print_text};
use device_lines::Tenancy;
use device_report::{ChannelUse, Report, ResourceUse, Room, TenancyUse};
use json_text::{JsonPen, Scalar};
use line_text::{Sink, is_word};
use std::alloc::{AllocError, Global};

/// Prints a report with these facts of its tenancies as JSON.
pub(crate) fn print_json<W: Sink>(
    alloc: Global,
    report: &Report<'_>,
    facts: &[TenancyFacts<'_>],
    writer: &mut W,
) -> Result<(), Outcome>
    ensures { IfOk result (λ _. TakesAll W.contents W.has_failed writer.old writer.new
        (json_text (report_json report.now facts.now))) }
{
    print_text(report_text(alloc, report, facts), writer)
}

/// The text of a report. Fails if memory runs out.
fn report_text(
    alloc: Global,
    report: &Report<'_>,
    facts: &[TenancyFacts<'_>],
) -> Result<Vec<u8>, AllocError>
    ensures { IfOk result (λ text. text.items ≡ json_text (report_json report.now facts.now)) }
{
    let mut pen = JsonPen::new(alloc);
    let written = write_report(&mut pen, report, facts);
    pen.into_text(written)
}

/// Writes a report.
fn write_report(
    pen: &mut JsonPen,
    report: &Report<'_>,
    facts: &[TenancyFacts<'_>],
) -> Result<(), AllocError>
    ensures { OnOk result (pen.new ≡ pen.old ++ json_tokens (report_json report.now facts.now)) }
{
    pen.open_object()?;
    write_device_members(pen, report)?;
    write_list_members(pen, report, facts)?;
    pen.close_object()
}

/// Writes the members of the device's size and columns.
fn write_device_members(pen: &mut JsonPen, report: &Report<'_>) -> Result<(), AllocError>
    ensures { OnOk result (pen.new ≡ pen.old
        ++ flat_map member_tokens (device_members report.now.size report.now.columns)) }
{
    let size = report.size;
    let columns = report.columns;
    pen.members(&[
        ("columns", Scalar::Number(size.columns as u64)),
        ("rows", Scalar::Number(size.rows as u64)),
        ("tracks", Scalar::Number(size.tracks as u64)),
        ("pads", Scalar::Number(size.pads as u64)),
        ("used_columns", Scalar::Number(columns.used as u64)),
        ("guard_columns", Scalar::Number(columns.guard as u64)),
        ("free_columns", Scalar::Number(columns.free as u64)),
    ])
}

/// Writes the widest strip, the fullest channels and the tenancies.
fn write_list_members(
    pen: &mut JsonPen,
    report: &Report<'_>,
    facts: &[TenancyFacts<'_>],
) -> Result<(), AllocError>
    ensures { OnOk result (pen.new ≡ pen.old
        ++ flat_map member_tokens (list_members report.now facts.now)) }
{
    pen.key("widest")?;
    write_widest(pen, report.widest)?;
    pen.key("fullest_channels")?;
    write_channel_list(pen, &report.fullest)?;
    pen.key("tenancies")?;
    write_tenancy_list(pen, facts)
}

/// Writes the widest strip that would be admitted.
fn write_widest(pen: &mut JsonPen, widest: Option<Room>) -> Result<(), AllocError>
    ensures { OnOk result (pen.new ≡ pen.old ++ json_tokens (widest_json widest)) }
{
    match widest {
        Some(room) => pen.object(&[
            ("width", Scalar::Number(room.width as u64)),
            ("offset", Scalar::Number(room.offset as u64)),
        ]),
        None => pen.scalar(Scalar::Null),
    }
}

/// Writes the list of these channels.
fn write_channel_list(pen: &mut JsonPen, channels: &[ChannelUse]) -> Result<(), AllocError>
    ensures { OnOk result (pen.new ≡ pen.old
        ++ json_tokens (list_of (map channel_json channels.now))) }
{
    pen.open_list()?;
    for channel in channels {
        write_channel(pen, *channel)?;
    }
    pen.close_list()
}

/// Writes the list of the tenancies.
fn write_tenancy_list(pen: &mut JsonPen, facts: &[TenancyFacts<'_>]) -> Result<(), AllocError>
    ensures { OnOk result (pen.new ≡ pen.old
        ++ json_tokens (list_of (map tenancy_json facts.now))) }
{
    pen.open_list()?;
    for one in facts {
        write_tenancy(pen, one)?;
    }
    pen.close_list()
}

/// Writes a tenancy.
fn write_tenancy(pen: &mut JsonPen, facts: &TenancyFacts<'_>) -> Result<(), AllocError>
    ensures { OnOk result (pen.new ≡ pen.old ++ json_tokens (tenancy_json facts.now)) }
{
    pen.open_object()?;
    write_strip_members(pen, facts.uses.tenancy)?;
    write_use_members(pen, facts.uses)?;
    write_circuit_members(pen, &facts.circuit)?;
    pen.key("overuse")?;
    write_overuse_json(pen, &facts.crowding)?;
    pen.close_object()
}

/// Writes the members of a tenancy's strip.
fn write_strip_members(pen: &mut JsonPen, tenancy: Tenancy<'_>) -> Result<(), AllocError>
    ensures { OnOk result (pen.new ≡ pen.old
        ++ flat_map member_tokens (strip_members tenancy.entry)) }
{
    pen.members(&[
        ("id", Scalar::Number(tenancy.id as u64)),
        ("name", Scalar::Name(tenancy.name)),
        ("offset", Scalar::Number(tenancy.offset as u64)),
        ("width", Scalar::Number(tenancy.width as u64)),
        ("state", Scalar::Name(tenancy.state)),
    ])
}

/// Writes the members of what a tenancy uses.
fn write_use_members(pen: &mut JsonPen, uses: TenancyUse<'_>) -> Result<(), AllocError>
    ensures { OnOk result (pen.new ≡ pen.old ++ flat_map member_tokens (use_members uses.entry)) }
{
    write_use(pen, "blocks", uses.tenancy, uses.blocks)?;
    write_use(pen, "pads", uses.tenancy, uses.pads)?;
    write_use(pen, "across", uses.tenancy, uses.across)?;
    write_use(pen, "up", uses.tenancy, uses.up)
}

/// Writes the member of what a tenancy uses of one kind.
fn write_use(
    pen: &mut JsonPen,
    name: &str,
    tenancy: Tenancy<'_>,
    one: ResourceUse,
) -> Result<(), AllocError>
    ensures { OnOk result (pen.new ≡ pen.old
        ++ flat_map member_tokens ((name.now, use_json tenancy.entry one) ∷ [])) }
{
    pen.key(name)?;
    write_used(pen, tenancy, one)
}

/// Writes how many of how many a tenancy uses.
fn write_used(pen: &mut JsonPen, tenancy: Tenancy<'_>, one: ResourceUse) -> Result<(), AllocError>
    ensures { OnOk result (pen.new ≡ pen.old ++ json_tokens (use_json tenancy.entry one)) }
{
    pen.object(&[
        ("used", Scalar::Known(used_of(tenancy, one))),
        ("there", Scalar::Number(one.there as u64)),
    ])
}

/// What a tenancy uses of one kind, if it is routed.
fn used_of(tenancy: Tenancy<'_>, one: ResourceUse) -> Option<u64>
    ensures { result ≡ used_of tenancy.entry one }
{
    if is_word(tenancy.state, "Routed") {
        Some(one.used as u64)
    } else {
        None
    }
}
