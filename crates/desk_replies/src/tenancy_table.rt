//! What the tenancies of a device use, as a table.
ghost use Rattle.std.specs.Prelude.{◌≡◌, flat_map};
ghost use Rattle.desk_replies.specs.Prelude.{Writes};
ghost use Rattle.desk_replies.specs.Tables.{heading_fields, headings, line_end, row_fields, row_text, table_text};

use device_report::{Report, TenancyUse, used_part};
use line_text::{Failed, Sink, write_all};
use text_parts::{Part, write_parts};

/// Writes what the tenancies of a report use as a table: a line of headings, and a line for each
/// tenancy. If the sink fails, it has taken a first part of them.
pub(crate) fn write_table<K: Sink>(sink: &mut K, report: &Report<'_>) -> Result<(), Failed>
    ensures { Writes K.contents K.has_failed sink.old sink.new (table_text report.now) result }
{
    write_headings(sink)?;
    write_rows(sink, &report.tenancies)
}

/// Writes the headings of a table.
fn write_headings<K: Sink>(sink: &mut K) -> Result<(), Failed>
    ensures { Writes K.contents K.has_failed sink.old sink.new headings result }
{
    write_heading_fields(sink)?;
    end_line(sink)
}

/// Writes the headings of a table without the end of the line.
pub(crate) fn write_heading_fields<K: Sink>(sink: &mut K) -> Result<(), Failed>
    ensures { Writes K.contents K.has_failed sink.old sink.new heading_fields result }
{
    write_parts(
        sink,
        &[
            Part::Text("id,name,offset,width,state,blocks,blocks_there,pads,pads_there,"),
            Part::Text("across,across_there,up,up_there"),
        ],
    )
}

/// Ends a line.
fn end_line<K: Sink>(sink: &mut K) -> Result<(), Failed>
    ensures { Writes K.contents K.has_failed sink.old sink.new line_end result }
{
    write_all(sink, b"\n")
}

/// Writes the rows of the tenancies.
fn write_rows<K: Sink>(sink: &mut K, tenancies: &[TenancyUse<'_>]) -> Result<(), Failed>
    ensures { Writes K.contents K.has_failed sink.old sink.new (flat_map row_text tenancies.now)
        result }
{
    for uses in tenancies {
        write_row(sink, uses)?;
    }
    Ok(())
}

/// Writes the row of a tenancy.
fn write_row<K: Sink>(sink: &mut K, uses: &TenancyUse<'_>) -> Result<(), Failed>
    ensures { Writes K.contents K.has_failed sink.old sink.new (row_text uses.now) result }
{
    write_fields(sink, uses)?;
    end_line(sink)
}

/// Writes the fields of a tenancy's row; `-` for what a tenancy uses that isn't routed.
pub(crate) fn write_fields<K: Sink>(sink: &mut K, uses: &TenancyUse<'_>) -> Result<(), Failed>
    ensures { Writes K.contents K.has_failed sink.old sink.new (row_fields uses.now) result }
{
    write_parts(
        sink,
        &[
            Part::Number(uses.tenancy.id),
            Part::Text(","),
            Part::Bytes(uses.tenancy.name),
            Part::Text(","),
            Part::Number(uses.tenancy.offset),
            Part::Text(","),
            Part::Number(uses.tenancy.width),
            Part::Text(","),
            Part::Bytes(uses.tenancy.state),
            Part::Text(","),
            used_part(&uses.tenancy, uses.blocks),
            Part::Text(","),
            Part::Number(uses.blocks.there),
            Part::Text(","),
            used_part(&uses.tenancy, uses.pads),
            Part::Text(","),
            Part::Number(uses.pads.there),
            Part::Text(","),
            used_part(&uses.tenancy, uses.across),
            Part::Text(","),
            Part::Number(uses.across.there),
            Part::Text(","),
            used_part(&uses.tenancy, uses.up),
            Part::Text(","),
            Part::Number(uses.up.there),
        ],
    )
}
