//! Where a device has room, and the moves that join its gaps, as lines of a script.
ghost use Rattle.std.specs.Prelude.{◌≡◌, ◌≤◌, codes, flat_map, option_map, IfOk};
ghost use Rattle.desk_replies.specs.Prelude.{MAX_COLUMNS, TakesAll, Writes, gaps_of};
ghost use Rattle.desk_replies.specs.Moves.{AreJoined, AreMoves, gaps_text, joining_text, line_to, move_line, room_line, strips_of, tenancy_of, widest_line};

use desk_common::Outcome;
use device_report::{Report, Room, TenancyUse};
use line_text::{Failed, Sink};
use std::alloc::{AllocError, Global};
use strip_moves::{Joining, StripMove, gaps_of, joining_moves};
use strips::PlacedStrip;
use text_parts::{Part, write_parts};

/// Prints the gaps of a report's device and the widest strip that would be admitted, as comments;
/// then moves that join the gaps, as lines of a script, and the widest strip after them.
pub(crate) fn print_moves<W: Sink>(
    alloc: Global,
    report: &Report<'_>,
    writer: &mut W,
) -> Result<(), Outcome>
    ensures { IfOk result (λ _. AreMoves W.contents W.has_failed writer.old writer.new report.now) }
{
    let strips = strips_of(alloc, report)?;
    let placed = strips.as_slice();
    print_gaps(alloc, report, placed, writer)?;
    print_joining(alloc, report, placed, writer)
}

/// The strips of the tenancies of a report.
fn strips_of(alloc: Global, report: &Report<'_>) -> Result<Vec<PlacedStrip>, AllocError>
    ensures { IfOk result (λ strips. strips.items ≡ strips_of report.now) }
{
    report
        .tenancies
        .iter()
        .map(|uses| PlacedStrip {
            id: uses.tenancy.id,
            offset: uses.tenancy.offset,
            width: uses.tenancy.width,
        })
        .collect(alloc)
}

/// Prints the gaps and the widest strip that would be admitted now.
fn print_gaps<W: Sink>(
    alloc: Global,
    report: &Report<'_>,
    strips: &[PlacedStrip],
    writer: &mut W,
) -> Result<(), Outcome>
    ensures { IfOk result (λ _. TakesAll W.contents W.has_failed writer.old writer.new
        (gaps_text (gaps_of report.now.size.columns strips.now) report.now.widest)) }
{
    let gaps = gaps_of(alloc, report.size.columns, strips)?;
    write_gaps(&gaps, report.widest, writer).or(Err(Outcome::OutputFailed))
}

/// Prints the moves and the widest strip that would be admitted after them.
fn print_joining<W: Sink>(
    alloc: Global,
    report: &Report<'_>,
    strips: &[PlacedStrip],
    writer: &mut W,
) -> Result<(), Outcome>
    ensures { IfOk result (λ _. AreJoined W.contents W.has_failed writer.old writer.new
        report.now.tenancies.items
        (record { columns = report.now.size.columns; strips = strips.now })) }
{
    match joining_moves(alloc, report.size.columns, strips) {
        Ok(Some(joining)) => {
            write_joining(&report.tenancies, &joining, writer).or(Err(Outcome::OutputFailed))
        }
        Ok(None) => Ok(()),
        Err(_) => Err(Outcome::NoMemory),
    }
}

/// Writes the gaps and the widest strip, as comments.
fn write_gaps<W: Sink>(gaps: &[Room], widest: Option<Room>, writer: &mut W) -> Result<(), Failed>
    ensures { Writes W.contents W.has_failed writer.old writer.new (gaps_text gaps.now widest)
        result }
{
    write_rooms(gaps, writer)?;
    write_widest("widest", widest, writer)
}

/// Writes the gaps, as comments.
fn write_rooms<W: Sink>(gaps: &[Room], writer: &mut W) -> Result<(), Failed>
    ensures { Writes W.contents W.has_failed writer.old writer.new
        (flat_map (room_line (codes "gap")) gaps.now) result }
{
    for gap in gaps {
        write_room("gap", *gap, writer)?;
    }
    Ok(())
}

/// Writes the moves as lines of a script, and the widest strip after them as a comment.
fn write_joining<W: Sink>(
    tenancies: &[TenancyUse<'_>],
    joining: &Joining,
    writer: &mut W,
) -> Result<(), Failed>
    ensures { Writes W.contents W.has_failed writer.old writer.new
        (joining_text tenancies.now joining.now) result }
{
    write_moves(tenancies, &joining.moves, writer)?;
    write_widest("then widest", joining.widest, writer)
}

/// Writes the moves as lines of a script.
fn write_moves<W: Sink>(
    tenancies: &[TenancyUse<'_>],
    moves: &[StripMove],
    writer: &mut W,
) -> Result<(), Failed>
    ensures { Writes W.contents W.has_failed writer.old writer.new
        (flat_map (move_line tenancies.now) moves.now) result }
{
    for one in moves {
        write_move(tenancies, *one, writer)?;
    }
    Ok(())
}

/// Writes a move as a line of a script.
fn write_move<W: Sink>(
    tenancies: &[TenancyUse<'_>],
    one: StripMove,
    writer: &mut W,
) -> Result<(), Failed>
    ensures { Writes W.contents W.has_failed writer.old writer.new (move_line tenancies.now one)
        result }
{
    match tenancy_of(tenancies, one.id) {
        Some(uses) => write_line_to(one.offset, uses, writer),
        None => Ok(()),
    }
}

/// The first of the tenancies with that id.
fn tenancy_of<'r, 't>(tenancies: &'r [TenancyUse<'t>], id: u32) -> Option<&'r TenancyUse<'t>>
    ensures { option_map (λ uses. uses.now) result ≡ tenancy_of tenancies.now id }
{
    tenancies.iter().find(|uses| uses.tenancy.id == id)
}

/// Writes a move of a tenancy to that offset as a line of a script.
fn write_line_to<W: Sink>(offset: u32, uses: &TenancyUse<'_>, writer: &mut W) -> Result<(), Failed>
    ensures { Writes W.contents W.has_failed writer.old writer.new (line_to offset uses.now)
        result }
{
    write_parts(
        writer,
        &[
            Part::Text("op move "),
            Part::Bytes(uses.tenancy.name),
            Part::Text(" "),
            Part::Number(offset),
            Part::Text("\n"),
        ],
    )
}

/// Writes a widest strip as a comment.
fn write_widest<W: Sink>(
    words: &'static str,
    widest: Option<Room>,
    writer: &mut W,
) -> Result<(), Failed>
    ensures { Writes W.contents W.has_failed writer.old writer.new (widest_line words.now widest)
        result }
{
    match widest {
        Some(room) => write_room(words, room, writer),
        None => write_parts(
            writer,
            &[Part::Text("# "), Part::Text(words), Part::Text(" none\n")],
        ),
    }
}

/// Writes columns side by side as a comment: the words, their number, and the offset.
fn write_room<W: Sink>(words: &'static str, room: Room, writer: &mut W) -> Result<(), Failed>
    ensures { Writes W.contents W.has_failed writer.old writer.new (room_line words.now room)
        result }
{
    write_parts(
        writer,
        &[
            Part::Text("# "),
            Part::Text(words),
            Part::Text(" "),
            Part::Number(room.width),
            Part::Text(" offset "),
            Part::Number(room.offset),
            Part::Text("\n"),
        ],
    )
}
