//! What `files` prints.
ghost use Rattle.std.specs.Prelude.{map, OnOk};
ghost use Rattle.desk_replies.specs.Printed.{AreLinesPrinted, IsObjectPrinted, IsPrinted, summary_text};
ghost use Rattle.desk_replies.specs.Prelude.{Writes, account_now};

use crate::files::FilesForm;
use desk_circuits::{LineCounts, facts_of, print_usages, usages_text};
use desk_common::{Outcome, print_text};
use line_text::{Failed, Sink};
use script_replies::{Account, ToldLine, write_told};
use std::alloc::Global;
use text_parts::{Part, write_parts};

/// Prints what is asked for.
pub(crate) fn print_form<W: Sink>(
    alloc: Global,
    form: FilesForm,
    accounts: &[Account<'_, '_>],
    told: &[ToldLine<'_>],
    counts: LineCounts,
    writer: &mut W,
) -> Result<(), Outcome>
    ensures { OnOk result (IsPrinted W.contents W.has_failed writer.old writer.new form
        (map account_now accounts.now) told.now counts) }
{
    match form {
        FilesForm::Lines => {
            write_lines(alloc, accounts, told, counts, writer).or(Err(Outcome::OutputFailed))
        }
        FilesForm::Table => {
            print_usages(alloc, true, accounts, writer).or(Err(Outcome::OutputFailed))
        }
        FilesForm::Json => print_object(alloc, accounts, counts, writer),
    }
}

/// Writes the lines beside their replies, what each name used, and the numbers.
fn write_lines<W: Sink>(
    alloc: Global,
    accounts: &[Account<'_, '_>],
    told: &[ToldLine<'_>],
    counts: LineCounts,
    writer: &mut W,
) -> Result<(), Failed>
    ensures { OnOk result (AreLinesPrinted W.contents W.has_failed writer.old writer.new
        (map account_now accounts.now) told.now counts) }
{
    write_told(writer, told)?;
    print_usages(alloc, false, accounts, writer)?;
    write_summary(writer, counts)
}

/// Prints what each name used as one object.
fn print_object<W: Sink>(
    alloc: Global,
    accounts: &[Account<'_, '_>],
    counts: LineCounts,
    writer: &mut W,
) -> Result<(), Outcome>
    ensures { OnOk result (IsObjectPrinted W.contents W.has_failed writer.old writer.new
        (map account_now accounts.now) counts) }
{
    let names = facts_of(alloc, accounts)?;
    print_text(usages_text(alloc, counts, &names), writer)
}

/// Writes the numbers of lines that were served and refused, and of files.
fn write_summary<W: Sink>(writer: &mut W, counts: LineCounts) -> Result<(), Failed>
    ensures { Writes W.contents W.has_failed writer.old writer.new (summary_text counts) result }
{
    write_parts(
        writer,
        &[
            Part::Text("served "),
            Part::Long(counts.served),
            Part::Text(", refused "),
            Part::Long(counts.refused),
            Part::Text(", files written "),
            Part::Long(counts.files),
            Part::Text("\n"),
        ],
    )
}
