//! The longest path of each tenancy's netlist, for the report of a device.
ghost use Rattle.std.specs.Prelude.{ℕ, ◌++◌, List, OnOk, map};
ghost use Rattle.desk_replies.specs.Prelude.{ShowsEach, path_fields, Writes, account_now};
ghost use Rattle.desk_replies.specs.Overused.{IsReportedOveruseIn};
ghost use Rattle.desk_replies.specs.Paths.{ShowsPath, ShowsPathTable, ShowsPaths, path_headings, path_text, told_accounts};
ghost use Rattle.desk_replies.specs.Reported.{ArePathsShown};
ghost use Rattle.desk_replies.specs.Tables.{row_fields};

use crate::overuse::write_overuses;
use crate::report_facts::{Told, circuit_of};
use crate::tenancy_table::{write_fields, write_heading_fields};
use desk_circuits::{MeasuredCircuit, write_longest, write_path};
use device_report::{Report, TenancyUse, write_report};
use line_text::{Failed, Sink};
use script_replies::Account;
use std::alloc::Global;
use text_parts::{Part, write_parts};

/// The headings of the columns with the longest path.
const PATH_HEADINGS: &str = ",longest_path,longest_path_wires\n";

/// Writes a report in lines, and what a served script tells of its tenancies: the longest path of
/// each, and where the routings of those that are Unrouted are overused.
pub(crate) fn write_told<W: Sink>(
    alloc: Global,
    report: &Report<'_>,
    told: Told<'_>,
    writer: &mut W,
) -> Result<(), Failed>
    ensures { OnOk result (ArePathsShown W.contents W.has_failed writer.old writer.new
        (IsReportedOveruseIn told.entry.served) (told_accounts told.entry) report.now) }
{
    write_report(writer, report)?;
    write_paths(alloc, report, told.accounts, writer)?;
    write_overuses(alloc, &report.tenancies, told.served, writer)
}

/// Writes a line for each tenancy of a report: the longest path of its netlist, by the accounts of
/// a script. A tenancy without a netlist has no line.
fn write_paths<W: Sink>(
    alloc: Global,
    report: &Report<'_>,
    accounts: &[Account<'_, '_>],
    writer: &mut W,
) -> Result<(), Failed>
    ensures { (text : List ℕ) × ShowsPaths (map account_now accounts.now) report.now text
        × Writes W.contents W.has_failed writer.old writer.new text result }
{
    write_each_path(alloc, false, &report.tenancies, accounts, writer)
}

/// Writes what the tenancies of a report use as a table, with the longest path of the netlist of
/// each.
pub(crate) fn write_path_table<W: Sink>(
    alloc: Global,
    report: &Report<'_>,
    accounts: &[Account<'_, '_>],
    writer: &mut W,
) -> Result<(), Failed>
    ensures { (text : List ℕ) × ShowsPathTable (map account_now accounts.now) report.now text
        × Writes W.contents W.has_failed writer.old writer.new text result }
{
    write_path_headings(writer)?;
    write_each_path(alloc, true, &report.tenancies, accounts, writer)
}

/// Writes the headings of the table.
fn write_path_headings<W: Sink>(writer: &mut W) -> Result<(), Failed>
    ensures { Writes W.contents W.has_failed writer.old writer.new path_headings result }
{
    write_heading_fields(writer)?;
    write_parts(writer, &[Part::Text(PATH_HEADINGS)])
}

/// Writes the rows of these tenancies, or the lines of their longest paths.
fn write_each_path<W: Sink>(
    alloc: Global,
    is_row: bool,
    tenancies: &[TenancyUse<'_>],
    accounts: &[Account<'_, '_>],
    writer: &mut W,
) -> Result<(), Failed>
    ensures { (text : List ℕ)
        × ShowsEach (ShowsPath is_row (map account_now accounts.now)) tenancies.now text
        × Writes W.contents W.has_failed writer.old writer.new text result }
{
    for uses in tenancies {
        write_one_path(alloc, is_row, uses, accounts, writer)?;
    }
    Ok(())
}

/// Writes the row of a tenancy, or the line of its longest path.
fn write_one_path<W: Sink>(
    alloc: Global,
    is_row: bool,
    uses: &TenancyUse<'_>,
    accounts: &[Account<'_, '_>],
    writer: &mut W,
) -> Result<(), Failed>
    ensures { (text : List ℕ) × ShowsPath is_row (map account_now accounts.now) uses.now text
        × Writes W.contents W.has_failed writer.old writer.new text result }
{
    let circuit = circuit_of(alloc, accounts, uses.tenancy.name);
    write_text(is_row, uses, &circuit, writer)
}

/// Writes the row, or the line, of a tenancy whose netlist has this circuit.
fn write_text<W: Sink>(
    is_row: bool,
    uses: &TenancyUse<'_>,
    circuit: &Option<MeasuredCircuit>,
    writer: &mut W,
) -> Result<(), Failed>
    ensures { Writes W.contents W.has_failed writer.old writer.new
        (path_text is_row uses.now circuit.now) result }
{
    if is_row {
        write_row(uses, circuit, writer)
    } else {
        write_longest(writer, uses.tenancy.name, circuit)
    }
}

/// Writes the row of a tenancy whose netlist has this circuit.
fn write_row<W: Sink>(
    uses: &TenancyUse<'_>,
    circuit: &Option<MeasuredCircuit>,
    writer: &mut W,
) -> Result<(), Failed>
    ensures { Writes W.contents W.has_failed writer.old writer.new
        (row_fields uses.now ++ path_fields circuit.now) result }
{
    write_fields(writer, uses)?;
    write_path(writer, circuit)
}
