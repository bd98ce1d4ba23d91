//! What each name used: a line for each, or a table.
ghost use Rattle.std.specs.Prelude.{ℕ, List, ◌≡◌, ◌++◌, IfOk, OnOk, map};
ghost use Rattle.desk_circuits.specs.EachText.{ShowsEach};
ghost use Rattle.desk_circuits.specs.Fields.{known_field};
ghost use Rattle.desk_circuits.specs.Measured.{IsOfFilesIfAny};
ghost use Rattle.desk_circuits.specs.PathLines.{longest_line, tables_if_known, wires_if_known};
ghost use Rattle.desk_circuits.specs.declared.usages.NameFacts.{NameFacts};
ghost use Rattle.desk_circuits.specs.Usages.{AreFactsOf, IsFactsOf, ShowsUsage, ShowsUsages, path_fields, usage_headings, usage_line, usage_row, usage_text};
ghost use Rattle.desk_circuits.specs.Prelude.{Writes, account_now, states_of};

use crate::csv::write_numbers;
use crate::longest::{MeasuredCircuit, measure};
use crate::path_text::texts_of;
use line_text::{Failed, Sink};
use script_replies::{Account, NameFiles, Usage};
use std::alloc::{AllocError, Global};
use text_parts::{Part, write_parts};

/// The headings of the table.
const HEADINGS: &str =
    "name,columns,lines,refused,jobs,steps_by_the_operator,longest_path,longest_path_wires\n";

/// Prints what each name used.
pub fn print_usages<W: Sink>(
    alloc: Global,
    is_table: bool,
    accounts: &[Account<'_, '_>],
    writer: &mut W,
) -> Result<(), Failed>
    ensures { (text : List ℕ) × ShowsUsages is_table (map account_now accounts.now) text
        × Writes W.contents W.has_failed writer.old writer.new text result }
{
    write_headings(is_table, writer)?;
    write_usages(alloc, is_table, accounts, writer)
}

/// Prints the headings of a table.
fn write_headings<W: Sink>(is_table: bool, writer: &mut W) -> Result<(), Failed>
    ensures { Writes W.contents W.has_failed writer.old writer.new (usage_headings is_table)
        result }
{
    if is_table {
        write_parts(writer, &[Part::Text(HEADINGS)])
    } else {
        Ok(())
    }
}

/// Prints the row or the lines of each name.
fn write_usages<W: Sink>(
    alloc: Global,
    is_table: bool,
    accounts: &[Account<'_, '_>],
    writer: &mut W,
) -> Result<(), Failed>
    ensures { (text : List ℕ) × ShowsEach (ShowsUsage is_table) (map account_now accounts.now) text
        × Writes W.contents W.has_failed writer.old writer.new text result }
{
    for account in accounts {
        write_account(alloc, is_table, account, writer)?;
    }
    Ok(())
}

/// Prints the row or the lines of a name.
fn write_account<W: Sink>(
    alloc: Global,
    is_table: bool,
    account: &Account<'_, '_>,
    writer: &mut W,
) -> Result<(), Failed>
    ensures { (text : List ℕ) × ShowsUsage is_table (account_now account.now) text
        × Writes W.contents W.has_failed writer.old writer.new text result }
{
    let circuit = present_circuit(alloc, account.files);
    let written = write_text(is_table, account, &circuit, writer);
    drop(circuit);
    written
}

/// Prints the row or the lines of a name, with this circuit.
fn write_text<W: Sink>(
    is_table: bool,
    account: &Account<'_, '_>,
    circuit: &Option<MeasuredCircuit>,
    writer: &mut W,
) -> Result<(), Failed>
    ensures { Writes W.contents W.has_failed writer.old writer.new
        (usage_text is_table account.now.name.now account.now.usage circuit.now) result }
{
    if is_table {
        write_row(writer, account.name, account.usage, circuit)
    } else {
        write_lines(writer, account.name, account.usage, circuit)
    }
}

/// What a name used, and the circuit of the netlist that it has.
#[derive(Drop)]
pub struct NameFacts<'a> {
    pub(crate) name: &'a [u8],
    pub(crate) usage: Usage,
    /// `None` if it has no netlist, or if memory ran out.
    pub(crate) circuit: Option<MeasuredCircuit>,
}

/// What the names of these accounts used. Fails if memory runs out.
pub fn facts_of<'a>(
    alloc: Global,
    accounts: &[Account<'a, '_>],
) -> Result<Vec<NameFacts<'a>>, AllocError>
    ensures { IfOk result (λ facts. AreFactsOf (map account_now accounts.now) facts.items) }
{
    let mut facts = Vec::new(alloc);
    add_facts(alloc, accounts, &mut facts)?;
    Ok(facts)
}

/// Adds what the names of these accounts used.
fn add_facts<'a>(
    alloc: Global,
    accounts: &[Account<'a, '_>],
    facts: &mut Vec<NameFacts<'a>>,
) -> Result<(), AllocError>
    ensures { OnOk result ((added : List NameFacts)
        × (facts.new.items ≡ facts.old.items ++ added)
        × AreFactsOf (map account_now accounts.now) added) }
{
    for account in accounts {
        facts.push(facts_of_name(alloc, account))?;
    }
    Ok(())
}

/// What a name used, and the circuit of the netlist that it has.
fn facts_of_name<'a>(alloc: Global, account: &Account<'a, '_>) -> NameFacts<'a>
    ensures { IsFactsOf (account_now account.now) result }
{
    NameFacts {
        name: account.name,
        usage: account.usage,
        circuit: present_circuit(alloc, account.files),
    }
}

/// The circuit of the netlist that a name has, and its longest path. `None` if it has no netlist,
/// or if memory runs out.
pub fn present_circuit(alloc: Global, files: NameFiles<'_, '_>) -> Option<MeasuredCircuit>
    ensures { IsOfFilesIfAny (states_of files.entry) result }
{
    measure(alloc, files.netlist?, texts_of(files))
}

/// Prints what a name used, and the longest path of its netlist.
fn write_lines<W: Sink>(
    writer: &mut W,
    name: &[u8],
    usage: Usage,
    circuit: &Option<MeasuredCircuit>,
) -> Result<(), Failed>
    ensures { Writes W.contents W.has_failed writer.old writer.new
        (usage_line name.now usage ++ longest_line name.now circuit.now) result }
{
    write_usage(writer, name, usage)?;
    write_longest(writer, name, circuit)
}

/// Prints the longest path of a name's netlist, if there is a netlist.
pub fn write_longest<W: Sink>(
    writer: &mut W,
    name: &[u8],
    circuit: &Option<MeasuredCircuit>,
) -> Result<(), Failed>
    ensures { Writes W.contents W.has_failed writer.old writer.new
        (longest_line name.now circuit.now) result }
{
    match circuit {
        Some(circuit) => {
            write_parts(writer, &[Part::Bytes(name), Part::Text(": ")])?;
            circuit.write_line(writer)
        }
        None => Ok(()),
    }
}

/// Prints what a name used.
fn write_usage<W: Sink>(writer: &mut W, name: &[u8], usage: Usage) -> Result<(), Failed>
    ensures { Writes W.contents W.has_failed writer.old writer.new (usage_line name.now usage)
        result }
{
    write_parts(
        writer,
        &[
            Part::Bytes(name),
            Part::Text(": columns "),
            Part::Number(usage.columns),
            Part::Text(", lines "),
            Part::Long(usage.lines as u64),
            Part::Text(", refused "),
            Part::Long(usage.refused as u64),
            Part::Text(", jobs "),
            Part::Long(usage.jobs as u64),
            Part::Text(", steps by the operator "),
            Part::Long(usage.steps),
            Part::Text("\n"),
        ],
    )
}

/// Prints the row of a name.
fn write_row<W: Sink>(
    writer: &mut W,
    name: &[u8],
    usage: Usage,
    circuit: &Option<MeasuredCircuit>,
) -> Result<(), Failed>
    ensures { Writes W.contents W.has_failed writer.old writer.new
        (usage_row name.now usage circuit.now) result }
{
    write_parts(writer, &[Part::Bytes(name)])?;
    write_numbers(
        writer,
        &[
            usage.columns as u64,
            usage.lines as u64,
            usage.refused as u64,
            usage.jobs as u64,
            usage.steps,
        ],
    )?;
    write_path(writer, circuit)
}

/// Writes the numbers of the longest path and ends the row. A number that there is not is left out.
pub fn write_path<W: Sink>(writer: &mut W, circuit: &Option<MeasuredCircuit>) -> Result<(), Failed>
    ensures { Writes W.contents W.has_failed writer.old writer.new (path_fields circuit.now)
        result }
{
    write_known(writer, tables_of(circuit))?;
    write_known(writer, wires_of(circuit))?;
    write_parts(writer, &[Part::Text("\n")])
}

/// The number of tables of a circuit's longest path, if it is known.
fn tables_of(circuit: &Option<MeasuredCircuit>) -> Option<u64>
    ensures { result ≡ tables_if_known circuit.now }
{
    match circuit {
        Some(circuit) => circuit.tables(),
        None => None,
    }
}

/// The number of wires of a circuit's longest path, if it is known.
fn wires_of(circuit: &Option<MeasuredCircuit>) -> Option<u64>
    ensures { result ≡ wires_if_known circuit.now }
{
    match circuit {
        Some(circuit) => circuit.wires(),
        None => None,
    }
}

/// Writes a field with a number, if it is known.
fn write_known<W: Sink>(writer: &mut W, number: Option<u64>) -> Result<(), Failed>
    ensures { Writes W.contents W.has_failed writer.old writer.new (known_field number) result }
{
    match number {
        Some(number) => write_numbers(writer, &[number]),
        None => write_parts(writer, &[Part::Text(",")]),
    }
}
