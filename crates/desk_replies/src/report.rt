//! The tool that says how full the device is.
ghost use Rattle.std.specs.Prelude.{is_some, map, option_map, IfOk, OnErr};
ghost use Rattle.desk_replies.specs.Overused.{IsOveruseOf, IsReportedOveruseIn};
ghost use Rattle.desk_replies.specs.Prelude.{accounts_of, named_act};
ghost use Rattle.desk_replies.specs.Paths.{told_accounts};
ghost use Rattle.desk_replies.specs.Asked.{IsReportAskedFor, IsReportForm};
ghost use Rattle.desk_replies.specs.Reported.{IsObject, IsReported, IsShown, IsShownAlone, IsShownBy};

use crate::device_input::device_in;
use crate::lines::Lines;
use crate::overuse::ServedScript;
use crate::report_facts::{Told, facts_of};
use crate::report_json::print_json;
use crate::report_moves::print_moves;
use crate::report_paths::{write_path_table, write_told};
use crate::script_input::{acts_of, lines_of, replies_of};
use crate::shared_device::SharedDevice;
use crate::size::{PADS, size_of};
use crate::tenancy_table::write_table;
use desk_common::{
    COLUMNS, DEVICE, FILE, FLAG, FileRole, Outcome, ROWS, TRACKS, read_file, read_input,
};
use device_lines::DeviceSize;
use device_report::{Report, write_report};
use line_text::{Sink, Source};
use option_words::{Given, OptionWord, Program, Takes};
use script_replies::{Replies, accounts_of};
use script_text::Act;
use std::alloc::Global;
use std::rt::Files;

const ONE_FORM: &str = "give only one of --csv, --json and --moves";

/// The tool and its options.
pub const TOOL: Program = Program {
    name: "report",
    about: "Reports how full the device is, from what fpgad printed for `op list` and `op owners`",
    after_help: "\
For each tenancy: how many of its strip's logic blocks, pads and wires it uses. The wires `across` are those of the channels above
rows (CHANX), and `up` those of the channels beside columns (CHANY). A tenancy that is not Routed owns nothing, and has `-` there.
For the device: its used, guard and free columns, the widest strip that `op admit` would accept now, and the fullest channels.
With --csv only the tenancies are printed: a line of headings, and a line for each of them. With --json all of it is one JSON object
(docs/SERVICE.md names its members). With --script, which names the script
whose output is read, also the longest path of the netlist that each tenancy has: in tables, and, if its three files were printed,
in wires; or that some tables form a loop. And of each tenancy that is Unrouted: how many nodes were left overused, the most overused
ones, and the nets on them. For that its netlist is placed and routed again; if it was changed, they are not known.

With --moves it prints instead, as comments, each gap (free columns side by side) and the widest strip that `op admit` would accept;
then lines `op move NAME OFFSET` that move each strip to the left, each of which is accepted after those before it; and the widest
strip after them. So the lines can be put at the end of a script, or into fpgad_live. No result changes by a move.

Example: fpgad --tracks 8 --columns 10 --rows 8 < my.script | fpgad_desk report --tracks 8 --columns 10 --rows 8",
    options: OPTIONS,
};

/// The sizes of the device, whether a table is printed, and the script.
const OPTIONS: &[OptionWord] = &[
    TRACKS,
    COLUMNS,
    ROWS,
    DEVICE,
    PADS,
    OptionWord {
        name: "csv",
        help: "Prints only what the tenancies use, as a line of headings and a line for each",
        ..FLAG
    },
    OptionWord {
        name: "json",
        help: "Prints the report as one JSON object, with all that it knows",
        ..FLAG
    },
    OptionWord {
        name: "moves",
        help: "Prints only the gaps, and moves that join them, as lines of a script",
        ..FLAG
    },
    OptionWord {
        name: "script",
        value_name: "SCRIPT",
        help: "The script whose output is read: longest paths and overused nodes are printed too",
        takes: Takes::Text,
        default: None,
    },
    OptionWord {
        name: "arch",
        help: "Give it with --script if fpgad was run with --arch: the script then does not begin with the architecture",
        ..FILE
    },
];

/// What is printed.
#[derive(Clone, Copy)]
enum ReportForm {
    /// Lines for a reader.
    Lines,
    /// A table of the tenancies.
    Table,
    /// One object for a program.
    Json,
    /// Moves that join the gaps.
    Moves,
}

/// The size of the device, what is printed, and the script whose output is read.
#[derive(Clone, Copy)]
pub struct ReportWishes<'a> {
    size: DeviceSize,
    form: ReportForm,
    script: Option<&'a str>,
    /// The architecture's file; without it the script begins with the architecture.
    arch: Option<&'a str>,
}

/// What the options ask for, or why they are refused.
pub fn wishes_of<'a>(given: &Given<'a>) -> Result<ReportWishes<'a>, &'static str>
    ensures asked { IfOk result (IsReportAskedFor given.now) }
    ensures refused { OnErr result ((wishes : ReportWishes) → IsReportAskedFor given.now wishes → ⊥) }
{
    Ok(ReportWishes {
        size: size_of(given)?,
        form: form_of(given)?,
        script: given.text("script"),
        arch: given.text("arch"),
    })
}

/// What is to be printed, or why the options are refused.
fn form_of(given: &Given<'_>) -> Result<ReportForm, &'static str>
    ensures asked { IfOk result (IsReportForm given.now) }
    ensures refused { OnErr result ((form : ReportForm) → IsReportForm given.now form → ⊥) }
{
    let is_table = given.is_given("csv");
    let is_json = given.is_given("json");
    let is_moves = given.is_given("moves");
    match (is_table, is_json, is_moves) {
        (false, false, false) => Ok(ReportForm::Lines),
        (true, false, false) => Ok(ReportForm::Table),
        (false, true, false) => Ok(ReportForm::Json),
        (false, false, true) => Ok(ReportForm::Moves),
        _ => Err(ONE_FORM),
    }
}

/// Reads what was printed, and the script if it is given, and prints the report.
pub fn run<H: Files + AllocGlobal, R: Source, W: Sink, E: Sink>(
    rt: &H,
    wishes: ReportWishes<'_>,
    reader: &mut R,
    writer: &mut W,
    teller: &mut E,
) -> Result<(), Outcome>
    ensures { IfOk result (λ _. IsReported W.contents W.has_failed writer.old writer.new
        (R.remaining reader.old) wishes.entry (is_some wishes.entry.script)) }
{
    let Some(path) = wishes.script else {
        return run_on_lines(rt.alloc(), wishes, None, reader, writer);
    };
    let script = read_file(rt, FileRole::Script, path, u64::MAX, teller)?;
    let lines = lines_of(script.as_slice(), wishes.arch.is_none());
    let Some(path) = wishes.arch else {
        return run_on_lines(rt.alloc(), wishes, Some(lines), reader, writer);
    };
    let arch = read_file(rt, FileRole::Architecture, path, u64::MAX, teller)?;
    let lines = Lines {
        text: lines.text,
        architecture: arch.as_slice(),
        number: lines.number,
    };
    run_on_lines(rt.alloc(), wishes, Some(lines), reader, writer)
}

/// Reads what was printed, for these lines if the script is given, and prints the report.
fn run_on_lines<R: Source, W: Sink>(
    alloc: Global,
    wishes: ReportWishes<'_>,
    lines: Option<Lines<'_>>,
    reader: &mut R,
    writer: &mut W,
) -> Result<(), Outcome>
    ensures { IfOk result (λ _. IsReported W.contents W.has_failed writer.old writer.new
        (R.remaining reader.old) wishes.entry (is_some lines.entry)) }
{
    let printed = read_input(alloc, reader)?;
    let text = printed.as_slice();
    let device = device_in(alloc, wishes.size, text)?;
    let report = Report::new(alloc, &device)?;
    drop(device);
    print(alloc, wishes, lines, text, &report, writer)
}

/// Prints a report, or moves if they are asked for. With the script a report has the longest paths
/// of the tenancies' netlists.
fn print<W: Sink>(
    alloc: Global,
    wishes: ReportWishes<'_>,
    lines: Option<Lines<'_>>,
    printed: &[u8],
    report: &Report<'_>,
    writer: &mut W,
) -> Result<(), Outcome>
    ensures { IfOk result (λ _. IsShown W.contents W.has_failed writer.old writer.new
        wishes.entry.form (is_some lines.entry) printed.now report.now) }
{
    let Some(lines) = lines else {
        return print_plain(alloc, wishes.form, report, writer);
    };
    let size = wishes.size;
    let device = SharedDevice::new(lines.architecture, size.rows, size.tracks);
    let script = acts_of(alloc, lines)?;
    let acts = script.as_slice();
    let replies = replies_of(alloc, acts, printed)?;
    print_acts(alloc, wishes.form, device, report, acts, &replies, writer)
}

/// Prints a report of a device on which these acts had these replies.
fn print_acts<W: Sink>(
    alloc: Global,
    form: ReportForm,
    device: Option<SharedDevice<'_>>,
    report: &Report<'_>,
    acts: &[Act<&[u8]>],
    replies: &Replies<'_, '_>,
    writer: &mut W,
) -> Result<(), Outcome>
    ensures { IfOk result (λ _. IsShownBy W.contents W.has_failed writer.old writer.new
        (IsOveruseOf device.entry (map named_act acts.now) replies.now) form
        (accounts_of (map named_act acts.now) replies.now) report.now) }
{
    let served = ServedScript {
        acts,
        replies,
        device,
    };
    print_served(alloc, form, report, served, writer)
}

/// Prints a report without longest paths, or moves.
fn print_plain<W: Sink>(
    alloc: Global,
    form: ReportForm,
    report: &Report<'_>,
    writer: &mut W,
) -> Result<(), Outcome>
    ensures { IfOk result (λ _. IsShownAlone W.contents W.has_failed writer.old writer.new form
        report.now) }
{
    match form {
        ReportForm::Table => write_table(writer, report).or(Err(Outcome::OutputFailed)),
        ReportForm::Json => print_object(alloc, report, None, writer),
        ReportForm::Moves => print_moves(alloc, report, writer),
        ReportForm::Lines => write_report(writer, report).or(Err(Outcome::OutputFailed)),
    }
}

/// Prints a report as one object, by the script if it is given.
fn print_object<W: Sink>(
    alloc: Global,
    report: &Report<'_>,
    told: Option<Told<'_>>,
    writer: &mut W,
) -> Result<(), Outcome>
    ensures { IfOk result (λ _. IsObject W.contents W.has_failed writer.old writer.new
        (option_map told_accounts told.entry) report.now) }
{
    let facts = facts_of(alloc, report, told)?;
    print_json(alloc, report, &facts, writer)
}

/// Prints a report with the longest path of each tenancy's netlist, and where the routings of those
/// that are Unrouted are overused.
fn print_served<'a, W: Sink>(
    alloc: Global,
    form: ReportForm,
    report: &Report<'a>,
    served: ServedScript<'a>,
    writer: &mut W,
) -> Result<(), Outcome>
    ensures { IfOk result (λ _. IsShownBy W.contents W.has_failed writer.old writer.new
        (IsReportedOveruseIn served.entry) form
        (accounts_of (map named_act served.entry.acts.now) served.entry.replies.now) report.now) }
{
    let accounts = accounts_of(alloc, served.acts, served.replies)?;
    let told = Told {
        served,
        accounts: &accounts,
    };
    print_told(alloc, form, report, told, writer)
}

/// Prints a report by a served script, or moves.
fn print_told<W: Sink>(
    alloc: Global,
    form: ReportForm,
    report: &Report<'_>,
    told: Told<'_>,
    writer: &mut W,
) -> Result<(), Outcome>
    ensures { IfOk result (λ _. IsShownBy W.contents W.has_failed writer.old writer.new
        (IsReportedOveruseIn told.entry.served) form (told_accounts told.entry) report.now) }
{
    match form {
        ReportForm::Table => write_path_table(alloc, report, told.accounts, writer).or(Err(
            Outcome::OutputFailed,
        )),
        ReportForm::Json => print_object(alloc, report, Some(told), writer),
        ReportForm::Moves => print_moves(alloc, report, writer),
        ReportForm::Lines => write_told(alloc, report, told, writer).or(Err(Outcome::OutputFailed)),
    }
}
