//! The tool that saves the files which the service printed.
ghost use Rattle.std.specs.Prelude.{◌≡◌, count_by, map, IfOk, OnErr};
ghost use Rattle.desk_replies.specs.Prelude.{AreAdded, account_now, accounts_of, is_refused, named_act};
ghost use Rattle.desk_replies.specs.Asked.{IsFilesAskedFor, IsFilesForm};
ghost use Rattle.desk_replies.specs.Printed.{IsPrintedFor};
ghost use Rattle.desk_replies.specs.Saved.{replies_files};
ghost use Rattle.desk_replies.specs.Served.{ArePrinted, AreSaved, AreServed};

use crate::files_text::print_form;
use crate::lines::Lines;
use crate::saved_accounts::save_files;
use crate::script_input::{acts_of, lines_of, replies_of};
use crate::tenants::save_replies;
use desk_circuits::LineCounts;
use desk_common::{
    ALONE, DEVICE, FILE, FLAG, FOLDER, FileOutputs, FileRole, FileTexts, Outcome, read_input,
};
use line_text::{Sink, Source};
use option_words::{Given, OptionWord, Program};
use printed_replies::Replies;
use script_replies::{Account, ToldLine, accounts_of, script_lines, told_lines};
use script_text::Act;
use std::alloc::Global;

const NO_FILE: &str = "give a script and a folder";

const TWO_FORMS: &str = "give either --csv or --json";

/// The tool and its options.
pub const TOOL: Program = Program {
    name: "files",
    about: "Saves the result files from what fpgad printed for a script (read from standard input), and prints each line of the script with its reply",
    after_help: "\
For each name, the .net, .place and .route file that the service printed last for the netlist, the placement and the routing that
the name has are written to the folder. Standard error names those that are left out because they are of an earlier one: the name
was evicted or admitted again, or its netlist changed or was withdrawn, packed, placed or routed again. The length in the reply says
where a file ends, whatever it contains. Each refusal is explained, with advice. The last line counts the served lines, the
refused lines and the files. The status is 1 if a line was refused. A file left in the folder by an earlier run is named on standard error.

A line for each name counts what the replies say of it: the columns of its last admission, its lines, the refused ones, the jobs that
began, and the steps for which the operator asked by `op step`. A line after it tells the longest path of the netlist that it has,
in tables, and, if its three files are written, in wires. With --csv only a table is printed, with a row for each name; with --json
one JSON object (docs/SERVICE.md names its members).

Example: fpgad --arch my.arch --tracks 8 --columns 10 < my.script | fpgad_desk files --arch my.arch my.script results",
    options: &[
        OptionWord {
            name: "arch",
            help: "Give it if fpgad was run with --arch: the script then does not begin with the architecture",
            ..FILE
        },
        OptionWord {
            name: "script",
            value_name: "SCRIPT",
            help: "The script",
            ..ALONE
        },
        OptionWord {
            name: "csv",
            help: "Prints only what each name used, as a line of headings and a line for each name",
            ..FLAG
        },
        OptionWord {
            name: "json",
            help: "Prints only what each name used and how many lines were served, as one JSON object",
            ..FLAG
        },
        DEVICE,
        FOLDER,
    ],
};

/// Whose files are wanted, and the folder to write them to.
#[derive(Clone, Copy)]
pub struct FilesWishes<'a> {
    script: &'a str,
    folder: &'a str,
    /// Whether the script begins with the architecture.
    has_architecture: bool,
    form: FilesForm,
}

/// What is printed.
#[derive(Clone, Copy)]
pub(crate) enum FilesForm {
    /// The lines beside their replies, and what each name used.
    Lines,
    /// What each name used, as a table.
    Table,
    /// What each name used, as one object for a program.
    Json,
}

/// What the options ask for, or why they are refused.
pub fn wishes_of<'a>(given: &Given<'a>) -> Result<FilesWishes<'a>, &'static str>
    ensures asked { IfOk result (IsFilesAskedFor given.now) }
    ensures refused { OnErr result ((wishes : FilesWishes) → IsFilesAskedFor given.now wishes → ⊥) }
{
    Ok(FilesWishes {
        script: given.text("script").ok_or(NO_FILE)?,
        folder: given.text("folder").ok_or(NO_FILE)?,
        has_architecture: given.text("arch").is_none(),
        form: form_of(given)?,
    })
}

/// What is to be printed, or why the options are refused.
fn form_of(given: &Given<'_>) -> Result<FilesForm, &'static str>
    ensures asked { IfOk result (IsFilesForm given.now) }
    ensures refused { OnErr result ((form : FilesForm) → IsFilesForm given.now form → ⊥) }
{
    match (given.is_given("csv"), given.is_given("json")) {
        (false, false) => Ok(FilesForm::Lines),
        (true, false) => Ok(FilesForm::Table),
        (false, true) => Ok(FilesForm::Json),
        (true, true) => Err(TWO_FORMS),
    }
}

/// Reads the script, and what was printed for its lines. Writes the files, and prints the lines
/// beside their replies. Returns how many lines were refused.
pub fn run<F: FileTexts + AllocGlobal, O: FileOutputs, R: Source, W: Sink, E: Sink>(
    files: &F,
    outputs: &mut O,
    wishes: FilesWishes<'_>,
    reader: &mut R,
    writer: &mut W,
    teller: &mut E,
) -> Result<usize, Outcome>
    ensures { IfOk result (λ refused. AreServed W.contents W.has_failed writer.old writer.new
        (F.text files.now) (R.remaining reader.old) wishes.entry refused
        (O.written outputs.old) (O.written outputs.new)) }
{
    let script = files.read_text(FileRole::Script, wishes.script, u64::MAX, teller)?;
    let job = FilesJob {
        wishes,
        lines: lines_of(script.as_slice(), wishes.has_architecture),
    };
    run_on_lines(files.alloc(), outputs, job, reader, writer, teller)
}

/// Whose files are wanted, and the lines of the script.
#[derive(Clone, Copy)]
struct FilesJob<'a> {
    wishes: FilesWishes<'a>,
    lines: Lines<'a>,
}

/// Reads what was printed for the lines, writes the files and prints the lines.
fn run_on_lines<O: FileOutputs, R: Source, W: Sink, E: Sink>(
    alloc: Global,
    outputs: &mut O,
    job: FilesJob<'_>,
    reader: &mut R,
    writer: &mut W,
    teller: &mut E,
) -> Result<usize, Outcome>
    ensures { IfOk result (λ refused. ArePrinted W.contents W.has_failed writer.old writer.new
        (R.remaining reader.old) job.entry refused (O.written outputs.old) (O.written outputs.new)) }
{
    let printed = read_input(alloc, reader)?;
    let script = acts_of(alloc, job.lines)?;
    let acts = script.as_slice();
    let replies = replies_of(alloc, acts, printed.as_slice())?;
    run_on_replies(alloc, outputs, job, acts, &replies, writer, teller)
}

/// The replies to a script, and what they say of each name.
#[derive(Clone, Copy)]
struct Answers<'a, 'p> {
    replies: &'a Replies<'a, 'p>,
    accounts: &'a [Account<'a, 'p>],
}

/// Writes the files and prints the lines, by the acts with their replies.
fn run_on_replies<O: FileOutputs, W: Sink, E: Sink>(
    alloc: Global,
    outputs: &mut O,
    job: FilesJob<'_>,
    acts: &[Act<&[u8]>],
    replies: &Replies<'_, '_>,
    writer: &mut W,
    teller: &mut E,
) -> Result<usize, Outcome>
    ensures { IfOk result (λ refused. AreSaved W.contents W.has_failed writer.old writer.new job.entry
        (accounts_of (map named_act acts.now) replies.now) replies.now refused
        (O.written outputs.old) (O.written outputs.new)) }
{
    let accounts = accounts_of(alloc, acts, replies)?;
    let answers = Answers {
        replies,
        accounts: &accounts,
    };
    save_and_print(alloc, outputs, job, answers, writer, teller)
}

/// Writes the files, and prints the lines beside their replies, and their numbers.
fn save_and_print<O: FileOutputs, W: Sink, E: Sink>(
    alloc: Global,
    outputs: &mut O,
    job: FilesJob<'_>,
    answers: Answers<'_, '_>,
    writer: &mut W,
    teller: &mut E,
) -> Result<usize, Outcome>
    ensures { IfOk result (λ refused. AreSaved W.contents W.has_failed writer.old writer.new job.entry
        (map account_now answers.entry.accounts.now) answers.entry.replies.now
        refused (O.written outputs.old) (O.written outputs.new)) }
{
    let files = save_files(outputs, job.wishes.folder, answers.accounts, teller)?;
    let lines = job.lines;
    let asked = script_lines(alloc, lines.text, lines.number)?;
    let told = told_lines(alloc, &asked, answers.replies)?;
    print_told(
        alloc, outputs, job.wishes, answers, &told, files, writer, teller,
    )
}

/// Writes the lines of each name into the folder, and prints the lines with their replies, and how
/// many were served and refused.
fn print_told<O: FileOutputs, W: Sink, E: Sink>(
    alloc: Global,
    outputs: &mut O,
    wishes: FilesWishes<'_>,
    answers: Answers<'_, '_>,
    told: &[ToldLine<'_>],
    files: u32,
    writer: &mut W,
    teller: &mut E,
) -> Result<usize, Outcome>
    ensures counted { IfOk result (λ refused. refused ≡ count_by is_refused told.now) }
    ensures written { IfOk result (λ _. AreAdded (O.written outputs.old) (O.written outputs.new)
        (replies_files wishes.entry.folder.now told.now answers.entry.replies.now)) }
    ensures printed { IfOk result (λ refused. IsPrintedFor W.contents W.has_failed
        writer.old writer.new wishes.entry.form (map account_now answers.entry.accounts.now)
        told.now refused) }
{
    let refused = refused_in(told);
    let counts = LineCounts {
        served: told.len().saturating_sub(refused) as u64,
        refused: refused as u64,
        files: u64::from(files),
    };
    save_replies(alloc, outputs, wishes.folder, answers.replies, told, teller)?;
    print_form(alloc, wishes.form, answers.accounts, told, counts, writer)?;
    Ok(refused)
}

/// How many of these lines are refused.
fn refused_in(told: &[ToldLine<'_>]) -> usize
    ensures { result ≡ count_by is_refused told.now }
{
    told.iter().filter(|line| line.is_refused()).count()
}
