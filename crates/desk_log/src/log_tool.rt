//! The tool that makes the log of a live service shorter.
ghost use Rattle.std.specs.Prelude.{◌≡◌, ℕ, List, eqb, IfErr, IfOk, OnErr, OnOk};
ghost use Rattle.std.specs.List.{starts_with};
ghost use Rattle.desk_log.specs.Prelude.{TakesAll, heading, NoMemory};
ghost use Rattle.desk_log.specs.Shortened.{IsAskedFor, IsPrintOf, IsRefusal, IsShortened, IsUnprinted};

use crate::printing::print_checked;
use arch_file::{ArchError, read_arch};
use desk_common::{
    ARCH, COLUMNS, DEVICE, FileRole, FileTexts, NO_DEVICE, Outcome, ROWS, TRACKS, write_arch_fault,
};
use line_text::{MAX_TEXT, Sink, write_all};
use live_run::{Options, first_line, whole_part};
use option_words::{Given, OptionWord, Program, Takes};
use std::alloc::Global;

const NO_FILE: &str = "give an architecture and a log";

const NO_LIMIT: &str = "--tenant-memory is beyond its limits";

/// The tool and its options.
pub const TOOL: Program = Program {
    name: "log",
    about: "Prints a shorter log for fpgad_live, with which it goes on as with the whole one",
    after_help: "\
The options are those that fpgad_live runs with. The service must not be running. Left out are the lines of evicted tenancies,
what a later `withdraw`, `change`, `place` or `cancel` made void, `status`, `net`, `placefile`, `routefile`, `op list`, `op owners`,
each `op echo` but the last, and what was refused.
Ids and offsets stay, and a comment says the last id that each name used. Journals have fewer entries then, and `? N` counts the lines of the shorter log.
The shorter log is checked: a second service is served it, and both are asked for each tenancy's state and files.
Unless they answer alike, the whole log is printed, and standard error says so.
A log of which a sum differs is refused.

Example: fpgad_desk log --arch my.arch --tracks 8 --columns 20 --rows 10 day.log > short.log && mv short.log day.log",
    options: &[
        ARCH,
        TRACKS,
        COLUMNS,
        ROWS,
        OptionWord {
            name: "tenant-memory",
            value_name: "MIB",
            help: "MiB of texts that one tenancy's journal may hold, 1 to 1048576",
            takes: Takes::Number(1, 1_048_576),
            default: Some("256"),
        },
        DEVICE,
        OptionWord {
            name: "log",
            value_name: "LOG",
            help: "The log",
            takes: Takes::Alone,
            default: None,
        },
    ],
};

/// What the first line of a log begins with that `fpgad_live` made.
const FIRST: &[u8] = b"# fpgad_live ";

/// The log, and the options of the service that it is of.
#[derive(Clone, Copy)]
pub struct LogWishes<'a> {
    pub(crate) arch: &'a str,
    pub(crate) options: Options,
    pub(crate) log: &'a str,
}

/// What the options ask for, or why they are refused.
pub fn wishes_of<'a>(given: &Given<'a>) -> Result<LogWishes<'a>, &'static str>
    ensures asked { IfOk result (IsAskedFor given.now) }
    ensures refused { OnErr result ((wishes : LogWishes) → IsAskedFor given.now wishes → ⊥) }
{
    let tracks = given.number("tracks")?;
    let columns = given.number("columns")?;
    let rows = given.number("rows")?;
    let memory = given.number("tenant-memory")?;
    let sizes = Options::new(tracks, columns, rows).ok_or(NO_DEVICE)?;
    Ok(LogWishes {
        arch: given.text("arch").ok_or(NO_FILE)?,
        options: sizes.with_tenant_memory(memory).ok_or(NO_LIMIT)?,
        log: given.text("log").ok_or(NO_FILE)?,
    })
}

/// Prints the shorter log.
pub fn run<F: FileTexts + AllocGlobal, W: Sink, E: Sink>(
    files: &F,
    wishes: LogWishes<'_>,
    writer: &mut W,
    teller: &mut E,
) -> Result<(), Outcome>
    ensures printed { OnOk result ((text : List ℕ) × TakesAll W.contents W.has_failed writer.old
        writer.new text × IsPrintOf (F.text files.now) wishes.entry text) }
    ensures failed { IfErr result (IsUnprinted (F.fails files.now) (F.text files.now)
        (W.has_failed writer.new) wishes.entry) }
{
    let most = MAX_TEXT as u64 + 1;
    let arch = files.read_text(FileRole::Architecture, wishes.arch, most, teller)?;
    let log = files.read_text(FileRole::Log, wishes.log, u64::MAX, teller)?;
    print(files.alloc(), wishes, &arch, &log, writer, teller)
}

/// Prints the shorter log of that log's whole lines.
fn print<W: Sink, E: Sink>(
    alloc: Global,
    wishes: LogWishes<'_>,
    arch: &[u8],
    log: &[u8],
    writer: &mut W,
    teller: &mut E,
) -> Result<(), Outcome>
    ensures printed { OnOk result ((text : List ℕ) × TakesAll W.contents W.has_failed writer.old
        writer.new text × IsShortened wishes.entry.options arch.now log.now text) }
    ensures failed { IfErr result (IsRefusal wishes.entry.options arch.now log.now
        (W.has_failed writer.new)) }
{
    let options = wishes.options;
    let log = &log[..whole_part(log)];
    if log.starts_with(FIRST) && !begins_so(alloc, options, arch, log)? {
        let _ = write_all(teller, b"log: its first line names other options\n");
        return Err(Outcome::LogDiffers);
    }
    match read_arch(alloc, arch, options.tracks) {
        Ok(arch) => print_checked(alloc, options, arch, log, writer, teller),
        Err(ArchError::NoMemory) => Err(Outcome::NoMemory),
        Err(ArchError::Fault(fault)) => {
            let _ = write_arch_fault(teller, wishes.arch, fault);
            Err(Outcome::ArchRefused(fault))
        }
    }
}

/// Returns whether a log begins with the line that names the options and the architecture.
fn begins_so(alloc: Global, options: Options, arch: &[u8], log: &[u8]) -> Result<bool, Outcome>
    ensures begins { IfOk result (λ begins.
        begins ≡ starts_with eqb log.now (heading options arch.now)) }
    ensures failed { IfErr result (λ outcome. outcome ≡ NoMemory) }
{
    match first_line(alloc, &options, arch) {
        Ok(first) => Ok(log.starts_with(first.as_slice())),
        Err(_) => Err(Outcome::NoMemory),
    }
}
