ghost use Rattle.std.specs.Prelude.{◌≡◌, ◌≤◌, IfSome, IfNone};
ghost use Rattle.fpgad_run.specs.Prelude.{MAX_WORKERS, MAX_TRACKS, MAX_COLUMNS, MAX_ROWS};

use arch_file::{Arch, MAX_TRACKS};
use clap::Error;
use grid::{MAX_COLUMNS, MAX_ROWS};
use option_words::{Given, OptionWord, Program, Takes, read_words, refusal};
use service_core::{Device, NO_TEXT_LIMIT};
use std::alloc::Global;
use std::convert::AsStr;

/// What follows the options in the help.
const HELP: &str = "\
Lines of a script, in any order; NAME is 1 to 32 letters, digits and `_`:
  op admit NAME WIDTH | evict NAME | move NAME OFFSET | list | owners
  op step NAME N | take NAME | put JOB                     (without workers)
  @NAME upload | change, then a BLIF netlist and a line that is `.` alone
  @NAME pack | place SEED EFFORT | route | wait | cancel | withdraw
  @NAME status | net | placefile | routefile
  # a comment

Status: 0 served, 1 the architecture or a device failed, 2 the options are refused,
  3 the script has a fault, 4 memory ran out, 5 sessions and journals disagree

Example: fpgad --arch my.arch --tracks 8 --columns 20 --rows 10 < my.script
All of it: docs/SERVICE.md, the files docs/FORMATS.md, a first circuit docs/TUTORIAL.md";

/// The program for its options.
const PROGRAM: Program = Program {
    name: "fpgad",
    about: "Place and route for one shared FPGA: serves the script on standard input",
    after_help: HELP,
    options: &[
        OptionWord {
            name: "arch",
            value_name: "FILE",
            help: "The architecture; without it the script's lines up to a line that is `.` alone",
            takes: Takes::Text,
            default: None,
        },
        OptionWord {
            name: "tracks",
            value_name: "W",
            help: "Tracks of each channel, 1 to 64",
            takes: Takes::Number(1, 64),
            default: Some("2"),
        },
        OptionWord {
            name: "columns",
            value_name: "NX",
            help: "Columns of the device, 1 to 256",
            takes: Takes::Number(1, 256),
            default: Some("9"),
        },
        OptionWord {
            name: "rows",
            value_name: "NY",
            help: "Rows of the device, 1 to 64",
            takes: Takes::Number(1, 64),
            default: Some("1"),
        },
        OptionWord {
            name: "workers",
            value_name: "K",
            help: "Threads that make the jobs' steps, 0 to 16",
            takes: Takes::Number(0, 16),
            default: Some("0"),
        },
    ],
};

const BEYOND: &str = "a number is beyond its limits";

/// The size of the device and of its channels, and how many threads make the jobs' steps, within
/// their limits.
#[derive(Clone, Copy)]
pub struct Options {
    /// Tracks of each channel, 1 to 64.
    pub tracks: u32,
    /// Columns of the device, 1 to 256.
    pub columns: u32,
    /// Rows of the device, 1 to 64.
    pub rows: u32,
    /// Threads that make the jobs' steps, 0 to 16. With 0 a script is served in order.
    pub workers: u32,
    ghost tracks_lawful: { (1 ≤ tracks) × (tracks ≤ MAX_TRACKS) },
    ghost columns_lawful: { (1 ≤ columns) × (columns ≤ MAX_COLUMNS) },
    ghost rows_lawful: { (1 ≤ rows) × (rows ≤ MAX_ROWS) },
    ghost workers_lawful: { workers ≤ MAX_WORKERS },
}

impl Options {
    ghost use Rattle.fpgad_run.specs.Limits.{AreLawful, Holds};
    ghost use Rattle.fpgad_run.specs.Program.{device_of};

    /// Options of these numbers. None if one is not within its limits.
    pub fn new(tracks: u32, columns: u32, rows: u32, workers: u32) -> Option<Self>
        ensures some { IfSome result (λ options. Holds options tracks columns rows workers) }
        ensures none { IfNone result (AreLawful tracks columns rows workers → ⊥) }
    {
        if tracks < 1
            || tracks > MAX_TRACKS
            || columns < 1
            || columns > MAX_COLUMNS
            || rows < 1
            || rows > MAX_ROWS
        {
            return None;
        }
        if workers > 16 {
            return None;
        }
        Some(Options {
            tracks,
            columns,
            rows,
            workers,
        })
    }

    /// The device of these sizes and of that architecture.
    pub(crate) fn device(&self, arch: Arch) -> Device
        ensures { result ≡ device_of self.now arch }
    {
        Device {
            arch,
            columns: self.columns,
            rows: self.rows,
            text_limit: NO_TEXT_LIMIT,
        }
    }
}

/// A command line: the options, and the path of the architecture's file if it is in one.
#[derive(Clone, Copy)]
pub struct CommandLine<'a> {
    pub options: Options,
    pub arch: Option<&'a str>,
}

impl<'a> CommandLine<'a> {
    ghost use Rattle.std.specs.Prelude.{MatchResult};
    ghost use Rattle.fpgad_run.specs.CommandLines.{IsLineOf};
    ghost use Rattle.fpgad_run.specs.declared.options.CommandLine.{CommandLine};

    /// The command line that the options give, or why they are refused.
    fn of(given: &Given<'a>) -> Result<Self, &'static str>
        ensures { MatchResult result (IsLineOf given.now)
            (λ _. (line : CommandLine) → IsLineOf given.now line → ⊥) }
    {
        let tracks = given.number("tracks")?;
        let columns = given.number("columns")?;
        let rows = given.number("rows")?;
        let workers = given.number("workers")?;
        Ok(CommandLine {
            options: Options::new(tracks, columns, rows, workers).ok_or(BEYOND)?,
            arch: given.text("arch"),
        })
    }
}

/// The options that these words give, the first being the program's name. An error is clap's; a
/// request for help is one.
pub fn read_options<'a, S: AsStr>(alloc: Global, words: &'a [S]) -> Result<CommandLine<'a>, Error> {
    options_by(alloc, &PROGRAM, words)
}

/// The command line that these words give, read by the program that describes its options.
fn options_by<'a, S: AsStr>(
    alloc: Global,
    program: &Program,
    words: &'a [S],
) -> Result<CommandLine<'a>, Error> {
    let given = read_words(alloc, program, words)?;
    let line = CommandLine::of(&given);
    drop(given);
    match line {
        Ok(line) => Ok(line),
        Err(why) => Err(refusal(alloc, program, words, why)),
    }
}
