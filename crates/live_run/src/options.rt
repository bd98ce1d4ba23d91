//! The command line.
ghost use Rattle.std.specs.Prelude.{◌≡◌, ◌≤◌, ◌*◌, IfSome, IfNone};
ghost use Rattle.live_run.specs.Prelude.{MAX_TRACKS, MAX_COLUMNS, MAX_ROWS};
ghost use Rattle.live_run.specs.declared.options.TheConstants.{MAX_TENANT_MEMORY};

use arch_file::{Arch, MAX_TRACKS};
use grid::{MAX_COLUMNS, MAX_ROWS};
use option_words::{OptionWord, Program, Takes};
use service_core::Device;

/// The version of what lines are answered, which `fpgad_live --version` prints. It is raised
/// whenever the same options and the same lines would be answered by other bytes.
pub const RESULTS_VERSION: u32 = 2;

/// What follows the options in the help.
const HELP: &str = "\
A line of input is a request; NAME is 1 to 32 letters, digits and `_`:
  op admit NAME WIDTH | evict NAME | move NAME OFFSET | list | owners | end
  op echo WORDS | figures
  op step NAME N | take NAME | put JOB, without workers
  @NAME upload | change, then lines `@NAME ..` with a BLIF netlist, and a line `@NAME .`
  @NAME pack | place SEED EFFORT | route | wait | cancel | withdraw
  @NAME status | net | placefile | routefile
  # a comment
Each line of a reply begins with `op` or `@NAME`; `? N` says that line N has no form.

Status: 0 served, 1 the architecture or a device failed, 2 the options are refused,
  4 memory ran out

fpgad_live --version prints the version of what lines are answered.

Example: fpgad_live --arch my.arch --tracks 8 --columns 20 --rows 10 --log day.log
All of it: docs/LIVE.md";

/// The program for its options.
pub(crate) const PROGRAM: Program = Program {
    name: "fpgad_live",
    about: "Place and route for one shared FPGA: answers each line of standard input as it comes",
    after_help: HELP,
    options: &[
        OptionWord {
            name: "arch",
            value_name: "FILE",
            help: "The architecture; it must be given",
            takes: Takes::Text,
            default: None,
        },
        OptionWord {
            name: "tracks",
            value_name: "W",
            help: "Tracks of each channel, 1 to 64",
            takes: Takes::Number(1, 64),
            default: Some("2"),
        },
        OptionWord {
            name: "columns",
            value_name: "NX",
            help: "Columns of the device, 1 to 256",
            takes: Takes::Number(1, 256),
            default: Some("9"),
        },
        OptionWord {
            name: "rows",
            value_name: "NY",
            help: "Rows of the device, 1 to 64",
            takes: Takes::Number(1, 64),
            default: Some("1"),
        },
        OptionWord {
            name: "workers",
            value_name: "K",
            help: "Threads that make the jobs' steps; 0, each step is made by a wait or an op step",
            takes: Takes::Number(0, 16),
            default: Some("0"),
        },
        OptionWord {
            name: "tenant-memory",
            value_name: "MIB",
            help: "MiB of texts that one tenancy's journal may hold, 1 to 1048576",
            takes: Takes::Number(1, MAX_TENANT_MEMORY),
            default: Some("256"),
        },
        OptionWord {
            name: "log",
            value_name: "FILE",
            help: "Keeps the input in FILE before it is answered, and goes on from it at the start",
            takes: Takes::Text,
            default: None,
        },
        OptionWord {
            name: "told",
            value_name: "N",
            help: "At a start, writes the replies to the log's lines after line N again",
            takes: Takes::Long,
            default: None,
        },
        OptionWord {
            name: "follow",
            value_name: "",
            help: "If another service uses the log, follows it, and goes on when that one ends",
            takes: Takes::Nothing,
            default: None,
        },
        OptionWord {
            name: "ready",
            value_name: "",
            help: "Writes `ready` to standard error once the log is read and lines are answered",
            takes: Takes::Nothing,
            default: None,
        },
    ],
};

/// The greatest limit of the texts of a journal, in MiB.
const MAX_TENANT_MEMORY: u32 = 1_048_576;

/// The limit that a live service has if none is given, in MiB.
pub(crate) const TENANT_MEMORY: u32 = 256;

/// The bytes of a MiB.
const MIB: u64 = 1_048_576;

/// The size of the device and of its channels, and of what a tenancy's journal may hold, within
/// their limits.
#[derive(Clone, Copy)]
pub struct Options {
    /// Tracks of each channel, 1 to 64.
    pub tracks: u32,
    /// Columns of the device, 1 to 256.
    pub columns: u32,
    /// Rows of the device, 1 to 64.
    pub rows: u32,
    /// MiB of texts that one tenancy's journal may hold, 1 to 1,048,576.
    pub tenant_memory: u32,
    ghost tracks_lawful: { (1 ≤ tracks) × (tracks ≤ MAX_TRACKS) },
    ghost columns_lawful: { (1 ≤ columns) × (columns ≤ MAX_COLUMNS) },
    ghost rows_lawful: { (1 ≤ rows) × (rows ≤ MAX_ROWS) },
    ghost tenant_memory_lawful: { (1 ≤ tenant_memory) × (tenant_memory ≤ MAX_TENANT_MEMORY) },
}

impl Options {
    ghost use Rattle.live_run.specs.Limits.{AreLawful, Holds, device_of};

    /// Options of those sizes; a journal may hold 256 MiB. None if a number is beyond its limits.
    pub fn new(tracks: u32, columns: u32, rows: u32) -> Option<Self>
        ensures some { IfSome result (λ options. Holds options tracks columns rows) }
        ensures none { IfNone result (AreLawful tracks columns rows → ⊥) }
    {
        if tracks < 1
            || tracks > MAX_TRACKS
            || columns < 1
            || columns > MAX_COLUMNS
            || rows < 1
            || rows > MAX_ROWS
        {
            return None;
        }
        Some(Options {
            tracks,
            columns,
            rows,
            tenant_memory: TENANT_MEMORY,
        })
    }

    /// The options with this memory for the texts of a journal, in MiB. None if it is beyond its
    /// limits.
    pub fn with_tenant_memory(self, mib: u32) -> Option<Self>
        ensures some { IfSome result (λ options. (options.tenant_memory ≡ mib)
            × Holds options self.tracks self.columns self.rows) }
        ensures none { IfNone result ((1 ≤ mib) × (mib ≤ MAX_TENANT_MEMORY) → ⊥) }
    {
        if mib < 1 || mib > MAX_TENANT_MEMORY {
            return None;
        }
        Some(Options {
            tracks: self.tracks,
            columns: self.columns,
            rows: self.rows,
            tenant_memory: mib,
        })
    }

    /// The most bytes of texts that one tenancy's journal may hold.
    pub fn text_limit(&self) -> u64
        ensures { result ≡ self.now.tenant_memory * MIB }
    {
        u64::from(self.tenant_memory) * MIB
    }

    /// The device of these sizes and of that architecture, with that limit.
    pub fn device(&self, arch: Arch) -> Device
        ensures { result ≡ device_of self.now arch }
    {
        Device {
            arch,
            columns: self.columns,
            rows: self.rows,
            text_limit: self.text_limit(),
        }
    }
}

/// A command line: the options, the path of the architecture's file, the path of the log if there
/// is one, and the number of workers.
#[derive(Clone, Copy)]
pub struct CommandLine<'a> {
    pub options: Options,
    pub arch: &'a str,
    pub log: Option<&'a str>,
    /// The number of a line of the log. At a start the replies to the lines after it are written.
    pub told: Option<u64>,
    /// 0 to 16.
    pub workers: u32,
    /// Whether the service says when it is ready.
    pub ready: bool,
    /// Whether it follows a log that another service still writes, and goes on when that one ends.
    pub follows: bool,
}
