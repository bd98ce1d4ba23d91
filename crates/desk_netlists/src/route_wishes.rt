//! What the tool that routes one netlist is asked for, and its options.
ghost use Rattle.std.specs.Prelude.{◌≡◌, ◌≤◌, IfNone, IfSome};
ghost use Rattle.desk_netlists.specs.Prelude.{MAX_EFFORT, IsWithin, MAX_TRACKS, MAX_COLUMNS, MAX_ROWS};

use desk_common::{ARCH, DEVICE, EFFORT, FOLDER, GIVEN_TRACKS, SEED};
use grid::{MAX_COLUMNS, MAX_ROWS};
use option_words::{OptionWord, Program, Takes};

/// The tool and its options.
pub const TOOL: Program = Program {
    name: "route",
    about: "Packs, places and routes one netlist on a device of its own, and writes its .net, .place and .route files to a folder",
    after_help: "\
The files are the ones that the service prints for this netlist in a strip of this size, on any device and beside any other tenants.
At the end, a summary says how much of the device they use, and what sets its size if that is not given. With --progress, or if standard error
is a terminal, each step prints a line there. With --svg, --page and --configuration a picture, a page and the configuration of what
was routed are written too.

Example: fpgad_desk route --arch my.arch --tracks 8 --columns 10 --rows 10 --effort 100 t.blif results",
    options: &[
        ARCH,
        GIVEN_TRACKS,
        OptionWord {
            name: "least-tracks",
            value_name: "",
            help: "Tries 1 track, then 2, and so on, until the netlist can be routed",
            takes: Takes::Nothing,
            default: None,
        },
        OptionWord {
            name: "columns",
            value_name: "NX",
            help: "Columns of the device, 1 to 256; without it the least number that fits, and without --rows too the least square",
            takes: Takes::Number(1, 256),
            default: None,
        },
        OptionWord {
            name: "rows",
            value_name: "NY",
            help: "Rows of the device, 1 to 64; without it the least number that fits",
            takes: Takes::Number(1, 64),
            default: None,
        },
        OptionWord {
            name: "least-columns",
            value_name: "",
            help: "Takes the least number of columns that fits, with --rows NY",
            takes: Takes::Nothing,
            default: None,
        },
        DEVICE,
        SEED,
        EFFORT,
        OptionWord {
            name: "pins",
            value_name: "FILE",
            help: "Puts inputs and outputs on the pads in FILE, a line `NAME COLUMN ROW PAD` for each; the service puts them elsewhere",
            takes: Takes::Text,
            default: None,
        },
        OptionWord {
            name: "csv",
            value_name: "",
            help: "Prints the summary as a table: a line of headings, and a line of numbers",
            takes: Takes::Nothing,
            default: None,
        },
        OptionWord {
            name: "json",
            value_name: "",
            help: "Prints the summary as one JSON object, with the stops of the longest path (docs/SERVICE.md names its members)",
            takes: Takes::Nothing,
            default: None,
        },
        OptionWord {
            name: "path",
            value_name: "",
            help: "Prints the longest path stop by stop, with the wires between, each table's block and each pad's place",
            takes: Takes::Nothing,
            default: None,
        },
        OptionWord {
            name: "svg",
            value_name: "",
            help: "Also writes a picture of the routed netlist, as NETLIST's name and .svg",
            takes: Takes::Nothing,
            default: None,
        },
        OptionWord {
            name: "page",
            value_name: "",
            help: "Also writes a page for a browser with the routed netlist and its longest path, as NETLIST's name and .html",
            takes: Takes::Nothing,
            default: None,
        },
        OptionWord {
            name: "configuration",
            value_name: "",
            help: "Checks the files as `fpgad_desk check` does, and also writes what the device is loaded with, as NETLIST's name and .configuration",
            takes: Takes::Nothing,
            default: None,
        },
        OptionWord {
            name: "check",
            value_name: "",
            help: "Checks the files as `fpgad_desk check` does, and prints `implements`",
            takes: Takes::Nothing,
            default: None,
        },
        OptionWord {
            name: "progress",
            value_name: "",
            help: "Prints a line for each step on standard error, even if it is not a terminal",
            takes: Takes::Nothing,
            default: None,
        },
        OptionWord {
            name: "netlist",
            value_name: "NETLIST",
            help: "The netlist, in BLIF; the files are named after it",
            takes: Takes::Alone,
            default: None,
        },
        FOLDER,
    ],
};

/// A number of tracks, 1 to 64.
#[derive(Clone, Copy)]
pub(crate) struct Tracks {
    pub(crate) number: u32,
    ghost lawful: { (1 ≤ number) × (number ≤ MAX_TRACKS) },
}

/// What is routed, on which device, and the folder for the files.
#[derive(Clone, Copy)]
pub struct RouteWishes<'a> {
    pub(crate) arch: &'a str,
    pub(crate) netlist: &'a str,
    pub(crate) folder: &'a str,
    /// None: the least number with which the netlist is routed.
    pub(crate) tracks: Option<Tracks>,
    pub(crate) size: Size,
    pub(crate) seed: u64,
    pub(crate) effort: u32,
    /// The pin file, if pads have given places.
    pub(crate) pins: Option<&'a str>,
    /// Whether a line for each step is written in any case.
    pub(crate) is_told: bool,
    pub(crate) form: RouteForm,
    pub(crate) extras: Extras,
    ghost effort_lawful: { effort ≤ MAX_EFFORT },
}

/// The form of the summary.
#[derive(Clone, Copy)]
pub(crate) enum RouteForm {
    /// Lines for a reader.
    Lines,
    /// The same, with the stops of the longest path.
    Path,
    /// A table.
    Table,
    /// One object for a program.
    Json,
}

/// What is made of the three files.
#[derive(Clone, Copy)]
pub(crate) struct Extras {
    /// Whether a picture is written.
    pub(crate) has_picture: bool,
    /// Whether a page for a browser is written.
    pub(crate) has_page: bool,
    /// Whether the configuration is written.
    pub(crate) has_configuration: bool,
    /// Whether it is printed that the files implement the netlist.
    pub(crate) has_verdict: bool,
}

/// The size of the device.
#[derive(Clone, Copy)]
pub(crate) enum Size {
    Given(GivenSize),
    /// The least square on which the netlist fits.
    LeastSquare,
    /// The least number of columns with that number of rows.
    LeastColumns(u32),
    /// The least number of rows with that number of columns.
    LeastRows(u32),
}

/// The columns and rows of a device.
#[derive(Clone, Copy)]
pub(crate) struct GivenSize {
    pub(crate) columns: u32,
    pub(crate) rows: u32,
    ghost columns_lawful: { (1 ≤ columns) × (columns ≤ MAX_COLUMNS) },
    ghost rows_lawful: { (1 ≤ rows) × (rows ≤ MAX_ROWS) },
}

/// That size, if a device may have it.
pub(crate) fn device_size(columns: u32, rows: u32) -> Option<GivenSize>
    ensures some { IfSome result (λ size. (size.columns ≡ columns) × (size.rows ≡ rows)) }
    ensures none { IfNone result (IsWithin 1 columns MAX_COLUMNS × IsWithin 1 rows MAX_ROWS → ⊥) }
{
    if !(1..=MAX_COLUMNS).contains(&columns) || !(1..=MAX_ROWS).contains(&rows) {
        return None;
    }
    Some(GivenSize { columns, rows })
}
