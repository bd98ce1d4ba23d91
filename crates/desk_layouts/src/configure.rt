//! The tool that writes what a device is loaded with.
ghost use Rattle.std.specs.Prelude.{◌≡◌, ℕ, List, Ok, IfErr, IfOk, OnErr};
ghost use Rattle.std.specs.Option.{ForSome};
ghost use Rattle.desk_layouts.specs.Prelude.{IsFileFailure, IsCircuit, IsStripSize, IsImplemented, JoinedLine, lines_of, TakesAll};
ghost use Rattle.desk_layouts.specs.Asked.{IsConfigureAskedFor};
ghost use Rattle.desk_layouts.specs.Configured.{IsConfigurationOf, IsConfigured, IsUnwritten, IsUnwrittenOr, Works, text_with};
ghost use Rattle.desk_layouts.specs.Refused.{IsFailure};

use crate::given_files::GivenFiles;
use crate::laid_circuit::circuit_in;
use crate::layout_input::{COLUMNS, LayoutPaths, NETLIST, PACKING, PLACES, ROUTES, ROWS, paths_of};
use circuit_verilog::verilog_text;
use configuration::{laws_of_configurations, values_are_rows};
use configuration_text::{Design, Unwritten, write_configuration};
use desk_common::{ARCH, DEVICE, FileRole, FileTexts, GIVEN_TRACKS, Outcome};
use layout_verdict::LaidCircuit;
use line_text::{Lines, MAX_TEXT, Sink, logical_lines};
use option_words::{Given, OptionWord, Program, Takes};

/// The tool and its options.
pub const TOOL: Program = Program {
    name: "configure",
    about: "Prints what a device is loaded with so that it runs a netlist, from the three files of its layout",
    after_help: "\
It first checks the layout as `fpgad_desk check` does; if the files don't implement the netlist, it prints nothing, and standard error
says what is wrong. docs/FORMATS.md says what the lines mean. With --verilog F what the device then computes is written to the file F
as a Verilog module with the netlist's inputs and outputs, to be simulated.

Example: fpgad_desk configure --arch my.arch --tracks 8 t.blif t.net t.place t.route > t.configuration",
    options: &[
        ARCH,
        GIVEN_TRACKS,
        COLUMNS,
        ROWS,
        DEVICE,
        OptionWord {
            name: "verilog",
            value_name: "F",
            help: "Also writes what the device then computes to the file F, as a Verilog module",
            takes: Takes::Text,
            default: None,
        },
        NETLIST,
        PACKING,
        PLACES,
        ROUTES,
    ],
};

/// Whose configuration is wanted, and the file for its Verilog, if that is wanted too.
#[derive(Clone, Copy)]
pub struct ConfigureWishes<'a> {
    pub(crate) paths: LayoutPaths<'a>,
    verilog: Option<&'a str>,
}

/// What the options ask for, or why they are refused.
pub fn wishes_of<'a>(given: &Given<'a>) -> Result<ConfigureWishes<'a>, &'static str>
    ensures asked { IfOk result (IsConfigureAskedFor given.now) }
    ensures refused { OnErr result ((wishes : ConfigureWishes) →
        IsConfigureAskedFor given.now wishes → ⊥) }
{
    let paths = paths_of(given)?;
    Ok(ConfigureWishes {
        paths,
        verilog: given.text("verilog"),
    })
}

/// Checks a layout against its netlist, and prints its configuration if it implements the netlist.
/// Before that its Verilog is written, if it is wanted.
pub fn run<F: FileTexts + AllocGlobal, W: Sink, E: Sink>(
    files: &F,
    wishes: ConfigureWishes<'_>,
    writer: &mut W,
    teller: &mut E,
) -> Result<(), Outcome>
    ensures printed { IfOk result (λ _. (text : List ℕ)
        × IsConfigured (F.text files.now) wishes.entry.paths text
        × TakesAll W.contents W.has_failed writer.old writer.new text) }
    ensures failed { IfErr result (IsFailure (F.fails files.now)
        (ForSome wishes.entry.verilog (λ path. F.fails files.now path.now)) (F.text files.now)
        (W.has_failed writer.new) wishes.entry.paths) }
{
    let given = GivenFiles::read(files, wishes.paths, teller)?;
    print_checked(files, wishes, &given, writer, teller)
}

/// Prints the configuration of the layout whose files have these bytes, if it implements the
/// netlist.
fn print_checked<F: FileTexts + AllocGlobal, W: Sink, E: Sink>(
    files: &F,
    wishes: ConfigureWishes<'_>,
    given: &GivenFiles,
    writer: &mut W,
    teller: &mut E,
) -> Result<(), Outcome>
    ensures printed { IfOk result (λ _. (text : List ℕ)
        × IsConfigurationOf wishes.entry.paths given.now text
        × TakesAll W.contents W.has_failed writer.old writer.new text) }
    ensures failed { IfErr result (IsUnwrittenOr
        (ForSome wishes.entry.verilog (λ path. F.fails files.now path.now))
        (W.has_failed writer.new) wishes.entry.paths given.now) }
{
    let laid = circuit_in(files.alloc(), wishes.paths, given, teller)?;
    let netlist = given.netlist.as_slice();
    print_laid(files, wishes.verilog, netlist, &laid, writer, teller)
}

/// Prints the configuration of the layout. `netlist` is the text that the circuit was read from.
fn print_laid<F: FileTexts + AllocGlobal, W: Sink, E: Sink>(
    files: &F,
    verilog: Option<&str>,
    netlist: &[u8],
    laid: &LaidCircuit,
    writer: &mut W,
    teller: &mut E,
) -> Result<(), Outcome>
    requires implemented { IsImplemented laid.now }
    requires circuit { IsCircuit laid.now.circuit }
    requires strip { IsStripSize laid.now.strip }
    ensures printed { IfOk result (λ _. (lines : List JoinedLine)
        × (lines_of netlist.now ≡ Ok lines) × Works lines laid.now
        × TakesAll W.contents W.has_failed writer.old writer.new (text_with lines laid.now)) }
    ensures failed { IfErr result (IsUnwritten
        (ForSome verilog.entry (λ path. F.fails files.now path.now)) (W.has_failed writer.new)) }
{
    laws_of_configurations();
    values_are_rows();
    if netlist.len() > MAX_TEXT {
        return Err(Outcome::NoMemory);
    }
    match logical_lines(files.alloc(), netlist) {
        Ok(lines) => print_lines(files, verilog, &lines, laid, writer, teller),
        Err(_) => Err(Outcome::NoMemory),
    }
}

/// Prints the configuration of the layout of the circuit with these lines.
fn print_lines<F: FileTexts + AllocGlobal, W: Sink, E: Sink>(
    files: &F,
    verilog: Option<&str>,
    lines: &Lines<'_>,
    laid: &LaidCircuit,
    writer: &mut W,
    teller: &mut E,
) -> Result<(), Outcome>
    ensures printed { IfOk result (λ _. TakesAll W.contents W.has_failed writer.old writer.new
        (text_with lines.now laid.now)) }
    ensures failed { IfErr result (IsUnwritten
        (ForSome verilog.entry (λ path. F.fails files.now path.now)) (W.has_failed writer.new)) }
{
    let design = Design {
        netlist: lines,
        circuit: &laid.circuit,
        arch: &laid.arch,
        strip: laid.strip,
        layout: &laid.layout,
    };
    if let Some(path) = verilog {
        save_verilog(files, path, design, teller)?;
    }
    match write_configuration(files.alloc(), design, writer) {
        Ok(()) => Ok(()),
        Err(Unwritten::NoMemory) => Err(Outcome::NoMemory),
        Err(Unwritten::SinkFailed) => Err(Outcome::OutputFailed),
    }
}

/// Writes the Verilog of a device that is configured by the design's layout into a file.
fn save_verilog<F: FileTexts + AllocGlobal, E: Sink>(
    files: &F,
    path: &str,
    design: Design<'_>,
    teller: &mut E,
) -> Result<(), Outcome>
    ensures { IfErr result (IsFileFailure FileRole.Verilog (F.fails files.now path.now)) }
{
    match verilog_text(files.alloc(), design) {
        Ok(text) => { files.write_text(FileRole::Verilog, path, text.as_slice(), teller) }
        Err(_) => Err(Outcome::NoMemory),
    }
}
