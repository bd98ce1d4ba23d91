//! Reads the program's words to an errand.
ghost use Rattle.std.specs.Prelude.{IfOk, OnErr};
ghost use Rattle.desk.specs.Errands.{IsErrandOf};

use crate::tools::{COMPLETION, MANUAL, ToolsForm, shell_of};
use clap::Error;
use desk_layouts::{LayoutPaths, check, configure, paths_of, strip};
use desk_netlists::{random, route_options, route_wishes, script};
use desk_replies::{files, page_tool, picture, report, size_of};
use device_lines::DeviceSize;
use option_words::{Call, Program, Toolbox, call_refusal, read_call};
use std::alloc::Global;
use std::convert::AsStr;
use tenancy_script::ScriptParameters;

/// The beginning of the program's help.
const ABOUT: &str = "Tools for fpgad: they write its scripts and read its output";

/// The end of the program's help.
const AFTER_HELP: &str = "\
Each tool has its own help: fpgad_desk TOOL --help, or fpgad_desk help TOOL. The versions: fpgad_desk --version

Status: 0 done; 1 a file could not be read or written, `files` found a refused line, or `check` or `configure` found that the files do not implement the netlist; 2 the command line is wrong; 3 the input is wrong (standard error names the line); 4 out of memory

Example: fpgad_desk script --name T --width 2 < t.blif | fpgad --arch my.arch --tracks 8 --columns 10 --rows 10";

/// A tool without its options, for the program's help.
macro_rules! named {
    ($tool:expr) => {
        Program {
            after_help: "",
            options: &[],
            ..$tool
        }
    };
}

/// All tools, for the program's help; those that another toolbox has have no options here.
pub(crate) const TOOLBOX: Toolbox = Toolbox {
    name: "fpgad_desk",
    about: ABOUT,
    after_help: AFTER_HELP,
    tools: &[
        script::TOOL,
        files::TOOL,
        named!(route_wishes::TOOL),
        named!(check::TOOL),
        named!(configure::TOOL),
        named!(strip::TOOL),
        named!(picture::TOOL),
        named!(report::TOOL),
        named!(page_tool::TOOL),
        random::TOOL,
        desk_log::TOOL,
        COMPLETION,
        MANUAL,
    ],
};

/// The tools whose options the whole toolbox has.
pub(crate) const OTHERS: &[Program] = &[
    script::TOOL,
    files::TOOL,
    random::TOOL,
    desk_log::TOOL,
    COMPLETION,
    MANUAL,
];

/// The tools that draw or report, with their options.
pub(crate) const VIEWS: Toolbox = Toolbox {
    name: "fpgad_desk",
    about: ABOUT,
    after_help: AFTER_HELP,
    tools: &[strip::TOOL, picture::TOOL, report::TOOL, page_tool::TOOL],
};

/// The tool that routes, with its options.
pub(crate) const ROUTES: Toolbox = Toolbox {
    name: "fpgad_desk",
    about: ABOUT,
    after_help: AFTER_HELP,
    tools: &[route_wishes::TOOL],
};

/// The tools that read a layout and its netlist, with their options.
pub(crate) const LAYOUTS: Toolbox = Toolbox {
    name: "fpgad_desk",
    about: ABOUT,
    after_help: AFTER_HELP,
    tools: &[check::TOOL, configure::TOOL],
};

/// Why the name of a tool is refused that the desk doesn't have.
const NO_TOOL: &str = "unknown tool";

/// What is asked of the desk.
#[derive(Clone, Copy)]
pub(crate) enum Errand<'a> {
    /// The script of a tenancy.
    Script(ScriptParameters<'a>),
    /// The files of a script.
    Files(files::FilesWishes<'a>),
    /// A netlist on a device of its own.
    Route(route_wishes::RouteWishes<'a>),
    /// A layout against its netlist.
    Check(LayoutPaths<'a>),
    /// The configuration of a layout.
    Configure(configure::ConfigureWishes<'a>),
    /// A picture of a tenancy.
    Strip(strip::StripWishes<'a>),
    /// A picture of a device of that size.
    Picture(DeviceSize),
    /// How full a device is.
    Report(report::ReportWishes<'a>),
    /// A page of a script and what was printed for it.
    Page(page_tool::PageWishes<'a>),
    /// A script with random circuits.
    Random(random::RandomWishes),
    /// A shorter log of a live service.
    Log(desk_log::LogWishes<'a>),
    /// The names of the tools and their options, for a shell or for the manual.
    Tools(ToolsForm),
}

/// What these words ask, the first being the program's name. An error is clap's; a request for help
/// is one.
pub(crate) fn read_errand<'a, S: AsStr>(
    alloc: Global,
    words: &'a [S],
) -> Result<Errand<'a>, Error> {
    match words.get(1).map_or("", |word| word.as_str()) {
        "strip" | "picture" | "report" | "page" => read_view(alloc, words),
        "check" | "configure" => read_layout_errand(alloc, words),
        "route" => read_route(alloc, words),
        _ => read_other(alloc, words),
    }
}

/// What words ask that call a tool that draws or reports.
fn read_view<'a, S: AsStr>(alloc: Global, words: &'a [S]) -> Result<Errand<'a>, Error> {
    errand_by(alloc, &VIEWS, words)
}

/// What words ask that call a tool which reads a layout.
fn read_layout_errand<'a, S: AsStr>(alloc: Global, words: &'a [S]) -> Result<Errand<'a>, Error> {
    errand_by(alloc, &LAYOUTS, words)
}

/// What words ask that call the tool which routes.
fn read_route<'a, S: AsStr>(alloc: Global, words: &'a [S]) -> Result<Errand<'a>, Error> {
    errand_by(alloc, &ROUTES, words)
}

/// What other words ask.
fn read_other<'a, S: AsStr>(alloc: Global, words: &'a [S]) -> Result<Errand<'a>, Error> {
    errand_by(alloc, &TOOLBOX, words)
}

/// What these words ask, read by this toolbox.
fn errand_by<'a, S: AsStr>(
    alloc: Global,
    toolbox: &Toolbox,
    words: &'a [S],
) -> Result<Errand<'a>, Error> {
    let call = read_call(alloc, toolbox, words)?;
    match errand_of(&call) {
        Ok(errand) => Ok(errand),
        Err(why) => Err(call_refusal(alloc, toolbox, &call.tool, why)),
    }
}

/// What a call asks, or why it is refused.
fn errand_of<'a>(call: &Call<'a>) -> Result<Errand<'a>, &'static str>
    ensures asked { IfOk result (IsErrandOf call.now.tool.name.now call.now.given) }
    ensures refused { OnErr result ((errand : Errand) →
        IsErrandOf call.now.tool.name.now call.now.given errand → ⊥) }
{
    match call.tool.name {
        "script" => Ok(Errand::Script(script::wishes_of(&call.given)?)),
        "files" => Ok(Errand::Files(files::wishes_of(&call.given)?)),
        "route" => Ok(Errand::Route(route_options::wishes_of(&call.given)?)),
        "check" => Ok(Errand::Check(paths_of(&call.given)?)),
        "configure" => Ok(Errand::Configure(configure::wishes_of(&call.given)?)),
        "strip" => Ok(Errand::Strip(strip::wishes_of(&call.given)?)),
        "picture" => Ok(Errand::Picture(size_of(&call.given)?)),
        "report" => Ok(Errand::Report(report::wishes_of(&call.given)?)),
        "page" => Ok(Errand::Page(page_tool::wishes_of(&call.given)?)),
        "random" => Ok(Errand::Random(random::wishes_of(&call.given)?)),
        "log" => Ok(Errand::Log(desk_log::wishes_of(&call.given)?)),
        "completion" => Ok(Errand::Tools(shell_of(&call.given)?)),
        "man" => Ok(Errand::Tools(ToolsForm::Manual)),
        _ => Err(NO_TOOL),
    }
}
