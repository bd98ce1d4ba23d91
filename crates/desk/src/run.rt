//! Runs errands.
ghost use Rattle.line_text.specs.Writing.{Writes};
ghost use Rattle.desk.specs.Ends.{IsEndOf, IsHelpEnd, IsScriptEnd, versions_text};

use crate::errand::{Errand, read_errand};
use crate::tools::print_tools;
use clap::Error;
use clap::error::ErrorKind;
use desk_circuits::warn_of_netlist;
use desk_common::{
    DeviceOption, FileRole, FileTexts, Folders, MAX_DEVICE_READ, Outcome, device_options,
    device_path, read_file, with_device,
};
use desk_layouts::{check, configure, strip};
use desk_netlists::{random, route, script};
use desk_replies::{files, page_tool, picture, report};
use line_text::{Failed, Sink, Source, read_all, write_all};
use live_run::RESULTS_VERSION;
use std::alloc::Global;
use std::convert::AsStr;
use std::rt::Files;
use tenancy_script::ScriptParameters;
use text_parts::{Part, write_parts};

/// What a program reads and writes besides files.
#[derive(Drop)]
pub struct Streams<'a, R: Source, W: Sink, E: Sink> {
    pub reader: &'a mut R,
    pub writer: &'a mut W,
    /// Progress goes here, and why something is refused.
    pub teller: &'a mut E,
    /// Whether that is a terminal: then progress is written without being asked for.
    pub is_terminal: bool,
    /// What the programs were built from, for their versions; empty if that is not known.
    pub built_from: &'a str,
}

/// Does what a program's words ask, the first being its name. Help and the version are printed to
/// the writer. An error is clap's: the words are refused.
pub fn run_words<H: Files + AllocGlobal, S: AsStr, R: Source, W: Sink, E: Sink>(
    rt: &H,
    words: &[S],
    streams: Streams<'_, R, W, E>,
) -> Result<Outcome, Error> {
    if let Some(path) = device_path(words) {
        return run_on_device(rt, words, path, streams);
    }
    run_plain(rt, words, streams)
}

/// Does what the words ask, with the options in the device file of that path.
fn run_on_device<H: Files + AllocGlobal, S: AsStr, R: Source, W: Sink, E: Sink>(
    rt: &H,
    words: &[S],
    path: &str,
    streams: Streams<'_, R, W, E>,
) -> Result<Outcome, Error> {
    match read_file(rt, FileRole::Device, path, MAX_DEVICE_READ, streams.teller) {
        Ok(text) => { run_with_text(rt, words, path, text.as_slice(), streams) }
        Err(outcome) => Ok(outcome),
    }
}

/// Does what the words ask, with the options in that text of the device file of that path.
fn run_with_text<H: Files + AllocGlobal, S: AsStr, R: Source, W: Sink, E: Sink>(
    rt: &H,
    words: &[S],
    path: &str,
    text: &[u8],
    streams: Streams<'_, R, W, E>,
) -> Result<Outcome, Error> {
    match device_options(rt.alloc(), path, text, streams.teller) {
        Ok(options) => { run_with_options(rt, words, options.as_slice(), streams) }
        Err(outcome) => Ok(outcome),
    }
}

/// Does what the words ask, with those options of a device file.
fn run_with_options<H: Files + AllocGlobal, S: AsStr, R: Source, W: Sink, E: Sink>(
    rt: &H,
    words: &[S],
    options: &[DeviceOption<'_>],
    streams: Streams<'_, R, W, E>,
) -> Result<Outcome, Error> {
    match with_device(rt.alloc(), words, options) {
        Ok(all) => { run_plain(rt, all.as_slice(), streams) }
        Err(_) => Ok(Outcome::NoMemory),
    }
}

/// Does what the words ask, without a device file.
fn run_plain<H: Files + AllocGlobal, S: AsStr, R: Source, W: Sink, E: Sink>(
    rt: &H,
    words: &[S],
    streams: Streams<'_, R, W, E>,
) -> Result<Outcome, Error> {
    let name = words.first().map_or("", |word| word.as_str());
    let asked = words.get(1).map_or("", |word| word.as_str());
    let tool = words.get(2).map_or("--help", |word| word.as_str());
    let Streams {
        reader,
        writer,
        teller,
        is_terminal,
        built_from,
    } = streams;
    match asked {
        "help" if words.len() < 4 => {
            let words = [name, tool, "--help"];
            run_read(rt, &words, reader, writer, teller, is_terminal)
        }
        "--version" | "-V" if words.len() == 2 => {
            let written = write_versions(writer, built_from);
            Ok(Outcome::of_writing(written))
        }
        _ => run_read(rt, words, reader, writer, teller, is_terminal),
    }
}

/// Writes the versions of the three programs, a line each.
fn write_versions<W: Sink>(writer: &mut W, built_from: &str) -> Result<(), Failed>
    ensures { Writes W.contents W.has_failed writer.old writer.new (versions_text built_from.now)
        result }
{
    write_parts(
        writer,
        &[
            Part::Text("fpgad_desk 1.0"),
            Part::Text(built_from),
            Part::Text("\nfpgad 1.0"),
            Part::Text(built_from),
            Part::Text("\nfpgad_live "),
            Part::Number(RESULTS_VERSION),
            Part::Text(built_from),
            Part::Text("\n"),
        ],
    )
}

/// Reads the words and does what they ask. Help is printed to the writer.
fn run_read<H: Files + AllocGlobal, S: AsStr, R: Source, W: Sink, E: Sink>(
    rt: &H,
    words: &[S],
    reader: &mut R,
    writer: &mut W,
    teller: &mut E,
    is_terminal: bool,
) -> Result<Outcome, Error> {
    match read_errand(rt.alloc(), words) {
        Ok(errand) => Ok(run(rt, errand, reader, writer, teller, is_terminal)),
        Err(error) if error.kind() == ErrorKind::OutOfMemory => Ok(Outcome::NoMemory),
        Err(error) if error.kind() == ErrorKind::DisplayHelp => {
            Ok(print_help(rt.alloc(), error, writer))
        }
        Err(error) => Err(error),
    }
}

/// Writes the help.
fn write_help<W: Sink>(writer: &mut W, text: &str) -> Result<(), Failed>
    ensures { Writes W.contents W.has_failed writer.old writer.new text.now result }
{
    write_all(writer, text.as_bytes())
}

/// Prints the help, and returns how the errand ended.
fn print_help<W: Sink>(alloc: Global, help: Error, writer: &mut W) -> Outcome
    ensures { IsHelpEnd W.contents W.has_failed writer.old writer.new result }
{
    match help.to_string(alloc) {
        Ok(text) => {
            let written = write_help(writer, text.as_str());
            drop(text);
            Outcome::of_writing(written)
        }
        Err(_) => Outcome::NoMemory,
    }
}

/// Runs an errand.
fn run<H: Files + AllocGlobal, R: Source, W: Sink, E: Sink>(
    rt: &H,
    errand: Errand<'_>,
    reader: &mut R,
    writer: &mut W,
    teller: &mut E,
    is_terminal: bool,
) -> Outcome
    ensures { IsEndOf W.contents W.has_failed writer.old writer.new (R.remaining reader.old)
        (⟦<H as FileTexts>⟧.text rt.now) (⟦<H as FileTexts>⟧.fails rt.now) errand.entry result }
{
    let mut folders = Folders::new(rt);
    match errand {
        Errand::Script(wishes) => print_script(rt.alloc(), wishes, reader, writer, teller),
        Errand::Files(wishes) => {
            let refused = files::run(rt, &mut folders, wishes, reader, writer, teller);
            Outcome::of_lines(refused)
        }
        Errand::Route(wishes) => {
            let done = route::run(rt, &mut folders, wishes, writer, teller, is_terminal);
            Outcome::of(done)
        }
        Errand::Check(paths) => Outcome::of(check::run(rt, paths, writer, teller)),
        Errand::Configure(wishes) => Outcome::of(configure::run(rt, wishes, writer, teller)),
        Errand::Strip(wishes) => Outcome::of(strip::print(rt, wishes, writer, teller)),
        Errand::Picture(size) => picture::run(rt.alloc(), size, reader, writer),
        Errand::Report(wishes) => Outcome::of(report::run(rt, wishes, reader, writer, teller)),
        Errand::Page(wishes) => Outcome::of(page_tool::run(rt, wishes, reader, writer, teller)),
        Errand::Random(wishes) => random::print(wishes, writer),
        Errand::Log(wishes) => Outcome::of(desk_log::run(rt, wishes, writer, teller)),
        Errand::Tools(form) => print_tools(form, writer),
    }
}

/// Prints the script of a tenancy with the netlist that is read.
fn print_script<R: Source, W: Sink, E: Sink>(
    alloc: Global,
    wishes: ScriptParameters<'_>,
    reader: &mut R,
    writer: &mut W,
    teller: &mut E,
) -> Outcome
    ensures { IsScriptEnd W.contents W.has_failed writer.old writer.new (R.remaining reader.old)
        wishes.entry result }
{
    match read_all(alloc, reader) {
        Ok(text) => {
            let outcome = script::print(wishes, text.as_slice(), writer);
            if let Outcome::Done = outcome {
                warn_of_netlist(alloc, text.as_slice(), teller);
            }
            outcome
        }
        Err(error) => Outcome::of_reading(error),
    }
}
