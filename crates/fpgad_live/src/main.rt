//! The program: a place-and-route service for one shared FPGA, that answers each line of standard
//! input as it comes.
#![tactic(auto)]

use ended_input::UntilEnd;
use line_text::{StdSink, StdSource};
use live_promises::{ProgramEnd, serve};
use live_run::{RESULTS_VERSION, WholeLines};
use std::fs::File;
use std::process::ExitCode;
use std::{env, io};

fn main(rt: HostRuntime) -> ExitCode {
    let words = words(&rt);
    if asks_version(&words) {
        drop(words);
        return write_version(&rt);
    }
    let streams = fill_streams(&rt);
    let reader = WholeLines::new(&rt, UntilEnd::new(StdSource::with_most_reads(rt.reader())));
    let writer = StdSink::new(io::writer(&rt));
    let ProgramEnd {
        status,
        connection,
        devices,
    } = serve(&rt, words, reader, writer);
    drop((connection, devices));
    drop(streams);
    status
}

/// Whether the words ask for the version, and for nothing else.
fn asks_version(words: &io::Result<Vec<String>>) -> bool {
    match words {
        Ok(words) => words.len() == 2 && words[1].as_str() == "--version",
        Err(_) => false,
    }
}

/// Writes the version. The status is 1 if that fails.
fn write_version(rt: &HostRuntime) -> ExitCode {
    match println!(rt; "fpgad_live {RESULTS_VERSION}") {
        Ok(()) => ExitCode::SUCCESS,
        Err(_) => ExitCode::from(1),
    }
}

/// Takes the numbers of the standard streams that are closed: else the log's file would get one of
/// them, and replies and messages would be written into it. A folder can be neither read nor
/// written, so what was closed fails.
fn fill_streams(rt: &HostRuntime) -> [io::Result<File>; 3] {
    [
        File::open(rt, "/"),
        File::open(rt, "/"),
        File::open(rt, "/"),
    ]
}

/// The words that the program was called with, the first being its name.
fn words(rt: &HostRuntime) -> io::Result<Vec<String>> {
    Ok(env::args(rt)?.collect(rt.alloc())?)
}
