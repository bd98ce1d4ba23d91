//! The program: a place-and-route service for one shared FPGA, over a script on standard input.
#![tactic(auto)]

use line_text::{StdSink, StdSource};
use promises::run_program;
use std::process::ExitCode;
use std::{env, io};

fn main(rt: HostRuntime) -> ExitCode {
    let mut reader = StdSource::new(rt.reader());
    let mut writer = StdSink::new(io::writer(&rt));
    run_program(&rt, words(&rt), &mut reader, &mut writer)
}

/// The words that the program was called with, the first being its name.
fn words(rt: &HostRuntime) -> io::Result<Vec<String>> {
    Ok(env::args(rt)?.collect(rt.alloc())?)
}
