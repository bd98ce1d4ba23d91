//! The program: stands between one client, whose connection is standard input and output, and a
//! live service. What the client says is handed over with its tag.
//!
//! Statuses: 0; 1 if a file or the client failed; 2 if the words are refused; 4 if memory runs out.
#![tactic(auto)]

use front_lines::FrontStop;
use front_run::{Outcome, run_words};
use line_text::{StdSink, StdSource};
use std::fmt::Display;
use std::io::ErrorKind;
use std::process::ExitCode;
use std::{env, io};

fn main(rt: HostRuntime) -> ExitCode {
    let words = match words(&rt) {
        Ok(words) => words,
        Err(error) if error.kind() == ErrorKind::OutOfMemory => {
            return report_outcome(&rt, Outcome::Stopped(FrontStop::NoMemory));
        }
        Err(_) => return report_refusal(&rt, "error: an argument is not valid UTF-8\n"),
    };
    let reader = StdSource::new(rt.reader());
    let writer = StdSink::new(io::writer(&rt));
    match run_words(&rt, words.as_slice(), reader, writer) {
        Ok(outcome) => report_outcome(&rt, outcome),
        Err(error) => report_refusal(&rt, error),
    }
}

/// The words that the program was called with, the first being its name.
fn words(rt: &HostRuntime) -> io::Result<Vec<String>> {
    Ok(env::args(rt)?.collect(rt.alloc())?)
}

/// Writes a message to standard error, if that can be written, and returns the status.
fn report_outcome(rt: &HostRuntime, outcome: Outcome) -> ExitCode {
    let status = outcome.status();
    if status != 0 {
        let _ = rt.eprintln(outcome);
    }
    ExitCode::from(status)
}

/// Writes to standard error why the words are refused.
fn report_refusal<M: Display + Drop>(rt: &HostRuntime, message: M) -> ExitCode {
    let _ = rt.eprint(message);
    ExitCode::from(2)
}
