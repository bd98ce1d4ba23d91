//! The program: tools beside the service, each called by its name. `fpgad_desk help` lists them.
//!
//! Statuses: 0; 1 if a file, standard input or standard output failed, `files` found a refused
//! line, or `check` does not accept its files; 2 if the words are refused; 3 if the input is, with
//! its line; 4 if memory runs out. Help and the version go to standard output. With 2 and 3 nothing
//! else is written there. If standard output is a pipe that nobody reads any more, the status is 1
//! without a message.
#![tactic(auto)]

mod built_from;

use built_from::BUILT_FROM;
use desk::{Outcome, Streams, run_words};
use line_text::{StdSink, StdSource};
use std::env::{Env, FillError};
use std::fmt::{self, Display};
use std::io::{BufWriter, ErrorKind, IsTerminal, Write};
use std::process::ExitCode;
use std::{env, io};

fn main(rt: HostRuntime) -> ExitCode {
    let words = match words(&rt) {
        Ok(words) => words,
        Err(error) if error.kind() == ErrorKind::OutOfMemory => {
            return report_outcome(&rt, Outcome::NoMemory);
        }
        Err(_) => return report_refusal(&rt, BadWord(first_bad_word(&rt))),
    };
    let Ok(buffer) = BufWriter::new(rt.alloc(), io::writer(&rt)) else {
        return report_outcome(&rt, Outcome::NoMemory);
    };
    let mut reader = StdSource::new(rt.reader());
    let mut writer = StdSink::new(buffer);
    let mut teller = StdSink::new(rt.stderr());
    let streams = Streams {
        reader: &mut reader,
        writer: &mut writer,
        teller: &mut teller,
        is_terminal: rt.stderr().is_terminal(),
        built_from: BUILT_FROM,
    };
    let outcome = run_words(&rt, words.as_slice(), streams);
    let flushed = writer.into_writer().flush();
    match outcome {
        Ok(Outcome::Done | Outcome::OutputFailed) if is_unread(&flushed) => ExitCode::from(1),
        Ok(Outcome::Done) if flushed.is_err() => report_outcome(&rt, Outcome::OutputFailed),
        Ok(outcome) => report_outcome(&rt, outcome),
        Err(error) => report_refusal(&rt, error),
    }
}

/// The words that the program was called with, the first being its name.
fn words(rt: &HostRuntime) -> io::Result<Vec<String>> {
    Ok(env::args(rt)?.collect(rt.alloc())?)
}

/// Whether a flush failed since nobody reads the pipe any more.
fn is_unread(flushed: &io::Result<()>) -> bool {
    match flushed {
        Ok(()) => false,
        Err(error) => error.kind() == ErrorKind::BrokenPipe,
    }
}

/// The longest word that is looked at to find the one that is not UTF-8, in bytes.
const MAX_WORD: usize = 4096;

/// Why the words are refused: that word is not UTF-8. The program's name is word 0.
#[derive(Drop)]
struct BadWord(Option<usize>);

impl fmt::Display for BadWord {
    fn fmt<W: fmt::Write>(&self, f: &mut fmt::Formatter<W>) -> fmt::Result {
        match self.0 {
            Some(number) => write!(f, "error: argument {} is not valid UTF-8\n", number),
            None => write!(f, "error: an argument is not valid UTF-8\n"),
        }
    }
}

/// The number of the first word that is not UTF-8. `None` if each word is too long or is UTF-8.
fn first_bad_word(rt: &HostRuntime) -> Option<usize> {
    let mut bytes = [0u8; MAX_WORD];
    for number in 0..usize::MAX {
        match rt.arg(number, &mut bytes) {
            Ok(length) if str::from_utf8(&bytes[..length]).is_err() => return Some(number),
            Ok(_) | Err(FillError::TooLong) => {}
            Err(FillError::NotPresent) => return None,
        }
    }
    None
}

/// Writes the errand's message to standard error, if that can be written, and returns its status.
fn report_outcome(rt: &HostRuntime, outcome: Outcome) -> ExitCode {
    let status = outcome.status();
    if status != 0 {
        let _ = rt.eprintln(outcome);
    }
    ExitCode::from(status)
}

/// Writes to standard error why the words are refused.
fn report_refusal<M: Display + Drop>(rt: &HostRuntime, message: M) -> ExitCode {
    let _ = rt.eprint(message);
    ExitCode::from(2)
}
