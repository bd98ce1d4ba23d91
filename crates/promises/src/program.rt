//! The program over any reader and writer.
ghost use Rattle.std.specs.Prelude.{◌≡◌};
ghost use Rattle.std.specs.Process.{exit_status};
ghost use Rattle.promises.specs.Prelude.{status_of};
ghost use Rattle.promises.specs.Commands.{Exits};

use crate::command::run_words;
use fpgad_run::Outcome;
use line_text::{Sink, Source};
use std::fmt::Display;
use std::io::{self, ErrorKind};
use std::process::ExitCode;
use std::rt::Files;
use std::sync::Wait;
use std::thread::Threads;
use std::time::Clock;

/// Serves the script of the reader as the words say, the first being the program's name, and
/// returns the status. Messages go to standard error, if that can be written. With status 0 all
/// replies are written.
pub fn run_program<
    H: Files + Threads + Wait + Clock + AllocGlobal + Eprint + Sync,
    R: Source,
    W: Sink,
>(rt: &H, words: io::Result<Vec<String>>, reader: &mut R, writer: &mut W) -> ExitCode
    ensures { Exits (R.remaining reader.old) (exit_status result) (W.contents writer.old)
        (W.contents writer.new) }
{
    match words {
        Ok(words) => run_called(rt, words.as_slice(), reader, writer),
        Err(error) if error.kind() == ErrorKind::OutOfMemory => report_outcome(
            rt,
            Outcome::NoMemory,
        ),
        Err(_) => report_refusal(rt, "error: an argument is no text\n"),
    }
}

/// Runs it with words that could be read.
fn run_called<H: Files + Threads + Wait + Clock + AllocGlobal + Eprint + Sync, R: Source, W: Sink>(
    rt: &H,
    words: &[String],
    reader: &mut R,
    writer: &mut W,
) -> ExitCode
    ensures { Exits (R.remaining reader.old) (exit_status result) (W.contents writer.old)
        (W.contents writer.new) }
{
    match run_words(rt, words, reader, writer) {
        Ok(outcome) => report_outcome(rt, outcome),
        Err(error) => report_refusal(rt, error),
    }
}

/// Writes the message of how the run ended to standard error, and returns its status.
fn report_outcome<H: Eprint>(rt: &H, outcome: Outcome) -> ExitCode
    ensures { exit_status result ≡ status_of outcome }
{
    if outcome.status() != 0 {
        let _ = rt.eprintln(outcome);
    }
    outcome.exit_code()
}

/// Writes why the words are refused to standard error, and returns status 2.
fn report_refusal<H: Eprint, M: Display + Drop>(rt: &H, message: M) -> ExitCode
    ensures { exit_status result ≡ 2 }
{
    let _ = rt.eprint(message);
    ExitCode::from(2)
}
