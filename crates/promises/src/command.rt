//! A command line, and what it runs.
ghost use Rattle.promises.specs.Commands.{Runs, RunsWords};

use crate::given_architecture::GivenArchitecture;
use crate::in_order::run_in_order;
use crate::page::serve;
use clap::Error;
use clap::error::ErrorKind;
use fpgad_run::{CommandLine, Outcome, read_options};
use line_text::{Sink, Source};
use std::convert::AsStr;
use std::rt::Files;
use std::sync::Wait;
use std::thread::Threads;
use std::time::Clock;

/// What the program does with its words, the first being its name: reads the options, the
/// architecture's file if there is one, and the script, and serves it. An error is clap's: the
/// option line is refused, or asks for help.
pub fn run_words<
    H: Files + Threads + Wait + Clock + AllocGlobal + Sync,
    S: AsStr,
    R: Source,
    W: Sink,
>(rt: &H, words: &[S], reader: &mut R, writer: &mut W) -> Result<Outcome, Error>
    ensures { RunsWords (R.remaining reader.old) result (W.contents writer.old)
        (W.contents writer.new) }
{
    match read_options(rt.alloc(), words) {
        Ok(line) => Ok(run_line(rt, &line, reader, writer)),
        Err(error) if error.kind() == ErrorKind::OutOfMemory => Ok(Outcome::NoMemory),
        Err(error) => Err(error),
    }
}

/// Runs a script as the command line says. Without workers it calls [`run_in_order`].
pub fn run_line<H: Files + Threads + Wait + Clock + AllocGlobal + Sync, R: Source, W: Sink>(
    rt: &H,
    line: &CommandLine<'_>,
    reader: &mut R,
    writer: &mut W,
) -> Outcome
    ensures { Runs line.now (R.remaining reader.old) result (W.contents writer.old)
        (W.contents writer.new) }
{
    if line.options.workers == 0 {
        return run_in_order(rt, line, reader, writer);
    }
    match GivenArchitecture::read(rt, line.arch) {
        Ok(given) => {
            let outcome = serve(rt, &line.options, given.architecture(), reader, writer);
            drop(given);
            outcome
        }
        Err(_) => Outcome::NoMemory,
    }
}
