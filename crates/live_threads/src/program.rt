//! The program, with workers or without.
ghost use Rattle.std.specs.Prelude.{◌≡◌, ◌⊎◌, IfOk, option_map};
ghost use Rattle.std.specs.Process.{exit_status};
ghost use Rattle.live_threads.specs.Prelude.{NoMemory, status_of};
ghost use Rattle.live_threads.specs.Endings.{IsProgramEnd, IsProgramRun, run_status};

use crate::outlet::{Devices, Outlet};
use crate::running::RunEnd;
use crate::threaded::run_threads;
use clap::Error;
use clap::error::ErrorKind;
use dialogue::{Connection, Dialogue, FileLog};
use line_text::{Sink, Source};
use live_run::{CommandLine, LockLog, Outcome, read_options, run_line};
use std::convert::AsStr;
use std::fmt::Display;
use std::io;
use std::process::ExitCode;
use std::rt::Files;
use std::sync::Wait;
use std::thread::Threads;
use std::time::Clock;

/// What the program leaves at its end.
#[derive(Drop)]
pub struct ProgramEnd<C, D> {
    pub status: ExitCode,
    /// The connection as it was left. With workers there is none.
    pub connection: Option<C>,
    /// With workers, the log and the output as they were left, if the service began.
    pub devices: Option<D>,
}

/// What a run of the program's words leaves.
#[derive(Drop)]
pub struct ProgramRun<C, D> {
    /// How it ended. An error is clap's: the words are refused, or ask for help.
    pub outcome: Result<Outcome, Error>,
    /// The connection as it was left. With workers there is none.
    pub connection: Option<C>,
    /// With workers, the log and the output as they were left, if the service began.
    pub devices: Option<D>,
}

/// The program: serves the lines of a reader as the words say, the first being the program's name.
/// The status is 2 if the words are refused. Messages go to standard error, if that can be
/// written.
pub fn run_program<
    H: Files + Threads + Wait + Clock + AllocGlobal + Eprint + Sync,
    S: Source + Drop,
    W: Sink + Drop + Send,
>(
    rt: &H,
    words: io::Result<Vec<String>>,
    reader: S,
    writer: W,
) -> ProgramEnd<Connection<S, W, FileLog<H::File>>, Devices<W, FileLog<H::File>>>
where
    H::File: LockLog + Send,
    ensures { IsProgramEnd (S.remaining reader) (W.contents writer)
        (option_map (⟦<Connection<S, W, FileLog<H::File>> as Dialogue>⟧.view) result.connection)
        (option_map (⟦<Devices<W, FileLog<H::File>> as Outlet>⟧.view) result.devices)
        (exit_status result.status) }
{
    match words {
        Ok(words) => run_called(rt, words.as_slice(), reader, writer),
        Err(error) => ProgramEnd {
            status: report_unread(rt, error),
            connection: Some(Connection::new(reader, writer)),
            devices: None,
        },
    }
}

/// Runs it with words that could be read.
fn run_called<
    H: Files + Threads + Wait + Clock + AllocGlobal + Eprint + Sync,
    S: Source + Drop,
    W: Sink + Drop + Send,
>(
    rt: &H,
    words: &[String],
    reader: S,
    writer: W,
) -> ProgramEnd<Connection<S, W, FileLog<H::File>>, Devices<W, FileLog<H::File>>>
where
    H::File: LockLog + Send,
    ensures { IsProgramEnd (S.remaining reader) (W.contents writer)
        (option_map (⟦<Connection<S, W, FileLog<H::File>> as Dialogue>⟧.view) result.connection)
        (option_map (⟦<Devices<W, FileLog<H::File>> as Outlet>⟧.view) result.devices)
        (exit_status result.status) }
{
    let ProgramRun {
        outcome,
        connection,
        devices,
    } = run_words(rt, words, reader, writer);
    ProgramEnd {
        status: report_run(rt, outcome),
        connection,
        devices,
    }
}

/// What the program does with its words, the first being its name: reads the options and the
/// architecture's file, and the log if there is one, and serves the lines of the reader, with
/// workers if the options ask for some.
pub fn run_words<
    H: Files + Threads + Wait + Clock + AllocGlobal + Eprint + Sync,
    T: AsStr,
    S: Source + Drop,
    W: Sink + Drop + Send,
>(
    rt: &H,
    words: &[T],
    reader: S,
    writer: W,
) -> ProgramRun<Connection<S, W, FileLog<H::File>>, Devices<W, FileLog<H::File>>>
where
    H::File: LockLog + Send,
    ensures { IsProgramRun (S.remaining reader) (W.contents writer)
        (option_map (⟦<Connection<S, W, FileLog<H::File>> as Dialogue>⟧.view) result.connection)
        (option_map (⟦<Devices<W, FileLog<H::File>> as Outlet>⟧.view) result.devices)
        result.outcome }
{
    match read_options(rt.alloc(), words) {
        Ok(line) if line.workers > 0 => with_workers(rt, &line, reader, writer),
        Ok(line) => run_alone(rt, &line, reader, writer),
        Err(error) => ProgramRun {
            outcome: refusal_of(error),
            connection: Some(Connection::new(reader, writer)),
            devices: None,
        },
    }
}

/// Words that are refused, unless memory ran out.
fn refusal_of(error: Error) -> Result<Outcome, Error>
    ensures { IfOk result (λ outcome. outcome ≡ NoMemory) }
{
    if error.kind() == ErrorKind::OutOfMemory {
        return Ok(Outcome::NoMemory);
    }
    Err(error)
}

/// Serves without workers as the command line says.
fn run_alone<H: Files + Wait + AllocGlobal + Eprint, S: Source + Drop, W: Sink + Drop>(
    rt: &H,
    line: &CommandLine<'_>,
    reader: S,
    writer: W,
) -> ProgramRun<Connection<S, W, FileLog<H::File>>, Devices<W, FileLog<H::File>>>
where
    H::File: LockLog + Send,
    ensures { IsProgramRun (S.remaining reader) (W.contents writer)
        (option_map (⟦<Connection<S, W, FileLog<H::File>> as Dialogue>⟧.view) result.connection)
        (option_map (⟦<Devices<W, FileLog<H::File>> as Outlet>⟧.view) result.devices)
        result.outcome }
{
    let mut connection = Connection::new(reader, writer);
    let outcome = run_line(rt, line, &mut connection);
    ProgramRun {
        outcome: Ok(outcome),
        connection: Some(connection),
        devices: None,
    }
}

/// Serves with workers as the command line says.
fn with_workers<
    H: Files + Threads + Wait + Clock + AllocGlobal + Eprint + Sync,
    S: Source + Drop,
    W: Sink + Drop + Send,
>(
    rt: &H,
    line: &CommandLine<'_>,
    reader: S,
    writer: W,
) -> ProgramRun<Connection<S, W, FileLog<H::File>>, Devices<W, FileLog<H::File>>>
where
    H::File: LockLog + Send,
    ensures { IsProgramRun (S.remaining reader) (W.contents writer)
        (option_map (⟦<Connection<S, W, FileLog<H::File>> as Dialogue>⟧.view) result.connection)
        (option_map (⟦<Devices<W, FileLog<H::File>> as Outlet>⟧.view) result.devices)
        result.outcome }
{
    let RunEnd { outcome, devices } = run_threads(rt, line, reader, writer);
    ProgramRun {
        outcome: Ok(outcome),
        connection: None,
        devices,
    }
}

/// Writes the last message of a run to standard error, and returns its status.
fn report_run<H: Eprint>(rt: &H, outcome: Result<Outcome, Error>) -> ExitCode
    ensures { exit_status result ≡ run_status outcome }
{
    match outcome {
        Ok(outcome) => report_outcome(rt, outcome),
        Err(error) => report_refusal(rt, error),
    }
}

/// Reports words that can't be read.
fn report_unread<H: Eprint>(rt: &H, error: io::Error) -> ExitCode
    ensures { (exit_status result ≡ 2) ⊎ (exit_status result ≡ status_of NoMemory) }
{
    if error.kind() == io::ErrorKind::OutOfMemory {
        return report_outcome(rt, Outcome::NoMemory);
    }
    report_refusal(rt, "error: an argument is no text\n")
}

/// Writes the message of how a run ended to standard error, and returns its status.
fn report_outcome<H: Eprint>(rt: &H, outcome: Outcome) -> ExitCode
    ensures { exit_status result ≡ status_of outcome }
{
    if outcome.status() != 0 {
        let _ = rt.eprintln(outcome);
    }
    ExitCode::from(outcome.status())
}

/// Writes why the words are refused to standard error, and returns status 2.
fn report_refusal<H: Eprint, M: Display + Drop>(rt: &H, message: M) -> ExitCode
    ensures { exit_status result ≡ 2 }
{
    let _ = rt.eprint(message);
    ExitCode::from(2)
}
