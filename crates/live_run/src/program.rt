//! A command line, run over any connection.
ghost use Rattle.std.specs.Prelude.{◌≡◌, ◌≢◌, IfErr, false};
ghost use Rattle.live_run.specs.Commands.{RunsLine};

use crate::beginning::first_line;
use crate::kept_log::{KeptLog, open_log};
use crate::log_lines::LogLines;
use crate::log_lock::LockLog;
use crate::options::CommandLine;
use crate::outcome::Outcome;
use crate::serving::serve;
use dialogue::{Connection, Dialogue, FileLog};
use line_text::{MAX_TEXT, ReadError, Sink, Source, StdSource, read_all};
use std::fs::File;
use std::io::{Eprint, Read};
use std::rt::Files;
use std::sync::Wait;

/// Serves the lines of a connection without workers, as the command line says: reads the
/// architecture's file and the log, if there is one. The connection must have no log yet. With
/// [`Outcome::Done`] all lines are answered, and all replies are written.
pub fn run_line<H: Files + Wait + AllocGlobal + Eprint, R: Source + Drop, W: Sink + Drop>(
    rt: &H,
    line: &CommandLine<'_>,
    connection: &mut Connection<R, W, FileLog<H::File>>,
) -> Outcome
where
    H::File: LockLog,
    requires { (⟦<Connection<R, W, FileLog<H::File>> as Dialogue>⟧.view connection.old).has_log
        ≡ false }
    ensures { RunsLine line.now (⟦<Connection<R, W, FileLog<H::File>> as Dialogue>⟧.view connection.old)
        (⟦<Connection<R, W, FileLog<H::File>> as Dialogue>⟧.view connection.new) result }
{
    let text = match read_architecture(rt, line.arch) {
        Ok(text) => text,
        Err(ReadError::Failed) => return Outcome::ArchUnreadable,
        Err(ReadError::NoMemory) => return Outcome::NoMemory,
    };
    match line.log {
        None => {
            let none: Option<LogLines<'_, H, H::File>> = None;
            serve(rt, line, text.as_slice(), none, connection)
        }
        Some(path) => match log_at(rt, line, path, text.as_slice()) {
            Ok(KeptLog { past, log }) => {
                connection.keep_on(log);
                serve(rt, line, text.as_slice(), Some(past), connection)
            }
            Err(outcome) => outcome,
        },
    }
}

/// Opens the log at that path, of these options and that architecture. A new log gets its first
/// line, an old one the sum of its lines. A log that another service has locked is followed, if the
/// command line says so.
pub fn log_at<'h, H: Files + Wait + AllocGlobal>(
    rt: &'h H,
    line: &CommandLine<'_>,
    path: &str,
    architecture: &[u8],
) -> Result<KeptLog<'h, H, H::File>, Outcome>
where
    H::File: LockLog,
    ensures { IfErr result (λ outcome. outcome ≢ Outcome.Done) }
{
    match first_line(rt.alloc(), &line.options, architecture) {
        Ok(first) => open_log(rt, path, first.as_slice(), line.follows),
        Err(_) => Err(Outcome::NoMemory),
    }
}

/// The text of the architecture's file. Of a file that is longer than a text may be, the first byte
/// above that is the last that is read: it is refused whatever else it holds.
pub fn read_architecture<H: Files + AllocGlobal>(rt: &H, path: &str) -> Result<Vec<u8>, ReadError> {
    match File::open(rt, path) {
        Ok(file) => read_all(
            rt.alloc(),
            &mut StdSource::new(file.take(MAX_TEXT as u64 + 1)),
        ),
        Err(_) => Err(ReadError::Failed),
    }
}
