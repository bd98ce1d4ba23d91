//! The program without workers. Nothing here waits for other threads, so each function is proved to
//! return, if the reader and the writer that it is given do.
ghost use Rattle.std.specs.Prelude.{◌≡◌, true};
ghost use Rattle.promises.specs.Prelude.{RunsInOrder};
ghost use Rattle.promises.specs.Commands.{Runs};

use crate::given_architecture::GivenArchitecture;
use fpgad_run::{Architecture, CommandLine, Options, Outcome, run_script};
use line_text::{Sink, Source};
use std::alloc::{AllocGlobal, Global};
use std::rt::Files;

/// Serves a script without workers, and writes the replies, whatever the options say of workers. Of
/// what it writes holds what `serve` says of a run without workers.
pub fn serve_in_order<R: Source, W: Sink>(
    alloc: Global,
    options: &Options,
    architecture: Architecture<'_>,
    reader: &mut R,
    writer: &mut W,
) -> Outcome
    ensures runs { RunsInOrder options.now architecture.entry (R.remaining reader.old) result
        (W.contents writer.old) (W.contents writer.new) }
    ensures unreadable { architecture.entry ≡ Architecture.Unreadable →
        result ≡ Outcome.ArchUnreadable }
    ensures input { result ≡ Outcome.InputFailed → R.has_failed reader.new ≡ true }
    ensures output { result ≡ Outcome.OutputFailed → W.has_failed writer.new ≡ true }
{
    run_script(alloc, options, architecture, reader, writer)
}

/// Runs a script as a command line without workers says.
pub fn run_in_order<H: Files + AllocGlobal, R: Source, W: Sink>(
    rt: &H,
    line: &CommandLine<'_>,
    reader: &mut R,
    writer: &mut W,
) -> Outcome
    requires { line.now.options.workers ≡ 0 }
    ensures { Runs line.now (R.remaining reader.old) result (W.contents writer.old)
        (W.contents writer.new) }
{
    match GivenArchitecture::read(rt, line.arch) {
        Ok(given) => {
            let architecture = given.architecture();
            let outcome = serve_in_order(rt.alloc(), &line.options, architecture, reader, writer);
            drop(given);
            outcome
        }
        Err(_) => Outcome::NoMemory,
    }
}
