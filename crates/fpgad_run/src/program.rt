//! The program over a reader and a writer.
ghost use Rattle.std.specs.Prelude.{◌≡◌, ◌≤◌, true, IfSome};
ghost use Rattle.fpgad_run.specs.Commands.{RunsInOrder, RunsOnThreads};
ghost use Rattle.fpgad_run.specs.Ends.{EndsWith, IsInput, ending};
ghost use Rattle.fpgad_run.specs.Program.{Decides, Writes, start_of};

use crate::inputs::Architecture;
use crate::options::Options;
use crate::outcome::Outcome;
use crate::{in_order, on_threads};
use line_text::{Failed, ReadError, Sink, Source, read_all};
use script_text::RunReplies;
use std::alloc::{AllocGlobal, Global};
use std::sync::Wait;
use std::thread::Threads;
use std::time::Clock;

/// Runs a script: reads it whole, checks it whole, serves it in order, and writes the replies. If
/// memory runs out for the program's own tables, or the script or the architecture is refused,
/// nothing is written.
pub fn run_script<R: Source, W: Sink>(
    alloc: Global,
    options: &Options,
    architecture: Architecture<'_>,
    reader: &mut R,
    writer: &mut W,
) -> Outcome
    // What the text decides, if the reader says what is left.
    ensures decided { IfSome (R.remaining reader.old)
        (λ input. Decides (start_of options.now.tracks architecture.entry input) result) }
    // What is written, and that nothing else is.
    ensures written { Writes options.now architecture.entry (R.remaining reader.old) result
        (W.contents writer.old) (W.contents writer.new) }
    ensures unreadable { architecture.entry ≡ Architecture.Unreadable →
        result ≡ Outcome.ArchUnreadable }
    ensures input { result ≡ Outcome.InputFailed → R.has_failed reader.new ≡ true }
    ensures output { result ≡ Outcome.OutputFailed → W.has_failed writer.new ≡ true }
    ensures settled { result ≡ Outcome.NotSettled → ⊥ }
{
    match read_input(alloc, architecture, reader) {
        Ok(input) => {
            let replies = in_order::replies(alloc, options, architecture, input.as_slice());
            write_replies(writer, replies)
        }
        Err(outcome) => outcome,
    }
}

/// Runs a script beside as many workers as the options say, at least one: reads and checks it as
/// [`run_script`] does, and serves the sessions on threads of their own.
pub fn run_on_threads<H: Threads + Wait + Clock + AllocGlobal + Sync, R: Source, W: Sink>(
    rt: &H,
    options: &Options,
    architecture: Architecture<'_>,
    reader: &mut R,
    writer: &mut W,
) -> Outcome
    requires { 1 ≤ options.now.workers }
    ensures runs { RunsOnThreads options.now architecture.entry (R.remaining reader.old) result
        (W.contents writer.old) (W.contents writer.new) }
    ensures unreadable { architecture.entry ≡ Architecture.Unreadable →
        result ≡ Outcome.ArchUnreadable }
    ensures input { result ≡ Outcome.InputFailed → R.has_failed reader.new ≡ true }
    ensures output { result ≡ Outcome.OutputFailed → W.has_failed writer.new ≡ true }
{
    match read_input(rt.alloc(), architecture, reader) {
        Ok(input) => {
            let replies = on_threads::replies(rt, options, architecture, input.as_slice());
            write_replies(writer, replies)
        }
        Err(outcome) => outcome,
    }
}

/// Reads the whole input, unless the architecture can't be read.
fn read_input<R: Source>(
    alloc: Global,
    architecture: Architecture<'_>,
    reader: &mut R,
) -> Result<Vec<u8>, Outcome>
    ensures { IsInput architecture.entry (R.remaining reader.old) result (R.has_failed reader.new) }
{
    if matches!(&architecture, Architecture::Unreadable) {
        return Err(Outcome::ArchUnreadable);
    }
    match read_all(alloc, reader) {
        Ok(input) => Ok(input),
        Err(ReadError::Failed) => Err(Outcome::InputFailed),
        Err(ReadError::NoMemory) => Err(Outcome::NoMemory),
    }
}

/// Writes the answers to a script, if there are any.
fn write_replies<W: Sink>(writer: &mut W, replies: Result<RunReplies<'_>, Outcome>) -> Outcome
    ensures { EndsWith replies.entry result (W.contents writer.old) (W.contents writer.new)
        (W.has_failed writer.new) }
{
    match replies {
        Ok(replies) => end(replies.write_to(writer)),
        Err(outcome) => outcome,
    }
}

/// How a run ends whose writing ended so.
fn end(written: Result<(), Failed>) -> Outcome
    ensures { result ≡ ending written }
{
    match written {
        Ok(()) => Outcome::Done,
        Err(_) => Outcome::OutputFailed,
    }
}
