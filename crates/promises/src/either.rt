//! A run without workers, or beside them.
ghost use Rattle.std.specs.Prelude.{◌≡◌, ◌≤◌, true};
ghost use Rattle.promises.specs.Prelude.{RunsInOrder, RunsOnThreads};

use crate::in_order::serve_in_order;
use fpgad_run::{Architecture, Options, Outcome, run_on_threads};
use line_text::{Sink, Source};
use std::alloc::AllocGlobal;
use std::sync::Wait;
use std::thread::Threads;
use std::time::Clock;

/// Runs a script in order if the options have no workers, else beside the workers.
pub(crate) fn run<H: Threads + Wait + Clock + AllocGlobal + Sync, R: Source, W: Sink>(
    rt: &H,
    options: &Options,
    architecture: Architecture<'_>,
    reader: &mut R,
    writer: &mut W,
) -> Outcome
    ensures in_order { options.now.workers ≡ 0 →
        RunsInOrder options.now architecture.entry (R.remaining reader.old) result
        (W.contents writer.old) (W.contents writer.new) }
    ensures on_threads { 1 ≤ options.now.workers →
        RunsOnThreads options.now architecture.entry (R.remaining reader.old) result
        (W.contents writer.old) (W.contents writer.new) }
    ensures unreadable { architecture.entry ≡ Architecture.Unreadable →
        result ≡ Outcome.ArchUnreadable }
    ensures input { result ≡ Outcome.InputFailed → R.has_failed reader.new ≡ true }
    ensures output { result ≡ Outcome.OutputFailed → W.has_failed writer.new ≡ true }
{
    if options.workers == 0 {
        return serve_in_order(rt.alloc(), options, architecture, reader, writer);
    }
    run_on_threads(rt, options, architecture, reader, writer)
}
