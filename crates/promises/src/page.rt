//! The promises.
ghost use Rattle.std.specs.Prelude.{◌≡◌, ◌≤◌, true};
ghost use Rattle.promises.specs.Prelude.{AreOwnJournals, AreParted, EachIsAlone, IsBook, HasOneOwner, RunsOnThreads, Writes, AreUntouched, Parts as Script, RunReplies, IsOneRun, calls_of, IsServedOnThreads, Device, HasWaitedText};
ghost use Rattle.promises.specs.Promises.{EndsAsDecided, OfEachRun};

use crate::either::run;
use fpgad_run::{Architecture, Options, Outcome};
use line_text::{Sink, Source};
use script_threads::one_run;
use service_core::headline;
use std::alloc::AllocGlobal;
use std::sync::Wait;
use std::thread::Threads;
use std::time::Clock;
use wires_law::no_switch_joins;
use workers_law::same_with_workers;

/// Serves a script, and writes the replies. Each clause is a promise. Beside it is the number of
/// lines of definitions that one reads to believe it: 2145 lines in all.
///
/// A run is a list of calls of the core, each with its answer, from the empty device to a state.
/// Jobs may be out in it for any time, and be put in any order.
///
/// With workers these clauses hold if it returns. Without them it calls [`serve_in_order`], which
/// is proved to return if the reader and the writer do.
///
/// [`serve_in_order`]: crate::serve_in_order
pub fn serve<H: Threads + Wait + Clock + AllocGlobal + Sync, R: Source, W: Sink>(
    rt: &H,
    options: &Options,
    architecture: Architecture<'_>,
    reader: &mut R,
    writer: &mut W,
) -> Outcome
    // 1. Its end has a name: the first fault of the architecture, or else of the script, decides
    // it. No index, sum or cast goes wrong (the compiler sees to that). (507 lines)
    ensures ends { EndsAsDecided options.now architecture.entry (R.remaining reader.old) result }
    // 2. If it ends because a file, the input or the output failed, that is so. (0 lines)
    ensures unreadable { architecture.entry ≡ Architecture.Unreadable →
        result ≡ Outcome.ArchUnreadable }
    ensures input { result ≡ Outcome.InputFailed → R.has_failed reader.new ≡ true }
    ensures output { result ≡ Outcome.OutputFailed → W.has_failed writer.new ≡ true }
    // 3. What is written is the text of a run: each line of the script makes its calls, and is
    // answered by what they return. A device that fails has taken a beginning of it. (1896 lines)
    ensures written { options.now.workers ≡ 0 →
        Writes options.now architecture.entry (R.remaining reader.old) result
        (W.contents writer.old) (W.contents writer.new) }
    // 4. Each tenancy is alone: its replies and its state are those that the service for a single
    // user gives for its own events, on a device of just its strip's size. A call for which memory
    // runs out is no event, and changes nothing. (1188 lines)
    ensures alone { OfEachRun EachIsAlone }
    // 5. Each journal is its tenancy's own events with their replies. (1179 lines)
    ensures journals { OfEachRun (λ device. AreOwnJournals) }
    // 6. The strips are on the device, and between two of them a column is unused. (1171 lines)
    ensures parted { OfEachRun (λ device calls. AreParted device) }
    // 7. The book is exact: a tenancy owns just what its own events have routed, where its strip is
    // now. (1187 lines)
    ensures book { OfEachRun IsBook }
    // 8. No wire, pin or pad has two owners. (1169 lines)
    ensures one_owner { OfEachRun (λ device calls. HasOneOwner) }
    // 9. No switch of the device joins what two tenancies own. (1172 lines)
    ensures untouched { OfEachRun (λ device calls. AreUntouched device) }
    // 10. With workers, what is written is what the sessions and the operator are answered by the
    // calls of all threads together. (1946 lines)
    ensures with_workers { 1 ≤ options.now.workers →
        RunsOnThreads options.now architecture.entry (R.remaining reader.old) result
        (W.contents writer.old) (W.contents writer.new) }
    // 11. With workers too, the calls of all threads and lines together are one run, of which 4 to
    // 8 hold; and so does 9. (1607 lines)
    ensures as_one_run { (device : Device) (script : Script) (answered : RunReplies)
        (is : IsServedOnThreads device script answered) → IsOneRun device (calls_of is) is.last }
    // 12. More workers never change what you are answered: if a session waits for each of its jobs,
    // and no reply to it says that memory ran out or that its journal is full, its text is one
    // function of its input. (1594 lines)
    ensures same_with_workers { HasWaitedText }
{
    headline();
    no_switch_joins();
    one_run();
    same_with_workers();
    run(rt, options, architecture, reader, writer)
}
