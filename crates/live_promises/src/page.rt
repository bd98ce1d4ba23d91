//! The promises.
ghost use Rattle.std.specs.Prelude.{option_map};
ghost use Rattle.std.specs.Process.{exit_status};
ghost use Rattle.live_promises.specs.Page.{IsBackedAtEachMoment, IsOneDay, KeepsTenancies, OfAllCalls, OfEachDay};
ghost use Rattle.live_promises.specs.Told.{IsToldLive};
ghost use Rattle.live_promises.specs.Prelude.{IsProgramEnd};

use crate::law::live_promises;
use crate::moments::moments_promises;
use dialogue::{Connection, Dialogue, FileLog};
use line_text::{Sink, Source};
use live_machine::machine_law;
use live_run::LockLog;
use live_threads::{Devices, Outlet, ProgramEnd, run_program};
use std::io;
use std::rt::Files;
use std::sync::Wait;
use std::thread::Threads;
use std::time::Clock;

/// The program of a live service, with workers or without: serves the lines of a reader as the
/// words say, the first being the program's name. Each clause is a promise. Beside it is the number
/// of lines of definitions that one reads to believe it: 2673 lines in all.
///
/// A day is lines that are answered one after another. With workers a run is calls of one machine:
/// lines of the input, turns of names that wait, steps that workers made, and what is drained to be
/// kept and written.
pub fn serve<
    H: Files + Threads + Wait + Clock + AllocGlobal + Eprint + Sync,
    S: Source + Drop,
    W: Sink + Drop + Send,
>(
    rt: &H,
    words: io::Result<Vec<String>>,
    reader: S,
    writer: W,
) -> ProgramEnd<Connection<S, W, FileLog<H::File>>, Devices<W, FileLog<H::File>>>
where
    H::File: LockLog + Send,
    // 1. If it returns, its end has a name, and the status is that of the name. With status 0 all
    // lines of the input were served, all that this gives was kept and written, and no name waits;
    // else that is so of a beginning. It begins where the lines lead that are read of its log.
    // (2477 lines)
    ensures run { IsProgramEnd (S.remaining reader) (W.contents writer)
        (option_map (⟦<Connection<S, W, FileLog<H::File>> as Dialogue>⟧.view) result.connection)
        (option_map (⟦<Devices<W, FileLog<H::File>> as Outlet>⟧.view) result.devices)
        (exit_status result.status) }
    // 2. Each line is answered as that line of a script. So each tenancy is alone, its journal is
    // its own, strips are separated, the book is exact, and nothing has two owners. The lines with
    // a name's tag are the replies to its own lines, byte for byte. (1767 lines)
    ensures told { OfEachDay IsToldLive }
    // 3. With workers it is a day without them: the lines that were served, a line for each step of
    // a worker among them, are answered one after another. Each item of a name was served once, in
    // the order in which the name said it, or waits, or was lost and is answered so. (1917 lines)
    ensures one_day { OfAllCalls IsOneDay }
    // 4. What a name said waits only as long as the name has its tenancy: nothing is done to a
    // later one. (1819 lines)
    ensures tenancies { OfAllCalls KeepsTenancies }
    // 5. With workers, of the events of a run, at each moment: nothing is written whose line was
    // not kept before. (1890 lines)
    ensures moments { OfAllCalls IsBackedAtEachMoment }
{
    live_promises();
    machine_law();
    moments_promises();
    run_program(rt, words, reader, writer)
}
