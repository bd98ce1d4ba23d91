//! A script that is served on threads, beside workers.
ghost use Rattle.std.specs.Prelude.{◌≤◌, ◌<◌, ◌^◌, length};
ghost use Rattle.fpgad_run.specs.Ends.{Replies};
ghost use Rattle.fpgad_run.specs.OnThreads.{AreThreadedReplies, threaded_start_of};

use crate::inputs::{Architecture, Texts};
use crate::options::Options;
use crate::outcome::Outcome;
use arch_file::read_arch;
use script_text::{RunReplies, read_threaded};
use script_threads::serve_on_threads;
use std::alloc::AllocGlobal;
use std::sync::Wait;
use std::thread::Threads;
use std::time::Clock;

/// The answers to a script beside as many workers as the options say, at least one, or why there
/// are none.
pub(crate) fn replies<'t, H: Threads + Wait + Clock + AllocGlobal + Sync>(
    rt: &H,
    options: &Options,
    architecture: Architecture<'t>,
    input: &'t [u8],
) -> Result<RunReplies<'t>, Outcome>
    requires input { length input.now < 2 ^ 63 }
    requires workers { 1 ≤ options.now.workers }
    ensures { Replies (AreThreadedReplies options.now
        (threaded_start_of options.now.tracks architecture.entry input.now))
        (threaded_start_of options.now.tracks architecture.entry input.now) result }
{
    let alloc = rt.alloc();
    let Some(texts) = Texts::new(architecture, input) else {
        return Err(Outcome::ArchUnreadable);
    };
    let arch = read_arch(alloc, texts.architecture, options.tracks)?;
    let script = read_threaded(alloc, texts.script, texts.number)?;
    let answered = serve_on_threads(rt, options.workers, options.device(arch), script)?;
    Ok(answered)
}
