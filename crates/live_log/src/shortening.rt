//! A log that is answered, line by line, to see which of its lines are kept.
ghost use Rattle.std.specs.Prelude.{ℕ, List, ◌≡◌, true, IfOk, OnOk, length};
ghost use Rattle.live_log.specs.Prelude.{AreAnswered, physical_lines, texts};
ghost use Rattle.live_log.specs.Choice.{AreChosen};
ghost use Rattle.live_log.specs.LastTags.{last_tags};

use crate::keeper::Keeper;
use crate::last_tags::last_tags;
use crate::progress::{count_lines, tell_progress};
use crate::short_log::ShortLog;
use line_feed::kept_bytes;
use line_service::Answers;
use line_text::{Sink, split_line};
use std::alloc::{AllocError, Global};

/// Has a service answer the lines of a log, the first of them having number 1. Returns those lines
/// that a service of the same beginning needs to go on as this one would. Each line of the log must
/// have its end.
///
/// # Errors
/// `AllocError` if it runs out of memory.
pub(crate) fn shorten<'l, A: Answers, E: Sink>(
    alloc: Global,
    service: &mut A,
    log: &'l [u8],
    teller: &mut E,
) -> Result<ShortLog<'l>, AllocError>
    requires { A.is_ready service.old }
    ensures log { IfOk result (λ short. short.log.now ≡ log.now) }
    ensures marks { IfOk result (λ short.
        length short.kept.items ≡ length (physical_lines log.now)) }
    ensures chosen { IfOk result (λ short. AreChosen A.answers service.old 1 true
        (physical_lines log.now) short.kept.items service.new) }
    ensures last { IfOk result (λ short.
        texts short.last.items ≡ last_tags (physical_lines log.now)) }
    ensures ready { OnOk result (A.is_ready service.new) }
    ensures served { OnOk result ((text : List ℕ) × AreAnswered A.answers service.old 1
        (physical_lines log.now) text service.new) }
{
    let last = last_tags(alloc, log)?;
    let kept = flags_of(alloc, service, log, teller)?;
    Ok(ShortLog { log, kept, last })
}

/// Has a service answer the lines of a log, the first of them having number 1. Returns for each
/// line whether it is kept.
fn flags_of<A: Answers, E: Sink>(
    alloc: Global,
    service: &mut A,
    log: &[u8],
    teller: &mut E,
) -> Result<Vec<bool>, AllocError>
    requires { A.is_ready service.old }
    ensures chosen { IfOk result (λ kept. AreChosen A.answers service.old 1 true
        (physical_lines log.now) kept.items service.new) }
    ensures ready { OnOk result (A.is_ready service.new) }
    ensures served { OnOk result ((text : List ℕ) × AreAnswered A.answers service.old 1
        (physical_lines log.now) text service.new) }
{
    let all = count_lines(log);
    let mut keeper = Keeper::new(alloc);
    let mut number = 0;
    let mut rest = log;
    while !rest.is_empty() {
        let (line, after) = split_line(rest);
        let line = kept_bytes(line);
        number += 1;
        let reply = service.answer(number, line)?;
        keeper.note(line, reply.as_slice())?;
        tell_progress(teller, number, all);
        rest = after;
    }
    keeper.kept_flags(alloc)
}
