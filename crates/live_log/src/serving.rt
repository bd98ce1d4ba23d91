//! A service that is served the lines of a shorter log.
ghost use Rattle.std.specs.Prelude.{ℕ, List, ◌≡◌, ◌+◌, ◌<◌, ◌≤◌, ◌^◌, length, map, take, IfOk, OnOk};
ghost use Rattle.live_log.specs.Prelude.{kept_of, AreAnswered, physical_lines, texts};
ghost use Rattle.live_log.specs.Alike.{ServesIf};
ghost use Rattle.live_log.specs.Kept.{lines_kept, last_line, lines_in};

use crate::last_tags::LAST;
use crate::short_log::ShortLog;
use line_feed::kept_bytes;
use line_service::Answers;
use line_text::split_line;
use std::alloc::{AllocError, Global};

/// Has a service answer the lines of a shorter log, the first of them having number 1.
pub(crate) fn serve_short<A: Answers>(
    alloc: Global,
    service: &mut A,
    short: &ShortLog<'_>,
) -> Result<(), AllocError>
    requires { A.is_ready service.old }
    ensures ready { OnOk result (A.is_ready service.new) }
    ensures served { OnOk result ((text : List ℕ) × AreAnswered A.answers service.old 1
        (lines_in short.now) text service.new) }
{
    let number = serve_kept(service, short)?;
    serve_last(alloc, service, number, short.last.as_slice())
}

/// Has a service answer the lines of a log that are kept, the first of them having number 1.
/// Returns how many these are.
fn serve_kept<A: Answers>(service: &mut A, short: &ShortLog<'_>) -> Result<u64, AllocError>
    requires { A.is_ready service.old }
    ensures ready { OnOk result (A.is_ready service.new) }
    ensures number { IfOk result (λ number. number
        ≡ length (lines_kept short.now.kept.items (physical_lines short.now.log.now))) }
    ensures few { IfOk result (λ number. number ≤ length short.now.log.now) }
    ensures served { OnOk result ((text : List ℕ) × AreAnswered A.answers service.old 1
        (lines_kept short.now.kept.items (physical_lines short.now.log.now)) text service.new) }
{
    let mut number = 0;
    let mut rest = short.log;
    let mut marks = short.kept.as_slice();
    while !rest.is_empty() {
        let Some((kept, others)) = marks.split_first() else {
            return Ok(number);
        };
        let (line, after) = split_line(rest);
        number = serve_if(service, *kept, number, line)?;
        rest = after;
        marks = others;
    }
    Ok(number)
}

/// Has a service answer a line if it is kept, and returns its number; else that of the line before.
fn serve_if<A: Answers>(
    service: &mut A,
    kept: bool,
    number: u64,
    line: &[u8],
) -> Result<u64, AllocError>
    requires ready { A.is_ready service.old }
    requires number { number + 1 < 2 ^ 64 }
    ensures ready { OnOk result (A.is_ready service.new) }
    ensures served { IfOk result (λ next. ServesIf A.answers service.old number kept line.now
        service.new next) }
{
    if !kept {
        return Ok(number);
    }
    drop(service.answer(number + 1, kept_bytes(line))?);
    Ok(number + 1)
}

/// Has a service answer the comments that say these tags, after that many lines.
fn serve_last<A: Answers>(
    alloc: Global,
    service: &mut A,
    count: u64,
    tags: &[&[u8]],
) -> Result<(), AllocError>
    requires ready { A.is_ready service.old }
    requires number { count + length tags.now < 2 ^ 64 }
    ensures ready { OnOk result (A.is_ready service.new) }
    ensures served { OnOk result ((text : List ℕ) × AreAnswered A.answers service.old (count + 1)
        (map last_line (texts tags.now)) text service.new) }
{
    let mut number = count;
    for tag in tags {
        number += 1;
        serve_comment(alloc, service, number, tag)?;
    }
    Ok(())
}

/// Has a service answer the comment that says a tag.
fn serve_comment<A: Answers>(
    alloc: Global,
    service: &mut A,
    number: u64,
    tag: &[u8],
) -> Result<(), AllocError>
    requires { A.is_ready service.old }
    ensures ready { OnOk result (A.is_ready service.new) }
    ensures served { OnOk result ((reply : List ℕ) × A.answers service.old number
        (kept_of (last_line tag.now)) reply service.new) }
{
    let line = comment_of(alloc, tag)?;
    drop(service.answer(number, kept_bytes(line.as_slice()))?);
    Ok(())
}

/// The comment that says a tag.
fn comment_of(alloc: Global, tag: &[u8]) -> Result<Vec<u8>, AllocError>
    ensures { IfOk result (λ line. line.items ≡ last_line tag.now) }
{
    let mut line = Vec::new(alloc);
    line.extend_from_slice(LAST)?;
    line.extend_from_slice(tag)?;
    Ok(line)
}
