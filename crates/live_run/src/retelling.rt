//! The lines of a log, answered again.
ghost use Rattle.std.specs.Prelude.{◌≡◌, [], OnOk};
ghost use Rattle.live_run.specs.Prelude.{ahead_of, line_of, IsKept, is_ready, state_in};
ghost use Rattle.live_run.specs.Retelling.{EndsRetelling, RetellsLine, TellsReply, is_told};

use crate::outcome::Outcome;
use dialogue::{Dialogue, Replay};
use line_feed::LineFeed;
use line_service::Answers;
use line_text::Source;
use live_input::LiveLines;
use std::alloc::AllocGlobal;
use std::sync::Wait;

/// Whether the reply to the line of that number is written again: it is to those after a line.
pub fn is_told(told: Option<u64>, number: u64) -> bool
    ensures { result ≡ is_told told number }
{
    match told {
        Some(line) => line < number,
        None => false,
    }
}

/// Answers the lines of a log again, the first of them having that number. The replies to the lines
/// after the line `told` are written to the dialogue, the others are dropped.
pub(crate) fn retell<H: Wait + AllocGlobal, P: Source + Drop, D: Dialogue>(
    rt: &H,
    lines: &mut LiveLines<'_>,
    past: P,
    told: Option<u64>,
    dialogue: &mut D,
    number: &mut u64,
) -> Result<(), Outcome>
    requires { is_ready lines.old }
    ensures ready { OnOk result (is_ready lines.new) }
    ensures retells { EndsRetelling (state_in lines.old) number.old (P.remaining past) told
        (D.view dialogue.old) result (state_in lines.new) number.new (D.view dialogue.new) }
{
    let mut source = Replay::new(past);
    match LineFeed::new(rt.alloc()) {
        Ok(mut feed) => retell_lines(rt, lines, &mut feed, &mut source, told, dialogue, number),
        Err(_) => Err(Outcome::NoMemory),
    }
}

/// Answers the lines of a source.
fn retell_lines<H: Wait, S: Dialogue, D: Dialogue>(
    rt: &H,
    lines: &mut LiveLines<'_>,
    feed: &mut LineFeed,
    source: &mut S,
    told: Option<u64>,
    dialogue: &mut D,
    number: &mut u64,
) -> Result<(), Outcome>
    requires ready { is_ready lines.old }
    requires ahead { ahead_of feed.old ≡ [] }
    requires line { IsKept (line_of feed.old) [] }
    ensures ready { OnOk result (is_ready lines.new) }
    ensures retells { EndsRetelling (state_in lines.old) number.old (S.view source.old).remaining
        told (D.view dialogue.old) result (state_in lines.new) number.new
        (D.view dialogue.new) }
{
    for _ in rt.forever() {
        if feed.take_piece() {
            match retell_line(lines, feed.line(), told, dialogue, number) {
                Ok(()) => {}
                Err(outcome) => return Err(outcome),
            }
            feed.begin_line();
            continue;
        }
        if feed.refill(source).is_err() {
            return Err(Outcome::LogUnreadable);
        }
        if feed.is_empty() {
            return Ok(());
        }
    }
    unreachable!()
}

/// Answers a line.
fn retell_line<D: Dialogue>(
    lines: &mut LiveLines<'_>,
    line: &[u8],
    told: Option<u64>,
    dialogue: &mut D,
    number: &mut u64,
) -> Result<(), Outcome>
    requires { is_ready lines.old }
    ensures ready { OnOk result (is_ready lines.new) }
    ensures retells { RetellsLine (state_in lines.old) number.old line.now told
        (D.view dialogue.old) result (state_in lines.new) number.new (D.view dialogue.new) }
{
    if *number == u64::MAX {
        return Err(Outcome::LogUnreadable);
    }
    let Ok(reply) = lines.answer(*number, line) else {
        return Err(Outcome::NoMemory);
    };
    tell_reply(dialogue, told, *number, reply)?;
    *number += 1;
    Ok(())
}

/// Writes the reply to the line of that number, if it is one of the later ones.
fn tell_reply<D: Dialogue>(
    dialogue: &mut D,
    told: Option<u64>,
    number: u64,
    reply: Vec<u8>,
) -> Result<(), Outcome>
    ensures { TellsReply told number reply.items (D.view dialogue.old) result
        (D.view dialogue.new) }
{
    if !is_told(told, number) {
        return Ok(());
    }
    match dialogue.write(reply.as_slice()) {
        Ok(()) => Ok(()),
        Err(fault) => Err(Outcome::Stopped(fault)),
    }
}
