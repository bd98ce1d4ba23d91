//! The thread that reads.
ghost use Rattle.std.specs.Prelude.{◌≡◌, ◌++◌, ◌∷◌, [], List, ℕ, Option, Some, IfOk, OnOk, MatchBool, ◌⊎◌};
ghost use Rattle.live_threads.specs.Prelude.{ahead_of, line_of, IsKept, with_feed, SameProducer, sent};
ghost use Rattle.live_threads.specs.Fed.{AreReadLines, Fed, IsFed, PutsLines};
ghost use Rattle.live_threads.specs.Taken.{cut_lines};
ghost use Rattle.live_threads.specs.declared.letters.InputEnd.TheVariants.{Done};

use crate::crew::Crew;
use crate::letters::InputEnd;
use dialogue::{Dialogue, Replay};
use line_feed::LineFeed;
use line_text::Source;
use rtrb::{Producer, PushError};
use std::alloc::{AllocError, AllocGlobal, Global};
use std::sync::Wait;

/// What is left of a reader: its end of the ring, and how the input ended. None if the service was
/// over before.
#[derive(Drop)]
pub(crate) struct ReaderEnd {
    pub(crate) lines: Producer<Vec<u8>>,
    pub(crate) end: Option<InputEnd>,
}

/// Reads the lines of an input up to its end, once the log has been served, and as long as the
/// service goes on. The lines of one read go into the ring as one text, each cut to the bytes that
/// are kept of it and ended by LF.
pub(crate) fn read_lines<S: Source + Drop, R: Wait + AllocGlobal>(
    rt: &R,
    crew: &Crew,
    lines: Producer<Vec<u8>>,
    reader: S,
) -> ReaderEnd
    ensures { PutsLines lines result.lines
        (λ fed. AreReadLines (S.remaining reader) result.end fed) }
{
    let mut lines = lines;
    let mut source = Replay::new(reader);
    if !crew.mailbox.await_ready(rt) {
        drop(source);
        return ReaderEnd { lines, end: None };
    }
    let end = match LineFeed::new(rt.alloc()) {
        Ok(mut feed) => feed_lines(rt, crew, &mut lines, &mut feed, &mut source),
        Err(_) => Some(InputEnd::NoMemory),
    };
    drop(source);
    if let Some(end) = end {
        crew.mailbox.note_end(rt, end);
    }
    ReaderEnd { lines, end }
}

/// Hands over all lines of an input; a last line without its end is none. Returns how the input
/// ended. None if the service is over before.
fn feed_lines<D: Dialogue, R: Wait + AllocGlobal>(
    rt: &R,
    crew: &Crew,
    lines: &mut Producer<Vec<u8>>,
    feed: &mut LineFeed,
    source: &mut D,
) -> Option<InputEnd>
    requires ahead { ahead_of feed.old ≡ [] }
    requires line { IsKept (line_of feed.old) [] }
    ensures { PutsLines lines.old lines.new
        (λ fed. AreReadLines (D.view source.old).remaining result fed) }
{
    for _ in rt.forever() {
        if feed.refill(source).is_err() {
            return Some(InputEnd::Failed);
        }
        if feed.is_empty() {
            return Some(InputEnd::Done);
        }
        let Ok(batch) = take_lines(rt.alloc(), feed) else {
            return Some(InputEnd::NoMemory);
        };
        if !hand_over(rt, crew, lines, batch) {
            return None;
        }
    }
    unreachable!()
}

/// The lines that have come.
fn take_lines(alloc: Global, feed: &mut LineFeed) -> Result<Vec<u8>, AllocError>
    requires { IsFed (ahead_of feed.old) (line_of feed.old) }
    ensures ahead { IfOk result (λ batch. ahead_of feed.new ≡ []) }
    ensures fed { IfOk result (λ batch. (input now : Option (List ℕ)) (fed : List (List ℕ)) →
        Fed input now (ahead_of feed.old) (line_of feed.old) fed →
        Fed input now (ahead_of feed.new) (line_of feed.new)
        (fed ++ cut_lines batch.items)) }
{
    let mut batch = Vec::new(alloc);
    while feed.take_piece() {
        push_line(&mut batch, feed.line())?;
        feed.begin_line();
    }
    Ok(batch)
}

/// Adds a line with LF.
fn push_line(batch: &mut Vec<u8>, line: &[u8]) -> Result<(), AllocError>
    ensures { OnOk result (batch.new.items ≡ batch.old.items ++ with_feed line.now) }
{
    batch.extend_from_slice(line)?;
    batch.push(b'\n')?;
    Ok(())
}

/// Puts lines into the ring. Waits for room. Returns whether the service goes on.
fn hand_over<R: Wait>(rt: &R, crew: &Crew, lines: &mut Producer<Vec<u8>>, batch: Vec<u8>) -> bool
    ensures ring { SameProducer lines.old lines.new }
    ensures put { MatchBool result (sent lines.new ≡ sent lines.old ++ batch ∷ [])
        ((sent lines.new ≡ sent lines.old ++ batch ∷ [])
        ⊎ (sent lines.new ≡ sent lines.old)) }
{
    let mut batch = batch;
    for _ in rt.forever() {
        match lines.push(batch) {
            Ok(()) => return crew.mailbox.note_lines(rt),
            Err(PushError::Full(back)) => batch = back,
        }
        if !crew.mailbox.await_room(rt, lines) {
            drop(batch);
            return false;
        }
    }
    unreachable!()
}
