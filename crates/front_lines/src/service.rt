//! A live service, as a front sees it.
ghost use Rattle.std.specs.Prelude.{◌≡◌, [], IfOk, OnErr, OnOk};
ghost use Rattle.front_lines.specs.Prelude.{line_of, IsKept, Writes, tagged_text};
ghost use Rattle.front_lines.specs.LinesRead.{to_come};
ghost use Rattle.front_lines.specs.Speakers.{with_marks, tag_in};
ghost use Rattle.front_lines.specs.Serving.{HasReply};

use crate::lines_read::await_line;
use crate::speaker::Speaker;
use dialogue::Dialogue;
use line_feed::LineFeed;
use line_text::{Failed, MemorySink};
use std::alloc::{AllocError, Global};
use std::sync::Wait;
use std::time::Clock;
use tagged_lines::write_tagged;

/// Where commands are handed over.
pub trait Requests {
    ghost use Rattle.std.specs.Prelude.{ℕ, Bool, List, Option};

    // The bytes that were handed over, if they are known.
    ghost contents: { Self → Option (List ℕ) };

    // Whether it has failed.
    ghost has_failed: { Self → Bool };

    /// Hands over lines. No other front's bytes come between them.
    ///
    /// # Errors
    /// `Failed` if it fails. It has then taken a beginning of the bytes.
    fn hand_over(&mut self, lines: &[u8]) -> Result<(), Failed>
        ensures { Writes contents has_failed self.old self.new lines.now result };
}

/// Why a front stops before its client has said all.
#[derive(Clone, Copy, PartialEq, Eq)]
pub enum FrontStop {
    /// The client can't be read any more.
    Input,
    /// The client can't be answered any more.
    Output,
    /// Requests can't be handed over.
    Requests,
    /// Replies can't be read.
    Replies,
    NoMemory,
}

impl From<AllocError> for FrontStop {
    fn from(_error: AllocError) -> Self {
        FrontStop::NoMemory
    }
}

/// A live service, which is asked by lines with one tag. Its output, which has the replies to
/// everybody, is read line by line.
#[derive(Drop)]
pub struct Service<Q: Requests + Drop, F: Dialogue + Drop> {
    pub speaker: Speaker,
    pub requests: Q,
    pub replies: F,
    pub feed: LineFeed,
}

/// What is handed over for a command, each line with the tag.
fn tagged_command(alloc: Global, speaker: &Speaker, command: &[u8]) -> Result<Vec<u8>, AllocError>
    ensures { IfOk result (λ lines. lines.items ≡ tagged_text (tag_in speaker.now)
        (with_marks speaker.now command.now)) }
{
    let text = speaker.with_marks(alloc, command)?;
    let mut lines = MemorySink::new(alloc);
    match write_tagged(&mut lines, speaker.tag(), &text) {
        Ok(()) => Ok(lines.into_bytes()),
        Err(_) => Err(AllocError),
    }
}

/// Reads the service's output up to the end of a reply to the speaker, and returns what its lines
/// say to him.
pub(crate) fn take_reply<H: Wait + Clock, F: Dialogue>(
    rt: &H,
    alloc: Global,
    speaker: &Speaker,
    feed: &mut LineFeed,
    replies: &mut F,
) -> Result<Vec<u8>, FrontStop>
    requires { IsKept (line_of feed.old) [] }
    ensures { IfOk result (λ reply. HasReply speaker.now (to_come feed.old (F.view replies.old))
        (to_come feed.new (F.view replies.new)) (line_of feed.new) reply.items) }
{
    let mut reply = Vec::new(alloc);
    for _ in rt.forever() {
        await_line(rt, feed, replies)?;
        let is_whole = speaker.note_line(&mut reply, feed.line())?;
        feed.begin_line();
        if is_whole {
            return Ok(reply);
        }
    }
    unreachable!()
}

impl<Q: Requests + Drop, F: Dialogue + Drop> Service<Q, F> {
    ghost use Rattle.front_lines.specs.Commands.{handed_for};
    ghost use Rattle.front_lines.specs.Commands.Item.{HandOver};
    ghost use Rattle.front_lines.specs.Serving.{HandsPart, HasReply};
    ghost use Rattle.std.specs.Io.KnownBytes.{Appends};

    /// Hands a command over, and returns the client's reply.
    pub(crate) fn ask<H: Wait + Clock>(
        &mut self,
        rt: &H,
        alloc: Global,
        command: &[u8],
    ) -> Result<Vec<u8>, FrontStop>
        requires { IsKept (line_of self.old.feed) [] }
        ensures speaker { self.new.speaker ≡ self.old.speaker }
        ensures handed { OnOk result (Appends (Q.contents self.old.requests)
            (Q.contents self.new.requests) (handed_for self.old.speaker (HandOver command.now))) }
        ensures reply { IfOk result (λ reply. HasReply self.old.speaker
            (to_come self.old.feed (F.view self.old.replies))
            (to_come self.new.feed (F.view self.new.replies)) (line_of self.new.feed) reply.items) }
        ensures fails { OnErr result (HandsPart (Q.contents self.old.requests)
            (Q.contents self.new.requests) (handed_for self.old.speaker (HandOver command.now))) }
    {
        let lines = tagged_command(alloc, &self.speaker, command)?;
        if self.requests.hand_over(&lines).is_err() {
            return Err(FrontStop::Requests);
        }
        take_reply(rt, alloc, &self.speaker, &mut self.feed, &mut self.replies)
    }
}
