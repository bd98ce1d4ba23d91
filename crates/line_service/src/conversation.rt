//! The lines of a dialogue's input, answered as they come.
ghost use Rattle.std.specs.Prelude.{◌≡◌, []};
ghost use Rattle.line_feed.specs.Feed.{ahead_of, line_of};
ghost use Rattle.line_feed.specs.Pieces.{IsKept};
ghost use Rattle.line_service.specs.Conversation.{IsConversation};

use crate::answers::Answers;
use crate::turn::take_turn;
use dialogue::{Dialogue, FailedDevice};
use line_feed::LineFeed;
use std::sync::Wait;

/// How a conversation ended.
#[derive(Clone, Copy, PartialEq, Eq)]
pub enum ConversationEnd {
    /// The input ended, and all its lines are answered. A last line without its end is none.
    Done,
    /// That device failed.
    Stopped(FailedDevice),
    /// The next line would have number 2^64 - 1. All lines before it are answered.
    TooManyLines,
    /// It ran out of memory for a reply.
    NoMemory,
}

/// Answers the lines of a dialogue's input, the first of them having that number. Each line is kept
/// before it is answered, and its reply is written before anything more is read. Once all is done,
/// the number is that of a line that would come next.
pub fn converse<H: Wait, A: Answers, D: Dialogue>(
    rt: &H,
    service: &mut A,
    feed: &mut LineFeed,
    dialogue: &mut D,
    number: &mut u64,
) -> ConversationEnd
    requires ready { A.is_ready service.old }
    requires ahead { ahead_of feed.old ≡ [] }
    requires line { IsKept (line_of feed.old) [] }
    ensures ready { result ≡ ConversationEnd.Done → A.is_ready service.new }
    ensures conversation { IsConversation A.answers service.old number.old
        (D.view dialogue.old) (D.view dialogue.new) result service.new number.new }
{
    for _ in rt.forever() {
        if *number == u64::MAX {
            return ConversationEnd::TooManyLines;
        }
        if feed.take_piece() {
            match take_turn(service, feed, dialogue, *number) {
                Ok(()) => {}
                Err(end) => return end,
            }
            feed.begin_line();
            *number += 1;
            continue;
        }
        match feed.refill(dialogue) {
            Ok(()) => {}
            Err(fault) => return ConversationEnd::Stopped(fault),
        }
        if feed.is_empty() {
            return ConversationEnd::Done;
        }
    }
    unreachable!()
}
