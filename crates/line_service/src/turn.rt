//! One line, and its reply.
ghost use Rattle.std.specs.Prelude.{OnOk};
ghost use Rattle.line_feed.specs.Feed.{line_of};
ghost use Rattle.line_service.specs.Turn.{IsTurn};

use crate::answers::Answers;
use crate::conversation::ConversationEnd;
use dialogue::Dialogue;
use line_feed::LineFeed;

/// Answers the line, and writes the reply at once.
pub(crate) fn take_turn<A: Answers, D: Dialogue>(
    service: &mut A,
    feed: &LineFeed,
    dialogue: &mut D,
    number: u64,
) -> Result<(), ConversationEnd>
    requires { A.is_ready service.old }
    ensures ready { OnOk result (A.is_ready service.new) }
    ensures turn { IsTurn A.answers service.old number (line_of feed.now) (D.view dialogue.old)
        (D.view dialogue.new) result service.new }
{
    let Ok(reply) = service.answer(number, feed.line()) else {
        return Err(ConversationEnd::NoMemory);
    };
    match dialogue.write(reply.as_slice()) {
        Ok(()) => Ok(()),
        Err(fault) => Err(ConversationEnd::Stopped(fault)),
    }
}
