//! The lines of a dialogue's input, served as they come.
ghost use Rattle.std.specs.Prelude.{◌≡◌, []};
ghost use Rattle.line_feed.specs.Feed.{ahead_of, line_of};
ghost use Rattle.line_feed.specs.Pieces.{IsKept};
ghost use Rattle.line_service.specs.Conversation.{IsConversation};
ghost use Rattle.live_input.specs.Serving.{AnswersLine, is_ready, state_in};

use crate::lines::LiveLines;
use dialogue::Dialogue;
use line_feed::LineFeed;
use line_service::{ConversationEnd, converse};
use std::sync::Wait;

/// Serves the lines of a dialogue's input, the first of them having that number: a line is kept,
/// then answered, and its reply is written before more is read. A line that is too long is served
/// by its first 1,048,640 bytes. Texts that have no end stay open; [`LiveLines::end`] refuses them.
pub fn serve_lines<H: Wait, D: Dialogue>(
    rt: &H,
    lines: &mut LiveLines<'_>,
    feed: &mut LineFeed,
    dialogue: &mut D,
    number: &mut u64,
) -> ConversationEnd
    requires ready { is_ready lines.old }
    requires ahead { ahead_of feed.old ≡ [] }
    requires line { IsKept (line_of feed.old) [] }
    ensures ready { result ≡ ConversationEnd.Done → is_ready lines.new }
    ensures conversation { IsConversation AnswersLine (state_in lines.old) number.old
        (D.view dialogue.old) (D.view dialogue.new) result (state_in lines.new) number.new }
{
    converse(rt, lines, feed, dialogue, number)
}
