//! A client is served.
ghost use Rattle.std.specs.Prelude.{◌≡◌, []};
ghost use Rattle.front_lines.specs.Prelude.{ahead_of, line_of, IsKept};
ghost use Rattle.front_lines.specs.Serving.{HasServed, ServesAll};

use crate::client_text::ClientText;
use crate::exchange::take_turn;
use crate::lines_read::read_line;
use crate::service::{FrontStop, Requests, Service};
use dialogue::Dialogue;
use line_feed::LineFeed;
use std::alloc::Global;
use std::sync::Wait;
use std::time::Clock;

/// Serves a client up to the end of its input: takes each of its lines when the line
/// before it was answered.
pub fn serve_client<H: Wait + Clock, D: Dialogue, Q: Requests + Drop, F: Dialogue + Drop>(
    rt: &H,
    alloc: Global,
    service: &mut Service<Q, F>,
    text: &mut ClientText,
    feed: &mut LineFeed,
    client: &mut D,
) -> Result<(), FrontStop>
    requires ahead { ahead_of feed.old ≡ [] }
    requires line { IsKept (line_of feed.old) [] }
    requires replies_ahead { ahead_of service.old.feed ≡ [] }
    requires replies_line { IsKept (line_of service.old.feed) [] }
    ensures served { HasServed service.old.speaker text.old (D.view client.old).remaining
        (Q.contents service.old.requests) (Q.contents service.new.requests)
        (F.view service.old.replies).remaining (D.view client.old).output
        (D.view client.new).output }
    ensures all { ServesAll service.old.speaker text.old (D.view client.old).remaining
        (Q.contents service.old.requests) (Q.contents service.new.requests)
        (F.view service.old.replies).remaining (D.view client.old).output
        (D.view client.new).output result }
{
    for _ in rt.forever() {
        match read_line(rt, feed, client) {
            Ok(true) => {}
            Ok(false) => return Ok(()),
            Err(_) => return Err(FrontStop::Input),
        }
        take_turn(rt, alloc, service, text, feed.line(), client)?;
        feed.begin_line();
    }
    unreachable!()
}
