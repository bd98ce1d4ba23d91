//! A client is served.
ghost use Rattle.std.specs.Prelude.{◌≡◌, [], IsOk, List, ℕ, true};
ghost use Rattle.std.specs.List.{list_all};
ghost use Rattle.std.specs.Str.{bytes_eq};
ghost use Rattle.line_feed.specs.Feed.{ahead_of, line_of};
ghost use Rattle.line_feed.specs.Pieces.{IsKept};
ghost use Rattle.line_text.specs.Lines.{physical_lines};
ghost use Rattle.tagged_lines.specs.Tags.{is_tag, is_whole, tag_of};
ghost use Rattle.front_lines.specs.Commands.{ClientState, handed};
ghost use Rattle.front_lines.specs.Speakers.{tag_in};
ghost use Rattle.front_lines.specs.declared.speaker.Speaker.{Speaker};
ghost use Rattle.front_run.specs.Promise.{Served};

use crate::closing::{closing_of, write_last};
use crate::outcome::Outcome;
use dialogue::{Dialogue, FailedDevice};
use front_lines::{ClientText, FrontStop, Requests, Service, only_own_lines, serve_client};
use line_feed::LineFeed;
use std::sync::Wait;
use std::time::Clock;

/// Serves a client up to the end of its input. Each clause is a promise.
pub fn serve<H: Wait + Clock + AllocGlobal, D: Dialogue, Q: Requests + Drop, F: Dialogue + Drop>(
    rt: &H,
    service: &mut Service<Q, F>,
    client: &mut D,
) -> Outcome
    requires ahead { ahead_of service.old.feed ≡ [] }
    requires line { IsKept (line_of service.old.feed) [] }
    // 1. Whenever the front ends: what it has handed over is a beginning of what the client's lines
    // hand over; and what was written to the client is a beginning of the replies with its tag,
    // without it, each up to its end, and of refusals of its lines, in the order of its lines.
    ensures served { Served service.old.speaker (D.view client.old).remaining
        (Q.contents service.old.requests) (Q.contents service.new.requests)
        (F.view service.old.replies).remaining (D.view client.old).output
        (D.view client.new).output result }
    // 2. Whatever lines a client says, what they hand over is whole lines, and each has the tag.
    ensures own { (who : Speaker) (state : ClientState) (lines : List (List ℕ)) →
        is_tag (tag_in who) ≡ true → list_all (λ line. bytes_eq (tag_of line) (tag_in who))
        (physical_lines (handed who state lines)) ≡ true }
    ensures whole { (who : Speaker) (state : ClientState) (lines : List (List ℕ)) →
        is_whole (handed who state lines) ≡ true }
{
    only_own_lines();
    match LineFeed::new(rt.alloc()) {
        Ok(mut feed) => serve_feed(rt, service, &mut feed, client),
        Err(_) => Outcome::Stopped(FrontStop::NoMemory),
    }
}

/// Serves a client whose lines come through that feed.
fn serve_feed<H: Wait + Clock + AllocGlobal, D: Dialogue, Q: Requests + Drop, F: Dialogue + Drop>(
    rt: &H,
    service: &mut Service<Q, F>,
    feed: &mut LineFeed,
    client: &mut D,
) -> Outcome
    requires ahead { ahead_of service.old.feed ≡ [] }
    requires line { IsKept (line_of service.old.feed) [] }
    requires client_ahead { ahead_of feed.old ≡ [] }
    requires client_line { IsKept (line_of feed.old) [] }
    ensures { Served service.old.speaker (D.view client.old).remaining
        (Q.contents service.old.requests) (Q.contents service.new.requests)
        (F.view service.old.replies).remaining (D.view client.old).output
        (D.view client.new).output result }
{
    let mut text = ClientText::new(rt.alloc(), &service.speaker);
    let end = serve_client(rt, rt.alloc(), service, &mut text, feed, client);
    let closing = closing_of(end, feed.line(), text.is_within());
    let written = write_last(client, closing);
    outcome_of(end, written)
}

/// How a front ended whose client was served so, and has its last line.
fn outcome_of(end: Result<(), FrontStop>, written: Result<(), FailedDevice>) -> Outcome
    ensures { result ≡ Outcome.Done → IsOk end }
{
    match (end, written) {
        (Ok(()), Ok(())) => Outcome::Done,
        (Ok(()), Err(_)) => Outcome::Stopped(FrontStop::Output),
        (Err(stop), _) => Outcome::Stopped(stop),
    }
}
