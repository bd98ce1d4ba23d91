//! One line of a client, and what the client is answered.
ghost use Rattle.std.specs.Prelude.{◌≡◌, ◌⊎◌, [], IfOk, OnErr, OnOk};
ghost use Rattle.front_lines.specs.Prelude.{line_of, IsKept};
ghost use Rattle.front_lines.specs.LinesRead.{to_come};
ghost use Rattle.front_lines.specs.Commands.{handed_for, item_of, state_after};
ghost use Rattle.front_lines.specs.Serving.{Answers, HandsPart, TakesTurn, TellsNothing, TellsPart};

use crate::client_text::{ClientText, Taken};
use crate::service::{FrontStop, Requests, Service};
use dialogue::Dialogue;
use std::alloc::Global;
use std::sync::Wait;
use std::time::Clock;

/// Takes a line of the client: asks the service, if the line completes a command. Returns what the
/// client is answered.
pub(crate) fn answer_line<H: Wait + Clock, Q: Requests + Drop, F: Dialogue + Drop>(
    rt: &H,
    alloc: Global,
    service: &mut Service<Q, F>,
    text: &mut ClientText,
    line: &[u8],
) -> Result<Vec<u8>, FrontStop>
    requires { IsKept (line_of service.old.feed) [] }
    ensures speaker { service.new.speaker ≡ service.old.speaker }
    ensures state { OnOk result (text.new ≡ state_after text.old line.now) }
    ensures ok { IfOk result (λ told. Answers service.old.speaker text.old line.now
        (Q.contents service.old.requests) (Q.contents service.new.requests)
        (to_come service.old.feed (F.view service.old.replies))
        (to_come service.new.feed (F.view service.new.replies)) (line_of service.new.feed) told.items) }
    ensures err { OnErr result (HandsPart (Q.contents service.old.requests)
        (Q.contents service.new.requests)
        (handed_for service.old.speaker (item_of text.old line.now))) }
{
    match text.take_line(line)? {
        Taken::Nothing => Ok(Vec::new(alloc)),
        Taken::Refused(refusal) => Ok(refusal.text(alloc)?),
        Taken::Command(command) => service.ask(rt, alloc, &command),
    }
}

/// Takes a line of the client, and answers it.
pub(crate) fn take_turn<H: Wait + Clock, D: Dialogue, Q: Requests + Drop, F: Dialogue + Drop>(
    rt: &H,
    alloc: Global,
    service: &mut Service<Q, F>,
    text: &mut ClientText,
    line: &[u8],
    client: &mut D,
) -> Result<(), FrontStop>
    requires { IsKept (line_of service.old.feed) [] }
    ensures speaker { service.new.speaker ≡ service.old.speaker }
    ensures state { OnOk result (text.new ≡ state_after text.old line.now) }
    ensures ok { OnOk result (TakesTurn service.old.speaker text.old line.now
        (Q.contents service.old.requests) (Q.contents service.new.requests)
        (to_come service.old.feed (F.view service.old.replies))
        (to_come service.new.feed (F.view service.new.replies)) (line_of service.new.feed) (D.view client.old).remaining (D.view client.new).remaining
        (D.view client.old).output (D.view client.new).output) }
    ensures err { OnErr result (TellsPart service.old.speaker text.old line.now
        (Q.contents service.old.requests) (Q.contents service.new.requests)
        (to_come service.old.feed (F.view service.old.replies))
        (to_come service.new.feed (F.view service.new.replies)) (line_of service.new.feed) (D.view client.old).output (D.view client.new).output
        ⊎ TellsNothing service.old.speaker text.old line.now
        (Q.contents service.old.requests) (Q.contents service.new.requests)
        (D.view client.old).output (D.view client.new).output) }
{
    let told = answer_line(rt, alloc, service, text, line)?;
    match client.write(&told) {
        Ok(()) => Ok(()),
        Err(_) => Err(FrontStop::Output),
    }
}
